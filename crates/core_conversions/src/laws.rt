//! Laws of the conversions in `specs/Conversions`, each the contract of a function with an empty body.

ghost use Rattle.core_conversions.specs.Laws.{NulFirstKeepsTraces, PlainSidesKeepTraces, EmptyAsNomatchKeepsTraces, ConvertedKeepsTraces, ConversionsKeepPresses};

/// States that tables take the same steps if each `nul` before the first matched item of a context comes before the conditions.
#[tactic(auto, using(crate::proofs::NulFirst::nul_first_keeps_traces))]
pub fn nul_first_keeps_traces()
    ensures { NulFirstKeepsTraces }
{}

/// States that tables take the same steps if no key has CTRL with a side of control, or ALT with a side of alt.
#[tactic(auto, using(crate::proofs::PlainSides::plain_sides_keep_traces))]
pub fn plain_sides_keep_traces()
    ensures { PlainSidesKeepTraces }
{}

/// States that tables take the same steps if the output of a rule with an empty context is also the nomatch output.
#[tactic(auto, using(crate::proofs::EmptyAsNomatch::empty_as_nomatch_keeps_traces))]
pub fn empty_as_nomatch_keeps_traces()
    ensures { EmptyAsNomatchKeepsTraces }
{}

/// States that tables take the same steps after the three conversions.
#[tactic(auto, using(crate::proofs::AllConverted::converted_keeps_traces))]
pub fn converted_keeps_traces()
    ensures { ConvertedKeepsTraces }
{}

/// States that tables have the same first state after each conversion, and that each press has the same effect on each state.
#[tactic(auto, using(crate::proofs::AllConverted::conversions_keep_presses))]
pub fn conversions_keep_presses()
    ensures { ConversionsKeepPresses }
{}
