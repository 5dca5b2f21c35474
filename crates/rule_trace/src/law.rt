//! Laws of traced events, each the contract of a function with an empty body.

ghost use Rattle.rule_trace.specs.Laws.{ChoiceIsKept, ChosenLinesAreLines};

/// In each state and for each event, the compiled tables of a well-named program select the source lines that the program
/// selects.
#[tactic(auto, using(crate::proofs::Lines::choice_kept))]
pub fn compiling_keeps_choice()
    ensures { ChoiceIsKept }
{}

/// The lines that tables select are lines of their records, so a coverage counts them.
pub fn chosen_lines_are_lines()
    ensures { ChosenLinesAreLines }
{}
