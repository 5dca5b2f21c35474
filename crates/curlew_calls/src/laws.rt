//! The law of `specs/Laws`, stated as the contract of a function with an empty body.

ghost use Rattle.curlew_calls.specs.Laws.{NoneToldLeavesNone};

/// If the text before the caret is set to no characters, neither a character nor a mark remains before the caret, unless the window
/// has 64 marks.
#[tactic(auto, using(crate::proofs::ToldOfNone::told_of_none))]
pub fn none_told_leaves_none()
    ensures { NoneToldLeavesNone }
{}
