//! The laws of a session's changes. Each law is the contract of a function with an empty body.

ghost use Rattle.play_session.specs.Printed.{ChangesArePrinted, SessionsBegin, SessionsGoOn};

/// The changes of a step are the changes that a transcript prints, in the same order.
#[tactic(auto, using(crate::proofs::Printing::changes_are_printed))]
pub fn changes_are_printed()
    ensures { ChangesArePrinted }
{}

/// From its start on, a session has the names of its tables' options, and a current value and an optional saved value for each.
#[tactic(auto, using(crate::proofs::Printing::sessions_begin, crate::proofs::Printing::sessions_go_on))]
pub fn sessions_have_their_options()
    ensures begin { SessionsBegin }
    ensures go_on { SessionsGoOn }
{}
