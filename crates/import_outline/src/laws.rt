//! The law of the definitions in `specs/`, the contract of a function with an empty body.

ghost use Rattle.import_outline.specs.Laws.{ReachableIsClosed};

/// With each group that names reach, all groups are reached that it uses.
#[tactic(auto, using(crate::proofs::Reached::reachable_is_closed))]
pub fn reachable_is_closed()
    ensures { ReachableIsClosed }
{}
