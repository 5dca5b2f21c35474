//! Laws of dead lines, each stated as the contract of a function with an empty body.

ghost use Rattle.shadow_text.specs.DeadLines.{DeadLinesAreDead, FoundAreDeadLines};

/// If the compiled tables of a well-named program have a line in `dead_lines`, its rule never fires, in any state and for any
/// press.
#[tactic(auto, using(crate::proofs::DeadRules::dead_lines_dead))]
pub fn dead_lines_are_dead()
    ensures { DeadLinesAreDead }
{}

/// The lines of the rules in `found_dead` are `dead_lines`.
#[tactic(auto, using(crate::proofs::FoundDead::found_are))]
pub fn found_are_dead_lines()
    ensures { FoundAreDeadLines }
{}
