//! Laws of the definitions in `specs/`, each the contract of a function with an empty body.

ghost use Rattle.group_laws.specs.Unreached.{UnreachedGroupsAreSilent, UnreachedGroupsMayGo};
ghost use Rattle.group_laws.specs.Readonly.{CaughtItemsAreLast, ContextGivesBack};

/// A keyboard takes the same steps without the groups that its start group does not reach, for every list of events.
#[tactic(auto, using(crate::proofs::Unreached::unreached_groups_are_silent))]
pub fn unreached_groups_are_silent()
    ensures { UnreachedGroupsAreSilent }
{}

/// So does a program, if without these groups no deadkey and no key gets another number, and no store becomes an option or
/// stops being one.
#[tactic(auto, using(crate::proofs::Unreached::unreached_groups_may_go))]
pub fn unreached_groups_may_go()
    ensures { UnreachedGroupsMayGo }
{}

/// The items that a rule matched are the last items of the text.
#[tactic(auto, using(crate::proofs::Readonly::caught_items_are_last))]
pub fn caught_items_are_last()
    ensures { CaughtItemsAreLast }
{}

/// An output that begins with `context` and puts nothing after it restores the text from before the match.
#[tactic(auto, using(crate::proofs::Readonly::context_gives_back))]
pub fn context_gives_back()
    ensures { ContextGivesBack }
{}
