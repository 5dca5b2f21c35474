//! The law of the rules that are warned of, stated as the contract of a function with an empty body.

ghost use Rattle.dead_rules.specs.Laws.{WarnedRulesAreDead};

/// If the compiled tables of a well-named program have W07 at a line, the rule of this line never fires, in any state and for any press.
#[tactic(auto, using(crate::proofs::Warned::warned_are_dead))]
pub fn warned_rules_are_dead()
    ensures { WarnedRulesAreDead }
{}
