//! Laws of the causes for which names refuse a program, each the contract of a function with an empty body.

ghost use Rattle.source_names.specs.Laws.{FirstCausesAreRefusals, FirstIsReported, ToldOnce};

/// The first of all causes is the first refusal for names, by line and then in the order in which a statement is checked.
#[tactic(auto, using(crate::proofs::FirstCauses::first_causes))]
pub fn first_causes_are_refusals()
    ensures { FirstCausesAreRefusals }
{}

/// The first of the reported causes is the first refusal for names, and there are none if there is no refusal.
#[tactic(auto, using(crate::proofs::Reported::first_reported))]
pub fn first_is_reported()
    ensures { FirstIsReported }
{}

/// No name that is not defined is reported twice.
#[tactic(auto, using(crate::proofs::Reported::reported_once))]
pub fn told_once()
    ensures { ToldOnce }
{}
