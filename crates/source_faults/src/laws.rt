//! Laws of the refusals of a source, each the contract of a function with an empty body.

ghost use Rattle.source_faults.specs.Laws.{FirstIsReported};

/// The first of all refusals of a source is the one that its compilation reports, and there are none if it reports none.
#[tactic(auto, using(crate::proofs::FirstFault::first_is_reported))]
pub fn first_is_reported()
    ensures { FirstIsReported }
{}
