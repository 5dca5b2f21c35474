//! The law of the elements of stores, the contract of a function with an empty body.

ghost use Rattle.source_uses.specs.Laws.{ContentsAreElements};

/// The elements of `Contents` denote the elements of the program's stores.
#[tactic(auto, using(crate::proofs::Denoted::contents_are))]
pub fn contents_are_elements()
    ensures { ContentsAreElements }
{}
