//! The law of the definitions in `specs/`, the contract of a function with an empty body.

ghost use Rattle.kmn_parser.specs.TextLaws.{ProgramsAreReadBack};

/// The text of a program that a text can express is read as the program: no statement is refused, and none is read differently.
#[tactic(auto, using(crate::proofs::Programs::programs_read_back))]
pub fn programs_are_read_back()
    ensures { ProgramsAreReadBack }
{}
