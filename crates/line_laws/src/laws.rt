//! Laws of the definitions in `specs/`, each the contract of a function with an empty body.

ghost use Rattle.line_laws.specs.Laws.{LinesOfBoth, TokensAreOfTheirLine, FaultsAreOfTheirLine, PhysicalLinesOfBoth, LogicalsOfBoth, LinesStandAlone, JointsStandAlone, TokensMove, LinesOfMany, LinesOfTexts};

/// If bytes end with a line end, and this is not a CR before an LF, the lines of these and further bytes are those of each.
#[tactic(auto, using(crate::proofs::Both::lines_of_both))]
pub fn lines_of_both()
    ensures { LinesOfBoth }
{}

/// Bytes that are one logical line have the same tokens wherever they are in a text.
#[tactic(auto, using(crate::proofs::Moved::tokens_are_of_their_line))]
pub fn tokens_are_of_their_line()
    ensures { TokensAreOfTheirLine }
{}

/// Bytes that are one logical line have the same first fault wherever they are in a text.
#[tactic(auto, using(crate::proofs::Moved::faults_are_of_their_line))]
pub fn faults_are_of_their_line()
    ensures { FaultsAreOfTheirLine }
{}

/// The physical lines of joined bytes are those of each, with their positions and numbers. So are the logical lines, if no
/// backslash joins both.
#[tactic(auto, using(crate::proofs::Behind::physical_lines_of_both, crate::proofs::Behind::logicals_of_both))]
pub fn lines_stand_behind()
    ensures physical { PhysicalLinesOfBoth }
    ensures logical { LogicalsOfBoth }
{}

/// Bytes that are one logical line are one wherever they are in a text, and so is whether they are joined with the next line.
#[tactic(auto, using(crate::proofs::Alone::lines_stand_alone, crate::proofs::Alone::joints_stand_alone))]
pub fn lines_stand_alone()
    ensures line { LinesStandAlone }
    ensures joint { JointsStandAlone }
{}

/// The tokens of bytes are the same wherever these are in a text.
#[tactic(auto, using(crate::proofs::Moved::tokens_move))]
pub fn tokens_move()
    ensures { TokensMove }
{}

/// The logical lines of joined lines are these, one for one. Those of joined texts are those of each text.
#[tactic(auto, using(crate::proofs::Many::lines_of_many, crate::proofs::Many::lines_are_of_texts))]
pub fn lines_of_many()
    ensures lines { LinesOfMany }
    ensures texts { LinesOfTexts }
{}
