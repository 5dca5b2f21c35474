//! Laws of the definitions in `specs/`, each the contract of a function with an empty body.

ghost use Rattle.kmn_parser.specs.ProgramLaws.{ProgramsAreRead};
ghost use Rattle.kmn_parser.specs.SourceLaws.{StatementsAreInOrder};

/// The statements of a source are in the order of their lines, and each has its own line. So the line distinguishes the rules
/// of a group, and all rules of a source.
pub fn statements_are_in_order()
    ensures { StatementsAreInOrder }
{}

/// Each statement of a program that is read is one that the grammar produces: names and texts that a file can contain, lines of
/// 32 bits, known ids of stores, keys as their groups require them, and virtual keys with known flags.
pub fn programs_are_read()
    ensures { ProgramsAreRead }
{}
