//! What is found in the lines of a source so far.

use kmn_base::{Refusal, Seq, Text};
use kmn_parser::LastGroup;
use rule_model::Program;

/// The statements and the refusals of the lines so far, and what later lines need of refused ones.
#[derive(Drop)]
pub struct Found {
    /// The statements of the lines that are read.
    pub program: Program,
    /// The last group.
    pub group: LastGroup,
    /// Whether the last group is known: no refused line after it may be a group.
    pub sure: bool,
    /// Whether the last group has no rule yet.
    pub fresh: bool,
    /// Whether the next rule opens a group, since a refused line may have opened one.
    pub opens: bool,
    /// The refusals of tokens, in the order of lines.
    pub tokens: Seq<Refusal>,
    /// The refusals of statements, in the order of lines.
    pub statements: Seq<Refusal>,
    /// The words of refused lines.
    pub words: Seq<Text>,
}
