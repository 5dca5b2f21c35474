//! The statement of a line, and the line while its statement is read.

use kmn_items::LineTokens;
use rule_model::{BeginDef, GroupDef, RuleDef, StoreDef};

/// The statement of a logical line.
#[derive(Drop)]
pub enum Statement {
    /// A line without a token.
    Nothing,
    Store(StoreDef),
    Begin(BeginDef),
    /// A group without its rules.
    Group(GroupDef),
    /// A rule, match or nomatch.
    Rule(RuleDef),
}

/// The last group before a line, to which a rule of the line belongs.
#[derive(Clone, Copy)]
pub enum LastGroup {
    /// There is no group before the line.
    Missing,
    /// The group uses keys.
    UsingKeys,
    /// The group does not use keys.
    WithoutKeys,
}

/// A line that has a token: the number of its first physical line, from 1, the last group before it, its tokens, and the index
/// of the last token. The last token is the latest one at which a statement can break off.
#[derive(Clone, Copy)]
pub(crate) struct Line<'a> {
    pub(crate) number: u32,
    pub(crate) group: LastGroup,
    pub(crate) last: usize,
    pub(crate) tokens: LineTokens<'a>,
}

/// A symbol that separates the sections of a statement.
#[derive(Clone, Copy)]
pub enum Sign {
    /// `>`
    Arrow,
    /// `+`
    Plus,
    /// `)`
    Close,
}
