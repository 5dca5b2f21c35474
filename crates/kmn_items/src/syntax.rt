//! The types of the grammar of items: sections, item words, kinds of items, the parts of forms, and refusals of tokens.

ghost use Rattle.std.specs.Prelude.{◌≡◌};

use kmn_base::{Code, Memory, Seq};
use rule_model::SrcItem;

/// The first token of a line that breaks the grammar, and the rule that it breaks. `at` is the number of the line's tokens before it.
#[derive(Clone, Copy, PartialEq, Eq)]
pub struct TokenRefusal {
    pub at: usize,
    pub code: Code,
}

/// Why a line could not be read.
#[derive(Clone, Copy)]
pub enum LineError {
    Refused(TokenRefusal),
    Memory,
}

impl From<Memory> for LineError {
    ghost use Rattle.kmn_items.specs.declared.syntax.LineError.TheVariants as variants;

    ghost from_gives = { λ error given. given ≡ variants.Memory };

    fn from(_error: Memory) -> LineError {
        LineError::Memory
    }
}

/// A section of a statement that contains items.
#[derive(Clone, Copy)]
pub enum Where {
    Store,
    Context,
    Key,
    Output,
}

/// What the previous items of a section contain: a pattern (in a key: an item), and a `nul`.
#[derive(Clone, Copy)]
pub struct Seen {
    pub pattern: bool,
    pub nul: bool,
}

/// A word that begins an item.
#[derive(Clone, Copy)]
pub enum ItemWord {
    Dead,
    Any,
    NotAny,
    Index,
    Context,
    /// `context` with a parenthesis after it.
    ContextAt,
    If,
    Nul,
    Outs,
    /// A word of `$` and the name of a store.
    Dollar,
    Use,
    Set,
    Save,
    Reset,
    Beep,
    Return,
    Call,
    Switch,
    ClearContext,
    Fix,
    Layer,
    Platform,
    BaseLayout,
}

/// The kind of an item by its first token.
#[derive(Clone, Copy)]
pub enum Lead {
    /// A quoted token, which contains characters.
    Characters,
    /// A number, which is one character.
    One(char),
    Named(ItemWord),
    /// The bracket that opens a virtual key.
    Bracket,
    /// A number that breaks a rule by itself.
    Wrong(Code),
    /// A token that does not begin an item.
    Misplaced,
}

/// What is required at one index of a form.
#[derive(Clone, Copy)]
pub enum Slot {
    /// The word that begins the form.
    Lead,
    /// A word of `$` and a name.
    DollarName,
    Open,
    Close,
    Comma,
    Equal,
    /// `=` or `!=`.
    Comparison,
    Name,
    /// The name of a store or, after a `&`, of a system store.
    StoreName,
    Offset,
    /// One quoted token.
    Value,
    /// Any token except `)`.
    Argument,
    /// The name of a key.
    KeyName,
    /// The bracket that closes a virtual key.
    KeyEnd,
}

/// The result of one reading: an item, or an item for each character of a quoted token; the number of its tokens after the first;
/// and what its section has seen after it.
#[derive(Drop)]
pub struct Taken {
    pub items: Seq<SrcItem>,
    pub more: usize,
    pub seen: Seen,
}
