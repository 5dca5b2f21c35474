//! A keyboard as a source states it, with names.

use kmn_base::{Seq, Text};

/// A virtual key of a source: shift flags as in a file, with the bit `0x4000`, and a code or, if the code is 0, a name of the
/// key dictionary.
#[derive(Drop)]
pub struct KeyName {
    pub flags: u16,
    pub code: u16,
    pub name: Text,
}

/// One item of a store, a context, a key or an output, with names as in the source. Offsets count the items of the context from
/// 1, and the key comes one after the last.
#[derive(Drop)]
pub enum SrcItem {
    Char(char),
    Dead(Text),
    Key(KeyName),
    Any(Text),
    NotAny(Text),
    Index(Text, u32),
    Context,
    ContextAt(u32),
    Equal(Text, Seq<char>),
    Unequal(Text, Seq<char>),
    /// The id of a system option, and the value.
    SystemEqual(u32, Seq<char>),
    SystemUnequal(u32, Seq<char>),
    Nul,
    Outs(Text),
    Enter(Text),
    Set(Text, Seq<char>),
    /// The id of a system option, and the value.
    SetSystem(u32, Seq<char>),
    Save(Text),
    Reset(Text),
    Beep,
    Stop,
    Call(Text),
    /// An item of the language that this product does not support.
    OutOfProfile,
}

/// A store statement. `system` is 0 for an ordinary store, else the id of a system store, `0xFFFE` for one that is not
/// supported and `0xFFFF` for one that is read and dropped. `name` is empty except for an ordinary store.
#[derive(Drop)]
pub struct StoreDef {
    /// The number of its first physical line, from 1.
    pub line: u32,
    pub system: u32,
    pub name: Text,
    pub items: Seq<SrcItem>,
}

/// The kind of a statement: a rule, or what a group does after a match or if no rule matches.
#[derive(Clone, Copy, Debug, PartialEq, Eq)]
pub enum RuleKind {
    Plain,
    OnMatch,
    OnNoMatch,
}

/// A rule, match or nomatch statement, with the number of its first physical line, from 1.
#[derive(Drop)]
pub struct RuleDef {
    pub line: u32,
    pub kind: RuleKind,
    pub context: Seq<SrcItem>,
    /// `None` in a match or nomatch statement, and in a group without keys.
    pub key: Option<SrcItem>,
    pub output: Seq<SrcItem>,
}

/// A group statement with the rules that follow it.
#[derive(Drop)]
pub struct GroupDef {
    /// The number of its first physical line, from 1.
    pub line: u32,
    pub name: Text,
    pub using_keys: bool,
    pub rules: Seq<RuleDef>,
}

/// A begin statement, of the kind `Unicode` or `ANSI`.
#[derive(Drop)]
pub struct BeginDef {
    /// The number of its first physical line, from 1.
    pub line: u32,
    pub unicode: bool,
    /// The name of the start group.
    pub group: Text,
}

/// The statements of a source.
#[derive(Drop)]
pub struct Program {
    pub stores: Seq<StoreDef>,
    pub begins: Seq<BeginDef>,
    pub groups: Seq<GroupDef>,
}
