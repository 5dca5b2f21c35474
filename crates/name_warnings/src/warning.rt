//! What compiles but is probably a mistake.

use kmn_base::{Seq, Text};

/// What is probably a mistake in a line. Names are as in the source.
#[derive(Drop)]
pub enum WarningKind {
    /// W01: no statement uses an ordinary store. At the store.
    UnusedStore {
        store: Text,
    },
    /// W02: outputs put a deadkey that no context looks for. At the first statement that puts it.
    MarkNeverSought {
        mark: Text,
    },
    /// W03: a context looks for a deadkey by its name, and no output puts it. At the first rule that looks for it.
    MarkNeverPut {
        mark: Text,
    },
    /// W04: no key press enters a group. At the group.
    GroupNeverEntered {
        group: Text,
    },
    /// W05: `index` at an `any`, whose store has more elements than that of `index`. At the rule.
    ShorterIndex {
        index: Text,
        elements: usize,
        any: Text,
        any_elements: usize,
    },
    /// W06: an element of the store of `any` is there before, so that the element of the store of `index` at the same place is never put.
    /// The place counts from 1. At the store of `any`.
    RepeatedElement {
        place: usize,
        any: Text,
        index: Text,
    },
    /// W07: whenever a rule would hold, a rule of one of these lines is earlier and holds too. At the rule.
    NeverFirst {
        lines: Seq<u32>,
    },
    /// W07, a note: there are too many key records to look for rules that never take precedence. At line 1.
    NeverFirstNotSought {
        records: u64,
    },
    /// W08: outputs set an option that no statement asks for. At the first `set`.
    OptionNeverAsked {
        option: Text,
    },
    /// W09: the conditions of a rule are never true together. At the rule.
    ContradictoryConditions,
    /// W10, a note: a rule asks for an option that no statement sets. At its first `if`.
    OptionNeverSet {
        option: Text,
    },
    /// W11, a note: a rule asks for a value that an option never has: its store has another, and no statement sets it to this one. At the
    /// first `if` for the value.
    ValueNeverSet {
        option: Text,
        value: Seq<char>,
    },
    /// W12: an option is saved that no statement sets. At the first `save`.
    SavedNeverSet {
        option: Text,
    },
    /// W13: no key press produces the key of a rule. At the rule.
    KeyNeverPressed,
    /// W13: no key press produces some of the keys in a store. At the first rule whose key is the store.
    KeysNeverPressed {
        store: Text,
        count: usize,
        keys: usize,
    },
    /// W14: `any` or `index` names a store without characters and deadkeys. At the rule.
    PatternWithoutElements {
        store: Text,
    },
    /// W15, a note: a rule puts the character that its key produces without a rule. At the rule.
    KeyGivesTheSame,
    /// W16: a system store is stated again; the first statement counts. At the second.
    SecondSystemStore,
    /// W17: a touch layout lacks the custom key of a rule. At the first rule with the key.
    KeyNotLaid {
        key: Text,
    },
    /// W18, a note: the store of `index` has more elements than that of each `any` that it is used with. At its first `index`, whose `any`
    /// is named.
    LongerIndex {
        index: Text,
        any: Text,
    },
}

/// What is probably a mistake in a line, from 1.
#[derive(Drop)]
pub struct Warning {
    pub line: u32,
    pub kind: WarningKind,
}
