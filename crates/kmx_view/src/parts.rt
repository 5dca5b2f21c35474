//! The records of a file, with their offsets as in the file.

ghost use Rattle.std.specs.Prelude.{◌≡◌, ◌<◌, ◌^◌};
ghost use Rattle.kmx_view.specs.View.{store_ref, group_ref, rule_ref};

use crate::numbers::{half_at, word_at};
use kmx_format::places::{
    GROUP_MATCH_AT, GROUP_NOMATCH_AT, GROUP_RULE_COUNT_AT, GROUP_RULES_AT, GROUP_USING_KEYS_AT,
    RULE_CONTEXT_AT, RULE_FLAGS_AT, RULE_LINE_AT, RULE_OUTPUT_AT, STORE_ELEMENTS_AT, STORE_NAME_AT,
};

/// The record of a store: its system id, and the offsets of its name and its elements, in bytes from the start of the file.
#[derive(Clone, Copy, PartialEq, Eq)]
pub struct StoreRef {
    /// 0 for an ordinary store.
    pub system: u32,
    pub name: u32,
    pub string: u32,
}

/// The record of a group: the byte offsets of its name, its match output and its nomatch output, the byte offset and the count
/// of its key records, and 0 for a group without keys. At offset 0 is the empty string: the group then has no such output.
#[derive(Clone, Copy, PartialEq, Eq)]
pub struct GroupRef {
    pub name: u32,
    /// The byte offset of the first key record. Ignored if `count` is 0.
    pub keys: u32,
    pub on_match: u32,
    pub on_nomatch: u32,
    pub count: u32,
    pub using_keys: u32,
}

/// A key record: its key, its source line, its shift flags, and the byte offsets of its output and its context.
#[derive(Clone, Copy, PartialEq, Eq)]
pub struct RuleRef {
    /// A UTF-16 unit if `flags` is 0, otherwise the code of a virtual key. Ignored in a group without keys.
    pub key: u16,
    pub line: u32,
    pub flags: u32,
    pub output: u32,
    pub context: u32,
}

impl StoreRef {
    /// Reads the record of a store at a position.
    pub(crate) fn at(bytes: &[u8], place: usize) -> StoreRef
        requires { place < 2 ^ 62 }
        ensures { result ≡ store_ref bytes.now place }
    {
        StoreRef {
            system: word_at(bytes, place),
            name: word_at(bytes, place + STORE_NAME_AT),
            string: word_at(bytes, place + STORE_ELEMENTS_AT),
        }
    }
}

impl GroupRef {
    /// Reads the record of a group at a position.
    pub(crate) fn at(bytes: &[u8], place: usize) -> GroupRef
        requires { place < 2 ^ 62 }
        ensures { result ≡ group_ref bytes.now place }
    {
        GroupRef {
            name: word_at(bytes, place),
            keys: word_at(bytes, place + GROUP_RULES_AT),
            on_match: word_at(bytes, place + GROUP_MATCH_AT),
            on_nomatch: word_at(bytes, place + GROUP_NOMATCH_AT),
            count: word_at(bytes, place + GROUP_RULE_COUNT_AT),
            using_keys: word_at(bytes, place + GROUP_USING_KEYS_AT),
        }
    }
}

impl RuleRef {
    /// Reads the key record at a position.
    pub(crate) fn at(bytes: &[u8], place: usize) -> RuleRef
        requires { place < 2 ^ 62 }
        ensures { result ≡ rule_ref bytes.now place }
    {
        RuleRef {
            key: half_at(bytes, place),
            line: word_at(bytes, place + RULE_LINE_AT),
            flags: word_at(bytes, place + RULE_FLAGS_AT),
            output: word_at(bytes, place + RULE_OUTPUT_AT),
            context: word_at(bytes, place + RULE_CONTEXT_AT),
        }
    }
}
