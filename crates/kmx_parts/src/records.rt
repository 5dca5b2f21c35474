//! The key records of a file.

ghost use Rattle.std.specs.Prelude.{◌≡◌, ◌<◌, ◌≤◌, ◌^◌, length, map};
ghost use Rattle.kmn_base.specs.declared.limits.TheConstants.{FILE_BYTES};
ghost use Rattle.kmx_format.specs.TablesOf.{key_of, rule_at};
ghost use Rattle.kmx_parts.specs.ContextItems.{pattern_of};

use crate::walks::{ContextItems, Outputs, Patterns};
use kmn_base::RuleKey;
use kmx_format::places::{RULE_CONTEXT_AT, RULE_FLAGS_AT, RULE_LINE_AT, RULE_OUTPUT_AT};
use kmx_view::{half_at, word_at};
use std::marker::Model;

/// A key record of a file, read in place.
#[derive(Drop)]
pub struct FileRule<'a> {
    bytes: &'a [u8],
    using_keys: bool,
    place: usize,
}

impl<'a> Model for FileRule<'a> {
    ghost use Rattle.std.specs.Prelude.{◌<◌, ◌≤◌, ◌^◌, length};
    ghost use Rattle.kmn_base.specs.declared.limits.TheConstants.{FILE_BYTES};
    ghost use Rattle.rule_model.specs.declared.tables.Rule.{Rule};
    ghost use Rattle.kmx_format.specs.TablesOf.{rule_at};

    ghost Value = { Rule };

    ghost view = { λ rule. rule_at rule.bytes.now rule.using_keys rule.place };

    ghost invariant = { λ rule. (length rule.bytes.now ≤ FILE_BYTES) × (rule.place < 2 ^ 62) };
}

fn key_of(using_keys: bool, code: u16, flags: u32) -> RuleKey
    ensures { result ≡ key_of using_keys code flags }
{
    if !using_keys {
        RuleKey::Any
    } else if flags == 0 {
        RuleKey::Char(code)
    } else {
        RuleKey::Virtual { flags, code }
    }
}

impl<'a> FileRule<'a> {
    /// Returns the key record at a position, of a group that uses keys or does not.
    pub(crate) fn at(bytes: &'a [u8], using_keys: bool, place: usize) -> FileRule<'a>
        requires fits { length bytes.now ≤ FILE_BYTES }
        requires place { place < 2 ^ 62 }
        ensures { result ≡ rule_at bytes.now using_keys place }
    {
        FileRule {
            bytes,
            using_keys,
            place,
        }
    }

    /// Returns the key.
    pub fn key(&self) -> RuleKey
        ensures { result ≡ self.now.key }
    {
        let code = half_at(self.bytes, self.place);
        key_of(
            self.using_keys,
            code,
            word_at(self.bytes, self.place + RULE_FLAGS_AT),
        )
    }

    /// Returns the line of the source, or 0 if the file has none.
    pub fn line(&self) -> u32
        ensures { result ≡ self.now.line }
    {
        word_at(self.bytes, self.place + RULE_LINE_AT)
    }

    /// Returns the position that distinguishes records of one line: 0, since a file does not contain it.
    pub fn source_place(&self) -> u32
        ensures { result ≡ self.now.place }
    {
        // A proof knows which record this is only if a field of it is used.
        let _ = &self.place;
        0
    }

    /// Iterates over the context.
    pub fn context(&self) -> Patterns<'a>
        ensures value { result ≡ self.now.context }
        ensures few { length result ≤ FILE_BYTES }
    {
        Patterns::at(
            self.bytes,
            word_at(self.bytes, self.place + RULE_CONTEXT_AT),
        )
    }

    /// Iterates over the context with the numbers of the file.
    #[tactic(auto, using(crate::proofs::ContextItems::patterns_of_items))]
    pub fn context_items(&self) -> ContextItems<'a>
        ensures { map pattern_of result ≡ self.now.context }
    {
        ContextItems::at(
            self.bytes,
            word_at(self.bytes, self.place + RULE_CONTEXT_AT),
        )
    }

    /// Iterates over the output.
    pub fn output(&self) -> Outputs<'a>
        ensures value { result ≡ self.now.output }
        ensures few { length result ≤ FILE_BYTES }
    {
        Outputs::at(self.bytes, word_at(self.bytes, self.place + RULE_OUTPUT_AT))
    }
}
