//! The groups of a file.

ghost use Rattle.std.specs.Prelude.{◌≡◌, ◌<◌, ◌≤◌, ◌^◌, length, slice_get, IfOk};
ghost use Rattle.kmn_base.specs.declared.limits.TheConstants.{FILE_BYTES};
ghost use Rattle.kmx_format.specs.TablesOf.{group_at};

use crate::lists::Rules;
use crate::names::name_at;
use crate::records::FileRule;
use crate::walks::Outputs;
use kmn_base::{Memory, Text};
use kmx_format::places::{
    GROUP_MATCH_AT, GROUP_NOMATCH_AT, GROUP_RULE_COUNT_AT, GROUP_RULES_AT, GROUP_USING_KEYS_AT,
};
use kmx_format::sizes::RULE_BYTES;
use kmx_view::word_at;
use std::alloc::Global;
use std::marker::Model;

/// A group of a file, read in place from its record.
#[derive(Drop)]
pub struct FileGroup<'a> {
    bytes: &'a [u8],
    place: usize,
}

impl<'a> Model for FileGroup<'a> {
    ghost use Rattle.std.specs.Prelude.{◌<◌, ◌≤◌, ◌^◌, length};
    ghost use Rattle.kmn_base.specs.declared.limits.TheConstants.{FILE_BYTES};
    ghost use Rattle.rule_model.specs.declared.tables.Group.{Group};
    ghost use Rattle.kmx_format.specs.TablesOf.{group_at};

    ghost Value = { Group };

    ghost view = { λ group. group_at group.bytes.now group.place };

    ghost invariant = { λ group. (length group.bytes.now ≤ FILE_BYTES) × (group.place < 2 ^ 62) };
}

impl<'a> FileGroup<'a> {
    /// Returns the group whose record is at a position.
    pub(crate) fn at(bytes: &'a [u8], place: usize) -> FileGroup<'a>
        requires fits { length bytes.now ≤ FILE_BYTES }
        requires place { place < 2 ^ 62 }
        ensures { result ≡ group_at bytes.now place }
    {
        FileGroup { bytes, place }
    }

    /// Returns the name, in UTF-8. Errors: `Memory` if an allocation fails.
    pub fn name(&self, alloc: Global) -> Result<Text, Memory>
        ensures { IfOk result (λ name. name ≡ self.now.name) }
    {
        name_at(alloc, self.bytes, word_at(self.bytes, self.place))
    }

    /// Returns whether its rules have keys.
    pub fn using_keys(&self) -> bool
        ensures { result ≡ self.now.using_keys }
    {
        word_at(self.bytes, self.place + GROUP_USING_KEYS_AT) != 0
    }

    /// Returns the number of its key records.
    #[tactic(auto, using(crate::proofs::Reading::rule_count))]
    pub fn rule_count(&self) -> u32
        ensures { result ≡ length self.now.rules }
    {
        word_at(self.bytes, self.place + GROUP_RULE_COUNT_AT)
    }

    /// Iterates over the key records in order.
    pub fn rules(&self) -> Rules<'a>
        ensures { result ≡ self.now.rules }
    {
        let using_keys = self.using_keys();
        let place = word_at(self.bytes, self.place + GROUP_RULES_AT);
        Rules::at(
            self.bytes,
            using_keys,
            place,
            word_at(self.bytes, self.place + GROUP_RULE_COUNT_AT),
        )
    }

    /// Returns the key record with a number, from 0.
    #[tactic(auto, using(crate::proofs::Reading::rule_there, crate::proofs::Reading::rule_past))]
    pub fn rule(&self, i: u32) -> Option<FileRule<'a>>
        ensures { result ≡ slice_get self.now.rules i }
    {
        if i >= word_at(self.bytes, self.place + GROUP_RULE_COUNT_AT) {
            return None;
        }
        let using_keys = self.using_keys();
        let place = word_at(self.bytes, self.place + GROUP_RULES_AT) as usize
            + RULE_BYTES * i as usize;
        Some(FileRule::at(self.bytes, using_keys, place))
    }

    /// Iterates over the output after a rule matched, which is empty if there is none.
    pub fn on_match(&self) -> Outputs<'a>
        ensures value { result ≡ self.now.on_match }
        ensures few { length result ≤ FILE_BYTES }
    {
        Outputs::at(self.bytes, word_at(self.bytes, self.place + GROUP_MATCH_AT))
    }

    /// Iterates over the output if no rule matched, which is empty if there is none.
    pub fn on_nomatch(&self) -> Outputs<'a>
        ensures value { result ≡ self.now.on_nomatch }
        ensures few { length result ≤ FILE_BYTES }
    {
        Outputs::at(
            self.bytes,
            word_at(self.bytes, self.place + GROUP_NOMATCH_AT),
        )
    }
}
