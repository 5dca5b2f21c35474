//! A view of a file's bytes that finds records by number and strings by offset. Each call checks the bounds, so the file can be
//! any bytes.

ghost use Rattle.std.specs.Prelude.{◌≡◌, ◌≤◌, length, MatchOption, true, false};
ghost use Rattle.kmn_base.specs.Spelling.{unit_bytes};
ghost use Rattle.kmn_base.specs.declared.limits.TheConstants.{FILE_BYTES};
ghost use Rattle.kmx_format.specs.TablesOf.{string_at};
ghost use Rattle.kmx_view.specs.View.{is_ended, word_in, store_in, group_in, rule_in};

use crate::numbers::word_at;
use crate::parts::{GroupRef, RuleRef, StoreRef};
use crate::strings::ended_string;
use kmx_format::places::{GROUP_COUNT_AT, GROUPS_AT, STORE_COUNT_AT, STORES_AT};
use kmx_format::sizes::{GROUP_BYTES, RULE_BYTES, STORE_BYTES};

/// A file's bytes, whose parts are read in place.
#[derive(Clone, Copy)]
pub struct KmxView<'a> {
    pub bytes: &'a [u8],
}

impl<'a> KmxView<'a> {
    /// Creates a view of bytes.
    pub fn of(bytes: &'a [u8]) -> KmxView<'a>
        requires { length bytes.now ≤ FILE_BYTES }
        ensures { result.bytes.now ≡ bytes.now }
    {
        KmxView { bytes }
    }

    /// Returns the number in the four bytes at a position.
    pub fn word(&self, at: u32) -> Option<u32>
        ensures { result ≡ word_in self.now.bytes.now at }
    {
        let at = at as usize;
        if at + 4 <= self.bytes.len() {
            Some(word_at(self.bytes, at))
        } else {
            None
        }
    }

    /// Returns the record of the store with a number, from 0.
    pub fn store(&self, i: u32) -> Option<StoreRef>
        ensures { result ≡ store_in self.now.bytes.now i }
    {
        if i >= word_at(self.bytes, STORE_COUNT_AT) {
            return None;
        }
        let place = word_at(self.bytes, STORES_AT) as usize + STORE_BYTES * i as usize;
        if place + STORE_BYTES > self.bytes.len() {
            return None;
        }
        Some(StoreRef::at(self.bytes, place))
    }

    /// Returns the record of the group with a number, from 0.
    pub fn group(&self, i: u32) -> Option<GroupRef>
        ensures { result ≡ group_in self.now.bytes.now i }
    {
        if i >= word_at(self.bytes, GROUP_COUNT_AT) {
            return None;
        }
        let place = word_at(self.bytes, GROUPS_AT) as usize + GROUP_BYTES * i as usize;
        if place + GROUP_BYTES > self.bytes.len() {
            return None;
        }
        Some(GroupRef::at(self.bytes, place))
    }

    /// Returns the key record with a number in a group, both from 0.
    pub fn rule(&self, group: u32, i: u32) -> Option<RuleRef>
        ensures { result ≡ rule_in self.now.bytes.now group i }
    {
        let group = self.group(group)?;
        if i >= group.count {
            return None;
        }
        let place = group.keys as usize + RULE_BYTES * i as usize;
        if place + RULE_BYTES > self.bytes.len() {
            return None;
        }
        Some(RuleRef::at(self.bytes, place))
    }

    /// Returns the bytes of the string at an offset, without its zero unit. Offset 0 is the empty string.
    pub fn string(&self, offset: u32) -> Option<&'a [u8]>
        ensures { MatchOption result
            (is_ended self.now.bytes.now offset ≡ false)
            (λ string. (is_ended self.now.bytes.now offset ≡ true) × (string.now ≡ unit_bytes (string_at self.now.bytes.now offset))) }
    {
        ended_string(self.bytes, offset)
    }
}
