//! The records of a file, one after the other.

ghost use Rattle.std.specs.Prelude.{◌≡◌, ◌+◌, ◌*◌, ◌<◌, ◌≤◌, ◌^◌, length};
ghost use Rattle.kmn_base.specs.declared.limits.TheConstants.{FILE_BYTES};
ghost use Rattle.kmx_format.specs.TablesOf.{stores_from, groups_from, rules_from};

use crate::groups::FileGroup;
use crate::records::FileRule;
use crate::stores::FileStore;
use kmx_format::sizes::{GROUP_BYTES, RULE_BYTES, STORE_BYTES};
use std::marker::Model;

/// An iterator over the stores whose records follow one another from a position on. Contracts model it as the list of the
/// remaining stores.
#[derive(Drop)]
pub struct Stores<'a> {
    bytes: &'a [u8],
    place: usize,
    left: u32,
}

impl<'a> Model for Stores<'a> {
    ghost use Rattle.std.specs.Prelude.{◌+◌, ◌*◌, ◌<◌, ◌≤◌, ◌^◌, List, length};
    ghost use Rattle.kmn_base.specs.declared.limits.TheConstants.{FILE_BYTES};
    ghost use Rattle.rule_model.specs.declared.tables.Store.{Store};
    ghost use Rattle.kmx_format.specs.declared.sizes.TheConstants.{STORE_BYTES};
    ghost use Rattle.kmx_format.specs.TablesOf.{stores_from};

    ghost Value = { List Store };

    ghost view = { λ stores. stores_from stores.bytes.now stores.place stores.left };

    ghost invariant = { λ stores. (length stores.bytes.now ≤ FILE_BYTES) × (stores.place + STORE_BYTES * stores.left < 2 ^ 62) };
}

impl<'a> Stores<'a> {
    /// Iterates over `count` stores whose records follow one another from a position on.
    pub(crate) fn at(bytes: &'a [u8], place: u32, count: u32) -> Stores<'a>
        requires { length bytes.now ≤ FILE_BYTES }
        ensures { result ≡ stores_from bytes.now place count }
    {
        Stores {
            bytes,
            place: place as usize,
            left: count,
        }
    }
}

impl<'a> Iterator for Stores<'a> {
    ghost use Rattle.std.specs.Iterator.{YieldsFirst, item_count};

    type Item = FileStore<'a>;

    ghost next_gives = { YieldsFirst (λ stores. stores) };

    ghost remaining = { item_count (λ stores. stores) };

    #[tactic(auto, using(crate::proofs::Reading::stores_ended, crate::proofs::Reading::stores_more))]
    fn next(&mut self) -> Option<FileStore<'a>> {
        if self.left == 0 {
            return None;
        }
        let store = FileStore::at(self.bytes, self.place);
        self.place += STORE_BYTES;
        self.left -= 1;
        Some(store)
    }
}

/// An iterator over the groups whose records follow one another from a position on. Contracts model it as the list of the
/// remaining groups.
#[derive(Drop)]
pub struct Groups<'a> {
    bytes: &'a [u8],
    place: usize,
    left: u32,
}

impl<'a> Model for Groups<'a> {
    ghost use Rattle.std.specs.Prelude.{◌+◌, ◌*◌, ◌<◌, ◌≤◌, ◌^◌, List, length};
    ghost use Rattle.kmn_base.specs.declared.limits.TheConstants.{FILE_BYTES};
    ghost use Rattle.rule_model.specs.declared.tables.Group.{Group};
    ghost use Rattle.kmx_format.specs.declared.sizes.TheConstants.{GROUP_BYTES};
    ghost use Rattle.kmx_format.specs.TablesOf.{groups_from};

    ghost Value = { List Group };

    ghost view = { λ groups. groups_from groups.bytes.now groups.place groups.left };

    ghost invariant = { λ groups. (length groups.bytes.now ≤ FILE_BYTES) × (groups.place + GROUP_BYTES * groups.left < 2 ^ 62) };
}

impl<'a> Groups<'a> {
    /// Iterates over `count` groups whose records follow one another from a position on.
    pub(crate) fn at(bytes: &'a [u8], place: u32, count: u32) -> Groups<'a>
        requires { length bytes.now ≤ FILE_BYTES }
        ensures { result ≡ groups_from bytes.now place count }
    {
        Groups {
            bytes,
            place: place as usize,
            left: count,
        }
    }
}

impl<'a> Iterator for Groups<'a> {
    ghost use Rattle.std.specs.Iterator.{YieldsFirst, item_count};

    type Item = FileGroup<'a>;

    ghost next_gives = { YieldsFirst (λ groups. groups) };

    ghost remaining = { item_count (λ groups. groups) };

    #[tactic(auto, using(crate::proofs::Reading::groups_ended, crate::proofs::Reading::groups_more))]
    fn next(&mut self) -> Option<FileGroup<'a>> {
        if self.left == 0 {
            return None;
        }
        let group = FileGroup::at(self.bytes, self.place);
        self.place += GROUP_BYTES;
        self.left -= 1;
        Some(group)
    }
}

/// An iterator over the key records that follow one another from a position on. Contracts model it as the list of the remaining records.
#[derive(Drop)]
pub struct Rules<'a> {
    bytes: &'a [u8],
    using_keys: bool,
    place: usize,
    left: u32,
}

impl<'a> Model for Rules<'a> {
    ghost use Rattle.std.specs.Prelude.{◌+◌, ◌*◌, ◌<◌, ◌≤◌, ◌^◌, List, length};
    ghost use Rattle.kmn_base.specs.declared.limits.TheConstants.{FILE_BYTES};
    ghost use Rattle.rule_model.specs.declared.tables.Rule.{Rule};
    ghost use Rattle.kmx_format.specs.declared.sizes.TheConstants.{RULE_BYTES};
    ghost use Rattle.kmx_format.specs.TablesOf.{rules_from};

    ghost Value = { List Rule };

    ghost view = { λ rules. rules_from rules.bytes.now rules.using_keys rules.place rules.left };

    ghost invariant = { λ rules. (length rules.bytes.now ≤ FILE_BYTES) × (rules.place + RULE_BYTES * rules.left < 2 ^ 62) };
}

impl<'a> Rules<'a> {
    /// Iterates over `count` key records from a position on, of a group that uses keys or does not.
    pub(crate) fn at(bytes: &'a [u8], using_keys: bool, place: u32, count: u32) -> Rules<'a>
        requires { length bytes.now ≤ FILE_BYTES }
        ensures { result ≡ rules_from bytes.now using_keys place count }
    {
        Rules {
            bytes,
            using_keys,
            place: place as usize,
            left: count,
        }
    }
}

impl<'a> Iterator for Rules<'a> {
    ghost use Rattle.std.specs.Iterator.{YieldsFirst, item_count};

    type Item = FileRule<'a>;

    ghost next_gives = { YieldsFirst (λ rules. rules) };

    ghost remaining = { item_count (λ rules. rules) };

    #[tactic(auto, using(crate::proofs::Reading::rules_ended, crate::proofs::Reading::rules_more))]
    fn next(&mut self) -> Option<FileRule<'a>> {
        if self.left == 0 {
            return None;
        }
        let rule = FileRule::at(self.bytes, self.using_keys, self.place);
        self.place += RULE_BYTES;
        self.left -= 1;
        Some(rule)
    }
}
