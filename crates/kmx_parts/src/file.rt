//! The tables of a file as a whole.

ghost use Rattle.std.specs.Prelude.{◌≡◌, ◌≤◌, length, slice_get};
ghost use Rattle.kmn_base.specs.declared.limits.TheConstants.{FILE_BYTES};
ghost use Rattle.kmx_format.specs.TablesOf.{tables_of};

use crate::groups::FileGroup;
use crate::lists::{Groups, Stores};
use crate::stores::FileStore;
use kmx_format::places::{
    GROUP_COUNT_AT, GROUPS_AT, START_ANSI_AT, START_UNICODE_AT, STORE_COUNT_AT, STORES_AT,
    VERSION_AT,
};
use kmx_format::sizes::{GROUP_BYTES, STORE_BYTES};
use kmx_view::{half_at, word_at};
use std::marker::Model;

/// The tables of a file, read in place. Contracts model it as the tables of the bytes.
#[derive(Drop)]
pub struct FileTables<'a> {
    bytes: &'a [u8],
}

impl<'a> Model for FileTables<'a> {
    ghost use Rattle.std.specs.Prelude.{◌≤◌, length};
    ghost use Rattle.kmn_base.specs.declared.limits.TheConstants.{FILE_BYTES};
    ghost use Rattle.rule_model.specs.declared.tables.Tables.{Tables};
    ghost use Rattle.kmx_format.specs.TablesOf.{tables_of};

    ghost Value = { Tables };

    ghost view = { λ file. tables_of file.bytes.now };

    ghost invariant = { λ file. length file.bytes.now ≤ FILE_BYTES };
}

impl<'a> FileTables<'a> {
    /// Creates the tables of bytes.
    pub fn of(bytes: &'a [u8]) -> FileTables<'a>
        requires { length bytes.now ≤ FILE_BYTES }
        ensures { result ≡ tables_of bytes.now }
    {
        FileTables { bytes }
    }

    /// Returns a copy, which reads the same bytes.
    pub fn copy(&self) -> FileTables<'a>
        ensures { result ≡ self.now }
    {
        FileTables { bytes: self.bytes }
    }

    /// Returns the version of the file's format.
    #[tactic(auto, unfolding(kmx_format::specs::TablesOf::tables_of))]
    pub fn version(&self) -> u16
        ensures { result ≡ self.now.version }
    {
        half_at(self.bytes, VERSION_AT)
    }

    /// Returns the number of the group in which a press begins.
    #[tactic(auto, unfolding(kmx_format::specs::TablesOf::tables_of))]
    pub fn start_unicode(&self) -> u32
        ensures { result ≡ self.now.start_unicode }
    {
        word_at(self.bytes, START_UNICODE_AT)
    }

    /// Returns the number of the group in which a press begins on a system without Unicode, or `NO_GROUP`.
    #[tactic(auto, unfolding(kmx_format::specs::TablesOf::tables_of))]
    pub fn start_ansi(&self) -> u32
        ensures { result ≡ self.now.start_ansi }
    {
        word_at(self.bytes, START_ANSI_AT)
    }

    /// Returns the number of stores.
    #[tactic(auto, using(crate::proofs::Reading::store_count), unfolding(kmx_format::specs::TablesOf::tables_of))]
    pub fn store_count(&self) -> u32
        ensures { result ≡ length self.now.stores }
    {
        word_at(self.bytes, STORE_COUNT_AT)
    }

    /// Returns the number of groups.
    #[tactic(auto, using(crate::proofs::Reading::group_count), unfolding(kmx_format::specs::TablesOf::tables_of))]
    pub fn group_count(&self) -> u32
        ensures { result ≡ length self.now.groups }
    {
        word_at(self.bytes, GROUP_COUNT_AT)
    }

    /// Iterates over the stores in order.
    #[tactic(auto, unfolding(kmx_format::specs::TablesOf::tables_of))]
    pub fn stores(&self) -> Stores<'a>
        ensures { result ≡ self.now.stores }
    {
        Stores::at(
            self.bytes,
            word_at(self.bytes, STORES_AT),
            word_at(self.bytes, STORE_COUNT_AT),
        )
    }

    /// Iterates over the groups in order.
    #[tactic(auto, unfolding(kmx_format::specs::TablesOf::tables_of))]
    pub fn groups(&self) -> Groups<'a>
        ensures { result ≡ self.now.groups }
    {
        Groups::at(
            self.bytes,
            word_at(self.bytes, GROUPS_AT),
            word_at(self.bytes, GROUP_COUNT_AT),
        )
    }

    /// Returns the store with a number, from 0.
    #[tactic(auto, using(crate::proofs::Reading::store_there, crate::proofs::Reading::store_past), unfolding(kmx_format::specs::TablesOf::tables_of))]
    pub fn store(&self, i: u32) -> Option<FileStore<'a>>
        ensures { result ≡ slice_get self.now.stores i }
    {
        if i >= word_at(self.bytes, STORE_COUNT_AT) {
            return None;
        }
        let place = word_at(self.bytes, STORES_AT) as usize + STORE_BYTES * i as usize;
        Some(FileStore::at(self.bytes, place))
    }

    /// Returns the group with a number, from 0.
    #[tactic(auto, using(crate::proofs::Reading::group_there, crate::proofs::Reading::group_past), unfolding(kmx_format::specs::TablesOf::tables_of))]
    pub fn group(&self, i: u32) -> Option<FileGroup<'a>>
        ensures { result ≡ slice_get self.now.groups i }
    {
        if i >= word_at(self.bytes, GROUP_COUNT_AT) {
            return None;
        }
        let place = word_at(self.bytes, GROUPS_AT) as usize + GROUP_BYTES * i as usize;
        Some(FileGroup::at(self.bytes, place))
    }
}
