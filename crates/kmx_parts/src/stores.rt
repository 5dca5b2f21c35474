//! The stores of a file.

ghost use Rattle.std.specs.Prelude.{◌≡◌, ◌<◌, ◌≤◌, ◌^◌, length, IfOk};
ghost use Rattle.kmn_base.specs.declared.limits.TheConstants.{FILE_BYTES};
ghost use Rattle.kmx_format.specs.TablesOf.{store_at};

use crate::names::name_at;
use crate::walks::Elements;
use kmn_base::{Memory, Text};
use kmx_format::places::{STORE_ELEMENTS_AT, STORE_NAME_AT};
use kmx_view::word_at;
use std::alloc::Global;
use std::marker::Model;

/// A store of a file, read in place from its record.
#[derive(Drop)]
pub struct FileStore<'a> {
    bytes: &'a [u8],
    place: usize,
}

impl<'a> Model for FileStore<'a> {
    ghost use Rattle.std.specs.Prelude.{◌<◌, ◌≤◌, ◌^◌, length};
    ghost use Rattle.kmn_base.specs.declared.limits.TheConstants.{FILE_BYTES};
    ghost use Rattle.rule_model.specs.declared.tables.Store.{Store};
    ghost use Rattle.kmx_format.specs.TablesOf.{store_at};

    ghost Value = { Store };

    ghost view = { λ store. store_at store.bytes.now store.place };

    ghost invariant = { λ store. (length store.bytes.now ≤ FILE_BYTES) × (store.place < 2 ^ 62) };
}

impl<'a> FileStore<'a> {
    /// Returns the store whose record is at a position.
    pub(crate) fn at(bytes: &'a [u8], place: usize) -> FileStore<'a>
        requires fits { length bytes.now ≤ FILE_BYTES }
        requires place { place < 2 ^ 62 }
        ensures { result ≡ store_at bytes.now place }
    {
        FileStore { bytes, place }
    }

    /// Returns the system id, or 0 for an ordinary store.
    pub fn system(&self) -> u32
        ensures { result ≡ self.now.system }
    {
        word_at(self.bytes, self.place)
    }

    /// Returns the name, in UTF-8. Errors: `Memory` if an allocation fails.
    pub fn name(&self, alloc: Global) -> Result<Text, Memory>
        ensures { IfOk result (λ name. name ≡ self.now.name) }
    {
        name_at(
            alloc,
            self.bytes,
            word_at(self.bytes, self.place + STORE_NAME_AT),
        )
    }

    /// Iterates over the elements.
    pub fn elements(&self) -> Elements<'a>
        ensures value { result ≡ self.now.elements }
        ensures few { length result ≤ FILE_BYTES }
    {
        Elements::at(
            self.bytes,
            word_at(self.bytes, self.place + STORE_ELEMENTS_AT),
        )
    }
}
