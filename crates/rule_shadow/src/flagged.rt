//! Tables with a flag for each store that is an option and, if allocating is allowed, a set of the items of each store.

ghost use Rattle.std.specs.Prelude.{◌≡◌, option_copied, slice_get, is_some, IfSome};
ghost use Rattle.rule_model.specs.Match.{place_of};
ghost use Rattle.rule_model.specs.Tab.{elements_of};
ghost use Rattle.indexed_tables.specs.Numbers.{AreSetsOf};
ghost use Rattle.rule_shadow.specs.Flags.{AreOptionFlags};
ghost use Rattle.rule_shadow.specs.Places.{is_fixed};

use indexed_tables::{StoreSets, flag_at, is_among};
use kmn_base::{Element, Item};
use rule_model::{Group, Tables};
use std::marker::Model;

/// Tables with flags that mark which stores are options, and with sets of the items of the stores, which are `None` if
/// allocating is not allowed. Contracts see the tables.
#[derive(Drop)]
pub struct FlaggedTables<'a> {
    tables: &'a Tables,
    flags: &'a [bool],
    sets: Option<&'a StoreSets>,
}

impl<'a> Model for FlaggedTables<'a> {
    ghost use Rattle.std.specs.Prelude.{IfSome};
    ghost use Rattle.rule_model.specs.declared.tables.Tables.{Tables};
    ghost use Rattle.indexed_tables.specs.Numbers.{AreSetsOf};
    ghost use Rattle.rule_shadow.specs.Flags.{AreOptionFlags};

    ghost Value = { Tables };

    ghost view = { λ flagged. flagged.tables.now };

    ghost invariant = { λ flagged.
        AreOptionFlags flagged.tables.now flagged.flags.now
        × IfSome flagged.sets (λ sets. AreSetsOf flagged.tables.now.stores sets.now) };
}

impl<'a> FlaggedTables<'a> {
    /// Creates tables with their flags and the sets of their stores.
    pub(crate) fn new(
        tables: &'a Tables,
        flags: &'a [bool],
        sets: &'a StoreSets,
    ) -> FlaggedTables<'a>
        requires flags { AreOptionFlags tables.now flags.now }
        requires sets { AreSetsOf tables.now.stores sets.now }
        ensures { result ≡ tables.now }
    {
        FlaggedTables {
            tables,
            flags,
            sets: Some(sets),
        }
    }

    /// Creates tables with only their flags.
    pub(crate) fn without_sets(tables: &'a Tables, flags: &'a [bool]) -> FlaggedTables<'a>
        requires { AreOptionFlags tables.now flags.now }
        ensures { result ≡ tables.now }
    {
        FlaggedTables {
            tables,
            flags,
            sets: None,
        }
    }

    /// Returns the elements of a store, or an empty slice if there is no such store.
    pub(crate) fn elements(&self, store: u32) -> &[Element]
        ensures { result.now ≡ elements_of self.now.stores store }
    {
        self.tables.elements(store)
    }

    /// Returns whether a store has an item. Reads the set of the store, or compares element by element if there are no sets.
    pub(crate) fn has_item(&self, store: u32, item: Item) -> bool
        ensures { result ≡ is_some (place_of item (elements_of self.now.stores store)) }
    {
        match self.sets {
            Some(sets) => sets.has(store, item),
            None => is_among(item, self.elements(store)),
        }
    }

    /// Returns whether a store is not an option. The numbers after the stores of the tables are the two system options.
    #[tactic(auto, using(crate::proofs::Flags::fixed_behind))]
    pub(crate) fn is_fixed(&self, store: u32) -> bool
        ensures { result ≡ is_fixed self.now store }
    {
        let count = self.tables.stores.len();
        let store = store as usize;
        if store < count {
            !flag_at(self.flags, store)
        } else {
            store - count >= 2
        }
    }

    /// Returns the group with this number.
    pub(crate) fn group(&self, group: u32) -> Option<&'a Group>
        ensures { option_copied result ≡ slice_get self.now.groups group }
    {
        self.tables.groups.as_slice().get(group as usize)
    }
}
