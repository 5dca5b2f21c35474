//! The items of each store as a hash set, so that a lookup does not compare with each element.

ghost use Rattle.std.specs.Prelude.{◌≡◌, List, is_some, map, nat_eq, IfOk, OnOk};
ghost use Rattle.std.specs.List.{list_any};
ghost use Rattle.rule_model.specs.declared.tables.Store.{Store};
ghost use Rattle.rule_model.specs.Match.{item_of, place_of};
ghost use Rattle.rule_model.specs.Tab.{elements_of};
ghost use Rattle.indexed_tables.specs.Numbers.{with_item, HasItems, AreSetsOf, set_at};

use crate::numbers::number_of;
use indexmap::IndexSet;
use kmn_base::{Element, Item, Memory};
use rule_model::{Store, item_of};
use std::alloc::Global;
use std::marker::Model;

/// The items of each of some stores, in sets. Contracts model it as the numbers in the sets.
#[derive(Drop)]
pub struct StoreSets {
    sets: Vec<IndexSet<u32>>,
}

impl Model for StoreSets {
    ghost use Rattle.std.specs.Prelude.{List, ℕ, map};

    ghost Value = { List (List ℕ) };

    ghost view = { λ s. map (λ set. set.keys) s.sets.items };
}

/// Adds the number of the item that an element denotes. Errors: `Memory` if an allocation fails.
fn add_item(set: &mut IndexSet<u32>, element: Element) -> Result<(), Memory>
    ensures { OnOk result (set.new.keys ≡ with_item set.old.keys (item_of element)) }
{
    if let Some(item) = item_of(element) {
        set.insert(number_of(item))?;
    }
    Ok(())
}

/// Returns the set of the items that elements denote. Errors: `Memory` if an allocation fails.
fn set_of(alloc: Global, elements: &[Element]) -> Result<IndexSet<u32>, Memory>
    ensures { IfOk result (λ set. HasItems set.keys elements.now) }
{
    let mut set = IndexSet::new(alloc);
    for element in elements {
        add_item(&mut set, *element)?;
    }
    Ok(set)
}

/// Returns the items of each store. Errors: `Memory` if an allocation fails.
fn sets_of(alloc: Global, stores: &[Store]) -> Result<Vec<IndexSet<u32>>, Memory>
    ensures { IfOk result (λ sets. AreSetsOf stores.now (map (λ set. set.keys) sets.items)) }
{
    let mut sets = Vec::new(alloc);
    for store in stores {
        let set = set_of(alloc, store.elements.as_slice())?;
        sets.push(set)?;
    }
    Ok(sets)
}

/// Returns whether the set of a store contains a number.
fn has_number(sets: &[IndexSet<u32>], store: u32, number: u32) -> bool
    ensures { result ≡ list_any (nat_eq number) (set_at (map (λ set. set.keys) sets.now) store) }
{
    match sets.get(store as usize) {
        Some(set) => set.contains(&number),
        None => false,
    }
}

impl StoreSets {
    /// Creates a set with the items of each store. Errors: `Memory` if an allocation fails.
    pub fn new(alloc: Global, stores: &[Store]) -> Result<StoreSets, Memory>
        ensures { IfOk result (AreSetsOf stores.now) }
    {
        let sets = sets_of(alloc, stores)?;
        Ok(StoreSets { sets })
    }

    /// Returns whether a store contains an item. A store that doesn't exist contains none.
    pub fn has(&self, store: u32, item: Item) -> bool
        ensures { (stores : List Store) → AreSetsOf stores self.now → result ≡ is_some (place_of item (elements_of stores store)) }
    {
        has_number(self.sets.as_slice(), store, number_of(item))
    }
}
