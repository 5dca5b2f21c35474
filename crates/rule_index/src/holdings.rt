//! An inverted index of the stores: for each item the stores that contain it, each with the first position of the item.
//!
//! The elements of each store are sorted by item and then by position, and the first row of each item is kept. All these rows
//! are then sorted by item and then by store. So the rows of an item are an interval in the order of the stores, with at most
//! one row for each store, and a binary search finds an interval or a row. For n elements in all stores, building costs
//! O(n log n) time and eight bytes for each distinct item of a store, and a search costs O(log n).

ghost use Rattle.std.specs.Prelude.{◌≡◌, ◌<◌, ◌≤◌, ◌+◌, ◌*◌, All, List, IfOk, OnOk, length, map, nat_lt, slice_get};
ghost use Rattle.std.specs.List.{slice_range};
ghost use Rattle.std.specs.List.Sorted.{IsNonDecreasingBy};
ghost use Rattle.kmn_base.specs.declared.items.Element.{Element};
ghost use Rattle.kmn_base.specs.declared.limits.TheConstants.{STORES, STORE_ELEMENTS};
ghost use Rattle.rule_model.specs.Match.{place_of};
ghost use Rattle.rule_index.specs.Elements.{element_number};
ghost use Rattle.rule_index.specs.Holdings.{holding_start, holding_rank, content_at, AreGathered, AreHoldings, AreHoldersOf, EndsAt, place_if};
ghost use Rattle.rule_index.specs.Rows.{IsIndexOf};

use crate::elements::{element_numbers, item_number};
use crate::holding::Holding;
use crate::row::Row;
use crate::rows::rows_of;
use kmn_base::{Element, Item, Memory, Seq};
use std::alloc::Global;
use std::marker::Model;

/// The stores that contain each item, sorted by item and then by store. Contracts model it as its rows.
#[derive(Drop)]
pub struct Holdings {
    rows: Vec<Holding>,
}

impl Model for Holdings {
    ghost use Rattle.std.specs.Prelude.{List};
    ghost use Rattle.rule_index.specs.declared.holding.Holding.{Holding};

    ghost Value = { List Holding };

    ghost view = { λ holdings. holdings.rows.items };
}

/// Returns the lowest rank that a row of an item and a store can have.
fn start_of(item: u32, store: u16) -> u64
    ensures { result ≡ holding_start item store }
{
    (u64::from(item) * 65_536 + u64::from(store)) * 65_536
}

/// Returns the rank of a row.
fn rank(row: &Holding) -> u64
    ensures { result ≡ holding_rank row.now }
{
    start_of(row.item, row.store) + u64::from(row.place)
}

/// Appends a row for each item of a store: the first of each class in `places`, the sorted rows of the store's elements. The class 0 of
/// virtual keys is not the class of an item.
fn put_firsts(rows: &mut Vec<Holding>, places: &[Row], store: u16) -> Result<(), Memory>
    requires classes { All (λ row. row.class < 4194304) places.now }
    requires numbers { All (λ row. row.number < 65536) places.now }
    ensures { OnOk result ((stores : List (List Element)) → IsIndexOf (map element_number (content_at stores store)) places.now
        → AreGathered stores rows.old.items store → AreGathered stores rows.new.items (store + 1)) }
{
    let mut last = 0;
    for row in places {
        let class = row.class.number();
        if class != last {
            rows.push(Holding {
                item: class as u32,
                store,
                place: row.number as u16,
            })?;
            last = class;
        }
    }
    Ok(())
}

/// Appends a row for each item of a store.
fn put_store(
    alloc: Global,
    rows: &mut Vec<Holding>,
    elements: &[Element],
    store: u16,
) -> Result<(), Memory>
    requires { length elements.now ≤ STORE_ELEMENTS }
    ensures { OnOk result ((stores : List (List Element)) → content_at stores store ≡ elements.now
        → AreGathered stores rows.old.items store → AreGathered stores rows.new.items (store + 1)) }
{
    let numbers = element_numbers(alloc, elements)?;
    let places = rows_of(alloc, numbers.as_slice())?;
    put_firsts(rows, places.as_slice(), store)
}

/// Returns the rows of all stores, store by store.
fn gathered(alloc: Global, stores: &[Seq<Element>]) -> Result<Vec<Holding>, Memory>
    requires count { length stores.now ≤ STORES + 2 }
    requires few { All (λ elements. length elements ≤ STORE_ELEMENTS) stores.now }
    ensures { IfOk result (λ rows. AreGathered stores.now rows.items (length stores.now)) }
{
    let mut rows = Vec::new(alloc);
    for store in 0..stores.len() {
        put_store(alloc, &mut rows, stores[store].as_slice(), store as u16)?;
    }
    Ok(rows)
}

/// Returns the index of the first row whose rank is at least `start`.
fn place_from(rows: &[Holding], start: u64) -> usize
    requires { IsNonDecreasingBy holding_rank rows.now }
    ensures { EndsAt start rows.now result }
{
    rows.partition_point(
        |row: &Holding| -> bool
            ensures { result ≡ nat_lt (holding_rank row.now) start }
        { rank(row) < start },
    )
}

/// Returns the position in the row at an index, if the row is of this item and this store.
fn place_if(rows: &[Holding], place: usize, item: u32, store: u16) -> Option<usize>
    ensures { result ≡ place_if item store (slice_get rows.now place) }
{
    match rows.get(place) {
        Some(row) if row.item == item && row.store == store => Some(usize::from(row.place)),
        _ => None,
    }
}

/// Returns the rows from one index to another.
fn between(rows: &[Holding], from: usize, to: usize) -> &[Holding]
    requires order { from ≤ to }
    requires within { to ≤ length rows.now }
    ensures { result.now ≡ slice_range rows.now from to }
{
    &rows[from..to]
}

impl Holdings {
    /// Creates the rows of these stores.
    pub fn of(alloc: Global, stores: &[Seq<Element>]) -> Result<Holdings, Memory>
        requires count { length stores.now ≤ STORES + 2 }
        requires few { All (λ elements. length elements ≤ STORE_ELEMENTS) stores.now }
        ensures { IfOk result (λ holdings. AreHoldings stores.now holdings) }
    {
        let mut rows = gathered(alloc, stores)?;
        rows.sort_unstable_by_key(
            |row: &Holding| -> u64
                ensures { result ≡ holding_rank row.now }
            { rank(row) },
        );
        Ok(Holdings { rows })
    }

    /// Returns the first position of an item in a store.
    pub fn place_of(&self, store: u16, item: Item) -> Option<usize>
        requires { IsNonDecreasingBy holding_rank self.now }
        ensures { (stores : List (List Element)) → AreHoldings stores self.now → result ≡ place_of item (content_at stores store) }
    {
        let rows = self.rows.as_slice();
        let item = item_number(item);
        let place = place_from(rows, start_of(item, store));
        place_if(rows, place, item, store)
    }

    /// Returns the stores that contain an item, in their order, each with the first position of the item in it.
    pub fn holders(&self, item: Item) -> &[Holding]
        requires { IsNonDecreasingBy holding_rank self.now }
        ensures { (stores : List (List Element)) → AreHoldings stores self.now → AreHoldersOf item (content_at stores) result.now }
    {
        let rows = self.rows.as_slice();
        let item = item_number(item);
        let from = place_from(rows, start_of(item, 0));
        let to = place_from(rows, start_of(item + 1, 0));
        between(rows, from, to)
    }
}
