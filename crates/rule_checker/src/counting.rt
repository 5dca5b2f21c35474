//! Counts the elements of stores, the items of outputs, and the records of a rule whose key is one of a store, without building
//! the elements.

ghost use Rattle.std.specs.Prelude.{◌≡◌, ◌&&◌, not, IfOk, OnOk, nat_lt};
ghost use Rattle.kmn_base.specs.declared.limits.TheConstants.{OUTPUT_ITEMS};
ghost use Rattle.virtual_keys.specs.Fits.{caps, has, no_caps};
ghost use Rattle.rule_checker.specs.Counting.{count_at, count_in, count_named, count_of, no_counts, output_count_of, records_named, records_of, total, virtual_count_of, with_store, with_stores};

use crate::key_codes::KeyCodes;
use kmn_base::keys::{CAPS, NO_CAPS};
use kmn_base::limits::OUTPUT_ITEMS;
use kmn_base::{Memory, Seq};
use rule_model::system::DROPPED;
use rule_model::{KeyName, SrcItem, StoreDef};
use std::alloc::Global;
use store_table::NameTable;

/// The codes of the cased keys, and for each store its name, its number of elements, and the number of records of a rule whose
/// key is one of the store. Counts saturate at the maximum of their type.
#[derive(Drop)]
pub struct StoreCounts {
    pub cased: KeyCodes,
    pub names: NameTable,
    /// The number of elements of each store, in the order of the names.
    pub counts: Seq<u32>,
    /// The number of records for each store as a key, in the order of the names.
    pub records: Seq<u32>,
}

/// The number of elements of a store, and the number of records of a rule whose key is one of the store.
#[derive(Drop)]
struct ElementCounts {
    elements: u32,
    records: u32,
}

/// Returns the number of records of a rule whose key is one of the store of a name.
pub(crate) fn records_named(counted: &StoreCounts, name: &[u8]) -> u32
    ensures { result ≡ records_named counted.now name.now }
{
    count_in(&counted.names, counted.records.as_slice(), name)
}

/// Returns the count at the position of a name, or 0 if the name has none.
fn count_in(names: &NameTable, counts: &[u32], name: &[u8]) -> u32
    ensures { result ≡ count_in names.now counts.now name.now }
{
    count_at(counts, names.place_of(name))
}

/// Returns the count at a position, or 0 if there is none.
fn count_at(counts: &[u32], place: Option<usize>) -> u32
    ensures { result ≡ count_at counts.now place }
{
    match place {
        Some(place) => match counts.get(place) {
            Some(count) => *count,
            None => 0,
        },
        None => 0,
    }
}

/// Returns the number of records of a rule with this key: two if the key exchanges shift and caps lock.
pub(crate) fn virtual_count(counted: &StoreCounts, key: &KeyName) -> u32
    ensures { result ≡ virtual_count_of counted.now key.now }
{
    if counted.cased.has(key.code) && leaves_caps(key.flags) {
        2
    } else {
        1
    }
}

/// Returns whether flags contain neither `CAPS` nor `NO_CAPS`.
fn leaves_caps(flags: u16) -> bool
    ensures { result ≡ (not (has flags caps) && not (has flags no_caps)) }
{
    flags & CAPS == 0 && flags & NO_CAPS == 0
}

/// Returns the number of elements that items add to a store.
pub(crate) fn store_count(counted: &StoreCounts, items: &[SrcItem]) -> u32
    ensures { result ≡ total (count_of counted.now) 0 items.now }
{
    let mut sum: u32 = 0;
    for item in items {
        sum = sum.saturating_add(count_of(counted, item));
    }
    sum
}

/// Returns the number of elements that an item adds to a store.
fn count_of(counted: &StoreCounts, item: &SrcItem) -> u32
    ensures { result ≡ count_of counted.now item.now }
{
    match item {
        SrcItem::Char(_) => 1,
        SrcItem::Dead(_) => 1,
        SrcItem::Key(_) => 1,
        SrcItem::Outs(name) => count_named(counted, name.as_slice()),
        _ => 0,
    }
}

/// Returns the number of elements of the store of a name.
fn count_named(counted: &StoreCounts, name: &[u8]) -> u32
    ensures { result ≡ count_named counted.now name.now }
{
    count_in(&counted.names, counted.counts.as_slice(), name)
}

/// Returns whether an output has too many items.
pub(crate) fn is_long_output(counted: &StoreCounts, items: &[SrcItem]) -> bool
    ensures { result ≡ nat_lt OUTPUT_ITEMS (total (output_count_of counted.now) 0 items.now) }
{
    (OUTPUT_ITEMS as u32) < output_count(counted, items)
}

/// Returns the number of items that an output expands to.
fn output_count(counted: &StoreCounts, items: &[SrcItem]) -> u32
    ensures { result ≡ total (output_count_of counted.now) 0 items.now }
{
    let mut sum: u32 = 0;
    for item in items {
        sum = sum.saturating_add(output_count_of(counted, item));
    }
    sum
}

/// Returns the number of items that an item of an output expands to.
fn output_count_of(counted: &StoreCounts, item: &SrcItem) -> u32
    ensures { result ≡ output_count_of counted.now item.now }
{
    match item {
        SrcItem::Outs(name) => count_named(counted, name.as_slice()),
        _ => 1,
    }
}

/// Returns the counts of each store with these cased keys.
pub(crate) fn count_stores(
    alloc: Global,
    cased: KeyCodes,
    stores: &[StoreDef],
) -> Result<StoreCounts, Memory>
    ensures { IfOk result (λ counted. counted ≡ with_stores (no_counts cased) stores.now) }
{
    let mut counted = StoreCounts {
        cased,
        names: NameTable::new(alloc),
        counts: Seq::new(alloc),
        records: Seq::new(alloc),
    };
    for store in stores {
        add_store(&mut counted, store)?;
    }
    Ok(counted)
}

/// Appends the counts of a store, unless its statement is dropped.
fn add_store(counted: &mut StoreCounts, store: &StoreDef) -> Result<(), Memory>
    ensures { OnOk result (counted.new ≡ with_store counted.old store.now) }
{
    if store.system == DROPPED {
        return Ok(());
    }
    let counts = store_counts(counted, store.items.as_slice());
    counted.names.push(store.name.as_slice())?;
    counted.counts.add(counts.elements)?;
    counted.records.add(counts.records)
}

/// Returns both counts of the items of a store.
fn store_counts(counted: &StoreCounts, items: &[SrcItem]) -> ElementCounts
    ensures elements { result.elements ≡ total (count_of counted.now) 0 items.now }
    ensures records { result.records ≡ total (records_of counted.now) 0 items.now }
{
    let mut elements: u32 = 0;
    let mut records: u32 = 0;
    for item in items {
        let counts = counts_of(counted, item);
        elements = elements.saturating_add(counts.elements);
        records = records.saturating_add(counts.records);
    }
    ElementCounts { elements, records }
}

/// Returns both counts of an item of a store. A name is looked up once for both.
fn counts_of(counted: &StoreCounts, item: &SrcItem) -> ElementCounts
    ensures elements { result.elements ≡ count_of counted.now item.now }
    ensures records { result.records ≡ records_of counted.now item.now }
{
    match item {
        SrcItem::Char(_) | SrcItem::Dead(_) => ElementCounts {
            elements: 1,
            records: 1,
        },
        SrcItem::Key(key) => ElementCounts {
            elements: 1,
            records: virtual_count(counted, key),
        },
        SrcItem::Outs(name) => {
            let place = counted.names.place_of(name.as_slice());
            ElementCounts {
                elements: count_at(counted.counts.as_slice(), place),
                records: count_at(counted.records.as_slice(), place),
            }
        }
        _ => ElementCounts {
            elements: 0,
            records: 0,
        },
    }
}
