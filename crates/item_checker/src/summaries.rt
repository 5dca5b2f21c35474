//! The summaries of the elements of each store. The elements are never built: stores that include one another can expand to far
//! more elements than fit in memory.

ghost use Rattle.std.specs.Prelude.{◌≡◌, ◌||◌, ◌&&◌, true, false, nat_lt, [], IfOk, OnOk};
ghost use Rattle.std.specs.Option.{option_copied};
ghost use Rattle.item_checker.specs.Summaries.{found_summary, is_other_key, joined, joined_found, no_summaries, summary, with_character, with_characters, with_item, with_items, with_store, with_stores};

use kmn_base::keys::VIRTUAL_KEY;
use kmn_base::{Memory, Seq};
use rule_model::system::DROPPED;
use rule_model::{KeyName, SrcItem, StoreDef};
use std::alloc::Global;
use store_table::NameTable;
use virtual_keys::FIRST_OWN_CODE;

/// The number of characters that are kept of elements: one more than the longest text that a store is compared with.
pub const FRONT_CHARACTERS: usize = 5;

/// The summary of elements: whether there are any, whether a mark, a virtual key, a character above U+FFFF or an element other
/// than a plain key is among them, and their first few characters.
#[derive(Drop)]
pub struct Summary {
    pub is_empty: bool,
    pub has_mark: bool,
    pub has_key: bool,
    pub has_far: bool,
    pub has_other: bool,
    /// At most `FRONT_CHARACTERS` characters.
    pub front: Seq<char>,
}

/// The names of the stores of a file, in order, with a summary for each.
#[derive(Drop)]
pub struct Summaries {
    pub names: NameTable,
    /// One for each name, in the order of the names.
    pub summaries: Seq<Summary>,
}

/// Returns whether a key is not a plain key of the key table.
pub fn is_other_key(key: &KeyName) -> bool
    ensures { result ≡ is_other_key key.now }
{
    !(key.flags == VIRTUAL_KEY && (key.code > 0 && key.code < FIRST_OWN_CODE))
}

/// Returns the summary of the store with a name.
pub fn found_summary<'a>(stores: &'a Summaries, name: &[u8]) -> Option<&'a Summary>
    ensures { option_copied result ≡ found_summary stores.now name.now }
{
    let place = stores.names.place_of(name)?;
    stores.summaries.as_slice().get(place)
}

/// Returns the summary of the elements that items of a store denote. Errors: `Memory` if an allocation fails.
pub fn items_summary(
    alloc: Global,
    stores: &Summaries,
    items: &[SrcItem],
) -> Result<Summary, Memory>
    ensures { IfOk result (λ sum. sum ≡ with_items stores.now (summary []) items.now) }
{
    let mut sum = empty_summary(alloc);
    for item in items {
        add_item(stores, &mut sum, item)?;
    }
    Ok(sum)
}

/// Returns the summary of no elements.
#[tactic(auto, unfolding(crate::specs::Summaries::summary))]
fn empty_summary(alloc: Global) -> Summary
    ensures { result ≡ summary [] }
{
    Summary {
        is_empty: true,
        has_mark: false,
        has_key: false,
        has_far: false,
        has_other: false,
        front: Seq::new(alloc),
    }
}

/// Adds the elements that an item of a store denotes.
fn add_item(stores: &Summaries, sum: &mut Summary, item: &SrcItem) -> Result<(), Memory>
    ensures { OnOk result (sum.new ≡ with_item stores.now sum.old item.now) }
{
    match item {
        SrcItem::Char(character) => add_element_character(sum, *character),
        SrcItem::Dead(_) => {
            sum.is_empty = false;
            sum.has_mark = true;
            sum.has_other = true;
            Ok(())
        }
        SrcItem::Key(key) => {
            sum.is_empty = false;
            sum.has_key = true;
            sum.has_other = either(sum.has_other, is_other_key(key));
            Ok(())
        }
        SrcItem::Outs(name) => join_found(sum, found_summary(stores, name.as_slice())),
        _ => Ok(()),
    }
}

/// Adds a character.
fn add_element_character(sum: &mut Summary, character: char) -> Result<(), Memory>
    ensures { OnOk result (sum.new ≡ record sum.old { is_empty = false; has_far = sum.old.has_far || nat_lt 0xFFFF character; has_other = true; front = with_character sum.old.front character }) }
{
    sum.is_empty = false;
    sum.has_far = either(sum.has_far, character > '\u{FFFF}');
    sum.has_other = true;
    add_character(&mut sum.front, character)
}

/// Returns whether one of two conditions is true.
fn either(one: bool, other: bool) -> bool
    ensures { result ≡ (one || other) }
{
    one || other
}

/// Adds a character to a front, if the front is short enough.
fn add_character(front: &mut Seq<char>, character: char) -> Result<(), Memory>
    ensures { OnOk result (front.new ≡ with_character front.old character) }
{
    if front.len() < FRONT_CHARACTERS {
        front.add(character)
    } else {
        Ok(())
    }
}

/// Adds the elements of an optional summary.
fn join_found(sum: &mut Summary, found: Option<&Summary>) -> Result<(), Memory>
    ensures { OnOk result (sum.new ≡ joined_found sum.old (option_copied found.entry)) }
{
    match found {
        Some(other) => join(sum, other),
        None => Ok(()),
    }
}

/// Adds the elements of a summary.
fn join(sum: &mut Summary, other: &Summary) -> Result<(), Memory>
    ensures { OnOk result (sum.new ≡ joined sum.old other.now) }
{
    sum.is_empty = both(sum.is_empty, other.is_empty);
    sum.has_mark = either(sum.has_mark, other.has_mark);
    sum.has_key = either(sum.has_key, other.has_key);
    sum.has_far = either(sum.has_far, other.has_far);
    sum.has_other = either(sum.has_other, other.has_other);
    add_characters(&mut sum.front, other.front.as_slice())
}

/// Returns whether two conditions are true.
fn both(one: bool, other: bool) -> bool
    ensures { result ≡ (one && other) }
{
    one && other
}

/// Adds characters to a front, while the front is short enough.
fn add_characters(front: &mut Seq<char>, characters: &[char]) -> Result<(), Memory>
    ensures { OnOk result (front.new ≡ with_characters front.old characters.now) }
{
    for character in characters {
        add_character(front, *character)?;
    }
    Ok(())
}

/// Returns the summaries of stores, each computed from those before it. Errors: `Memory` if an allocation fails.
pub fn stores_summaries(alloc: Global, stores: &[StoreDef]) -> Result<Summaries, Memory>
    ensures { IfOk result (λ summaries. summaries ≡ with_stores no_summaries stores.now) }
{
    let mut summaries = Summaries {
        names: NameTable::new(alloc),
        summaries: Seq::new(alloc),
    };
    for store in stores {
        add_store(alloc, &mut summaries, store)?;
    }
    Ok(summaries)
}

/// Adds the store of a statement, unless it is dropped.
fn add_store(alloc: Global, stores: &mut Summaries, store: &StoreDef) -> Result<(), Memory>
    ensures { OnOk result (stores.new ≡ with_store stores.old store.now) }
{
    if store.system == DROPPED {
        return Ok(());
    }
    let summary = items_summary(alloc, stores, store.items.as_slice())?;
    stores.names.push(store.name.as_slice())?;
    stores.summaries.add(summary)
}
