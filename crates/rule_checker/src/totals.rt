//! The counts over statements that the limits compare.
//!
//! The counts are updated statement by statement, in the order of lines, and never fall. So the first statement after which a
//! count exceeds its limit is the one that is refused (`walking`). A deadkey, key name or option value is counted at its first
//! occurrence, which a hash table finds. The numbers of elements and records come from `counting`, which does not build them.
//! Counts saturate at the maximum of their type, which is above each limit, so a saturated count is refused as the exact count
//! would be. The cost is one lookup for each item that has a name or a value.

ghost use Rattle.std.specs.Prelude.{◌≡◌, ◌||◌, OnOk, option_to_list};
ghost use Rattle.rule_model.specs.Naming.{rule_items};
ghost use Rattle.rule_checker.specs.Counting.{capped};
ghost use Rattle.rule_checker.specs.Listing.{totals_passed};
ghost use Rattle.rule_checker.specs.Walking.{after_rule, after_store, dictionary_count, key_count_of, no_totals, passes_elements, record_count_of, store_count, totals_code, with_key, with_mark, with_names, with_names_of, with_records, with_size, with_store_size, with_value, with_value_of, with_values};

use crate::counting::{StoreCounts, records_named, store_count, virtual_count};
use crate::key_codes::either;
use crate::spelled::character_count;
use crate::values::ValueTable;
use kmn_base::limits::{ALL_ELEMENTS, DEADKEYS, RECORDS, STORE_ELEMENTS, STORES};
use kmn_base::{Code, Memory};
use rule_model::system::DROPPED;
use rule_model::{RuleDef, RuleKind, SrcItem, StoreDef};
use std::alloc::Global;
use store_table::NameTable;

/// The counts up to a statement. Each number saturates at the maximum of its type.
#[derive(Drop)]
pub struct Totals {
    /// The names of deadkeys.
    pub marks: NameTable,
    /// The names of the key dictionary.
    pub keys: NameTable,
    /// The characters of these names.
    pub key_characters: u32,
    /// The values of options.
    pub values: ValueTable,
    /// The characters of these values.
    pub value_elements: u32,
    /// Whether one of these values is too long for a store.
    pub has_large_value: bool,
    /// The stores that are stated.
    pub stores: u32,
    /// The elements of these stores.
    pub elements: u32,
    /// Whether one of these stores has too many elements.
    pub has_large_store: bool,
    /// The records of rules.
    pub records: u32,
}

/// Which of the limits that all statements share are passed: C18, C19, C21 and C22.
#[derive(Clone, Copy)]
pub struct Passed {
    pub elements: bool,
    pub stores: bool,
    pub marks: bool,
    pub records: bool,
}

/// Counts a store statement.
pub(crate) fn add_store(
    totals: &mut Totals,
    counted: &StoreCounts,
    store: &StoreDef,
) -> Result<(), Memory>
    ensures { OnOk result (totals.new ≡ after_store counted.now totals.old store.now) }
{
    add_store_size(totals, counted, store);
    add_names(totals, store.items.as_slice())
}

impl Totals {
    /// Creates totals with empty counts.
    pub fn new(alloc: Global) -> Totals
        ensures { result ≡ no_totals }
    {
        Totals {
            marks: NameTable::new(alloc),
            keys: NameTable::new(alloc),
            key_characters: 0,
            values: ValueTable::new(alloc),
            value_elements: 0,
            has_large_value: false,
            stores: 0,
            elements: 0,
            has_large_store: false,
            records: 0,
        }
    }
}

/// Counts the store of a statement, unless the statement is dropped.
fn add_store_size(totals: &mut Totals, counted: &StoreCounts, store: &StoreDef)
    ensures { totals.new ≡ with_store_size counted.now totals.old store.now }
{
    if store.system != DROPPED {
        add_size(totals, store_count(counted, store.items.as_slice()));
    }
}

/// Counts a store with this number of elements.
fn add_size(totals: &mut Totals, size: u32)
    ensures { totals.new ≡ with_size totals.old size }
{
    totals.stores = totals.stores.saturating_add(1);
    totals.elements = totals.elements.saturating_add(size);
    totals.has_large_store = either(totals.has_large_store, (STORE_ELEMENTS as u32) < size);
}

/// Counts the deadkeys and dictionary keys that items name.
fn add_names(totals: &mut Totals, items: &[SrcItem]) -> Result<(), Memory>
    ensures { OnOk result (totals.new ≡ with_names totals.old items.now) }
{
    for item in items {
        add_names_of(totals, item)?;
    }
    Ok(())
}

/// Counts the deadkey or dictionary key that an item names.
fn add_names_of(totals: &mut Totals, item: &SrcItem) -> Result<(), Memory>
    ensures { OnOk result (totals.new ≡ with_names_of totals.old item.now) }
{
    match item {
        SrcItem::Dead(name) => add_mark(totals, name.as_slice()),
        SrcItem::Key(key) => {
            if key.code == 0 {
                add_key(totals, key.name.as_slice())
            } else {
                Ok(())
            }
        }
        _ => Ok(()),
    }
}

/// Counts a deadkey if its name is new.
#[tactic(auto, unfolding(store_table::specs::Names::is_named))]
fn add_mark(totals: &mut Totals, name: &[u8]) -> Result<(), Memory>
    ensures { OnOk result (totals.new ≡ with_mark totals.old name.now) }
{
    if totals.marks.has(name) {
        Ok(())
    } else {
        totals.marks.push(name)
    }
}

/// Counts a key of the dictionary if its name is new.
fn add_key(totals: &mut Totals, name: &[u8]) -> Result<(), Memory>
    ensures { OnOk result (totals.new ≡ with_key totals.old name.now) }
{
    if totals.keys.has(name) {
        return Ok(());
    }
    totals.keys.push(name)?;
    totals.key_characters = totals.key_characters.saturating_add(character_count(name));
    Ok(())
}

/// Counts a rule, match or nomatch statement.
pub(crate) fn add_rule(
    totals: &mut Totals,
    counted: &StoreCounts,
    rule: &RuleDef,
) -> Result<(), Memory>
    ensures { OnOk result (totals.new ≡ after_rule counted.now totals.old rule.now) }
{
    add_rule_names(totals, rule)?;
    add_rule_values(totals, rule)?;
    add_records(totals, counted, rule);
    Ok(())
}

/// Counts the deadkeys and dictionary keys that the items of a rule name.
#[tactic(auto, using(crate::proofs::Walked::names_append))]
fn add_rule_names(totals: &mut Totals, rule: &RuleDef) -> Result<(), Memory>
    ensures { OnOk result (totals.new ≡ with_names totals.old (rule_items rule.now)) }
{
    add_names(totals, rule.context.as_slice())?;
    add_key_names(totals, &rule.key)?;
    add_names(totals, rule.output.as_slice())
}

/// Counts the dictionary key that the key of a rule names.
fn add_key_names(totals: &mut Totals, key: &Option<SrcItem>) -> Result<(), Memory>
    ensures { OnOk result (totals.new ≡ with_names totals.old (option_to_list key.now)) }
{
    match key {
        Some(item) => add_names_of(totals, item),
        None => Ok(()),
    }
}

/// Counts the values of the items of a rule.
#[tactic(auto, using(crate::proofs::Walked::values_append))]
fn add_rule_values(totals: &mut Totals, rule: &RuleDef) -> Result<(), Memory>
    ensures { OnOk result (totals.new ≡ with_values totals.old (rule_items rule.now)) }
{
    add_values(totals, rule.context.as_slice())?;
    add_key_value(totals, &rule.key)?;
    add_values(totals, rule.output.as_slice())
}

/// Counts the values of items.
fn add_values(totals: &mut Totals, items: &[SrcItem]) -> Result<(), Memory>
    ensures { OnOk result (totals.new ≡ with_values totals.old items.now) }
{
    for item in items {
        add_value_of(totals, item)?;
    }
    Ok(())
}

/// Counts the value of an item.
fn add_value_of(totals: &mut Totals, item: &SrcItem) -> Result<(), Memory>
    ensures { OnOk result (totals.new ≡ with_value_of totals.old item.now) }
{
    match item {
        SrcItem::Equal(_, value) => add_value(totals, value.as_slice()),
        SrcItem::Unequal(_, value) => add_value(totals, value.as_slice()),
        SrcItem::SystemEqual(_, value) => add_value(totals, value.as_slice()),
        SrcItem::SystemUnequal(_, value) => add_value(totals, value.as_slice()),
        SrcItem::Set(_, value) => add_value(totals, value.as_slice()),
        SrcItem::SetSystem(_, value) => add_value(totals, value.as_slice()),
        _ => Ok(()),
    }
}

/// Counts a value if it is new.
fn add_value(totals: &mut Totals, value: &[char]) -> Result<(), Memory>
    ensures { OnOk result (totals.new ≡ with_value totals.old value.now) }
{
    if totals.values.has(value) {
        return Ok(());
    }
    totals.values.push(value)?;
    totals.value_elements = totals.value_elements.saturating_add(size_of(value.len()));
    totals.has_large_value = either(totals.has_large_value, STORE_ELEMENTS < value.len());
    Ok(())
}

/// Returns a length as a count, or the maximum of `u32` if it is larger.
fn size_of(len: usize) -> u32
    ensures { result ≡ capped len }
{
    if len < 0xFFFF_FFFF {
        len as u32
    } else {
        0xFFFF_FFFF
    }
}

/// Counts the value of the key of a rule. In a source the key has no value.
fn add_key_value(totals: &mut Totals, key: &Option<SrcItem>) -> Result<(), Memory>
    ensures { OnOk result (totals.new ≡ with_values totals.old (option_to_list key.now)) }
{
    match key {
        Some(item) => add_value_of(totals, item),
        None => Ok(()),
    }
}

/// Counts the records of a statement.
fn add_records(totals: &mut Totals, counted: &StoreCounts, rule: &RuleDef)
    ensures { totals.new ≡ with_records counted.now totals.old rule.now }
{
    totals.records = totals.records.saturating_add(record_count(counted, rule));
}

/// Returns the number of records of a statement.
fn record_count(counted: &StoreCounts, rule: &RuleDef) -> u32
    ensures { result ≡ record_count_of counted.now rule.now.kind rule.now.key }
{
    match rule.kind {
        RuleKind::Plain => key_count(counted, &rule.key),
        _ => 0,
    }
}

/// Returns the number of records of a plain rule with this key.
fn key_count(counted: &StoreCounts, key: &Option<SrcItem>) -> u32
    ensures { result ≡ key_count_of counted.now key.now }
{
    match key {
        Some(SrcItem::Key(key)) => virtual_count(counted, key),
        Some(SrcItem::Any(store)) => records_named(counted, store.as_slice()),
        _ => 1,
    }
}

/// Returns the code of the first limit that is passed, if any. `context` and `output` are whether the last statement passes C16 or C17.
pub(crate) fn totals_code(totals: &Totals, context: bool, output: bool) -> Option<Code>
    ensures { result ≡ totals_code totals.now context output }
{
    if context {
        Some(Code::C16)
    } else if output {
        Some(Code::C17)
    } else if passes_elements(totals) {
        Some(Code::C18)
    } else if (STORES as u64) < store_count_of(totals) {
        Some(Code::C19)
    } else if DEADKEYS < totals.marks.len() {
        Some(Code::C21)
    } else if (RECORDS as u32) < totals.records {
        Some(Code::C22)
    } else {
        None
    }
}

/// Returns which limits of all statements are passed.
pub(crate) fn totals_passed(totals: &Totals) -> Passed
    ensures { result ≡ totals_passed totals.now }
{
    Passed {
        elements: passes_elements(totals),
        stores: (STORES as u64) < store_count_of(totals),
        marks: DEADKEYS < totals.marks.len(),
        records: (RECORDS as u32) < totals.records,
    }
}

/// Returns whether one store has too many elements, or all stores together have.
fn passes_elements(totals: &Totals) -> bool
    ensures { result ≡ passes_elements totals.now }
{
    let dictionary = dictionary_count(totals);
    totals.has_large_store
        || totals.has_large_value
        || (STORE_ELEMENTS as u64) < dictionary
        || (ALL_ELEMENTS as u64)
            < (totals.elements as u64) + dictionary + (totals.value_elements as u64)
}

/// Returns the number of elements of the key dictionary.
fn dictionary_count(totals: &Totals) -> u64
    ensures { result ≡ dictionary_count totals.now }
{
    (totals.key_characters as u64) + (size_of(totals.keys.len().saturating_sub(1)) as u64)
}

/// Returns the number of stores of the file.
fn store_count_of(totals: &Totals) -> u64
    ensures { result ≡ store_count totals.now }
{
    let dictionary = if totals.keys.len() == 0 { 0 } else { 1 };
    (totals.stores as u64) + dictionary + (size_of(totals.values.len()) as u64)
}
