//! Computes the class of each record, and the six classes that a key press can match.
//!
//! A class is a pair: the key that a record requires, and the character or mark that its last pattern requires, each 0 if the
//! record does not require a particular one. A press can match three keys: any key, its character, and its code. The last item
//! before the caret can match two: any item, and itself. So each record that holds has one of six classes (`laws`), and an
//! index by class finds these records without testing the others. If a press has no character or the list is empty, some of the
//! six are equal.

ghost use Rattle.std.specs.Prelude.{◌≡◌, ◌<◌, [], map, None, IfOk};
ghost use Rattle.virtual_keys.specs.Fits.{char_of_press};
ghost use Rattle.rule_model.specs.Tab.{tab_pattern, tab_rule};
ghost use Rattle.kmx_parts.specs.ContextItems.{pattern_of};
ghost use Rattle.rule_index.specs.Classes.{key_class, pattern_class, last_class, given_class, item_class, class_of, rule_class, matching_classes};
ghost use Rattle.rule_index.specs.declared.class.TheConstants.{PARTS};
ghost use Rattle.rule_index.specs.Groups.{record_classes};

use crate::class::{Class, FIRST_CODE, FIRST_MARK, PARTS};
use kmn_base::{Item, KeyPress, Memory, RuleKey};
use kmx_parts::{ContextItem, ContextItems, FileGroup, FileRule};
use std::alloc::Global;
use virtual_keys::char_of;

/// Returns the classes of a group's records, in their order.
pub fn record_classes(alloc: Global, group: &FileGroup<'_>) -> Result<Vec<Class>, Memory>
    ensures { IfOk result (λ classes. classes.items ≡ record_classes group.now) }
{
    let using_keys = group.using_keys();
    let mut classes = Vec::new(alloc);
    for rule in group.rules() {
        classes.push(rule_class(using_keys, &rule))?;
    }
    Ok(classes)
}

/// Returns the class of a record: what it can match. In a group without keys, it can match every press.
fn rule_class(using_keys: bool, rule: &FileRule<'_>) -> Class
    ensures { result ≡ rule_class (tab_rule [] using_keys rule.now) }
{
    let key = if using_keys { rule.key() } else { RuleKey::Any };
    class_of(key_class(key), last_class(rule.context_items()))
}

/// Returns the class with the part of a key and the part of a pattern.
fn class_of(by_key: u64, by_item: u64) -> Class
    requires key { by_key < PARTS }
    requires item { by_item < PARTS }
    ensures { result ≡ class_of by_key by_item }
{
    Class::of(by_key * PARTS + by_item)
}

/// Returns the part of a class for its key: which key presses the key can match.
fn key_class(key: RuleKey) -> u64
    ensures value { result ≡ key_class key }
    ensures small { result < PARTS }
{
    match key {
        RuleKey::Any => 0,
        RuleKey::Char(c) => 1 + u64::from(c),
        RuleKey::Virtual { code, .. } => FIRST_CODE + u64::from(code),
    }
}

/// Returns the part of a class for a context: the part of its last item that matches a text item.
fn last_class(context: ContextItems<'_>) -> u64
    ensures value { result ≡ last_class 0 (map (tab_pattern []) (map pattern_of context.entry)) }
    ensures small { result < PARTS }
{
    let mut class = 0;
    for item in context {
        if item.takes_item() {
            class = pattern_class(item);
        }
    }
    class
}

/// Returns the part of a class for an item of a rule context: which text item it can match.
fn pattern_class(item: ContextItem) -> u64
    ensures value { result ≡ pattern_class (tab_pattern [] (pattern_of item)) }
    ensures small { result < PARTS }
{
    match item {
        ContextItem::Char(c) => 1 + u64::from(c as u32),
        ContextItem::Mark(m) => FIRST_MARK + u64::from(m),
        _ => 0,
    }
}

/// Returns the classes of records of a group that a press and a left list can match.
#[tactic(auto, using(crate::proofs::Meeting::last_at))]
pub fn matching_classes(press: KeyPress, left: &[Item]) -> [Class; 6]
    ensures { result ≡ matching_classes press left.now }
{
    let given = given_class(press);
    let code = FIRST_CODE + u64::from(press.code);
    let last = item_class(left.last().copied());
    [
        class_of(0, last),
        class_of(0, 0),
        class_of(given, last),
        class_of(given, 0),
        class_of(code, last),
        class_of(code, 0),
    ]
}

/// Returns the part of a class that the character of a press can match, or its code if the press produces no character.
fn given_class(press: KeyPress) -> u64
    ensures value { result ≡ given_class press (char_of_press press) }
    ensures small { result < PARTS }
{
    match char_of(press) {
        Some(c) => 1 + u64::from(c as u32),
        None => FIRST_CODE + u64::from(press.code),
    }
}

/// Returns the part of a class that an item can match.
fn item_class(item: Option<Item>) -> u64
    ensures value { result ≡ item_class item }
    ensures small { result < PARTS }
{
    match item {
        None => 0,
        Some(Item::Char(c)) => 1 + u64::from(c as u32),
        Some(Item::Mark(m)) => FIRST_MARK + u64::from(m),
    }
}
