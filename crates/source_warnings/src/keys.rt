//! W13: keys that no key press produces.

ghost use Rattle.std.specs.Prelude.{◌≡◌, ◌++◌, flat_map, map, IfOk, OnOk};
ghost use Rattle.std.specs.List.{count_by, list_any};
ghost use Rattle.virtual_keys.specs.declared.dictionary.TheConstants.{FIRST_OWN_CODE};
ghost use Rattle.source_warnings.specs.Keys.{all_keys, characters_below, is_element_missed, is_missed, is_split, keys_never_pressed, rule_keys, store_keys, stores_keys, with_character, with_code, with_press};

use indexmap::IndexSet;
use kmn_base::keys::{CAPS, NO_CAPS, SHIFT};
use kmn_base::{KeyPress, Memory};
use name_warnings::{Warning, WarningKind};
use rule_model::{GroupDef, Program, RuleDef, SrcItem};
use source_uses::{Contents, Part, Role, StoreElement, Use, new_uses, rule_uses};
use std::alloc::Global;
use store_table::NameTable;
use virtual_keys::{FIRST_OWN_CODE, char_of, has};

/// Appends W13: a warning at each rule with a key that no key press produces, and at the first rule of each key store with such keys.
pub(crate) fn add_never_pressed(
    alloc: Global,
    found: &mut Vec<Warning>,
    contents: &Contents,
    program: &Program,
) -> Result<(), Memory>
    ensures { OnOk result (found.new.items ≡ found.old.items ++ keys_never_pressed contents.now program.now) }
{
    let characters = pressed_characters(alloc)?;
    add_all_keys(found, &characters, program.groups.as_slice())?;
    let uses = rule_uses(alloc, Role::Elements, Part::Key, program)?;
    let stores = new_uses(alloc, NameTable::new(alloc), uses.as_slice())?;
    add_stores_keys(alloc, found, &characters, contents, stores.as_slice())
}

/// Returns the characters that key presses produce.
#[tactic(auto, using(crate::proofs::Pressed::none_below, crate::proofs::Pressed::one_more))]
pub(crate) fn pressed_characters(alloc: Global) -> Result<IndexSet<char>, Memory>
    ensures { IfOk result (λ characters. characters.keys ≡ characters_below FIRST_OWN_CODE) }
{
    let mut characters = IndexSet::new(alloc);
    for code in 0..FIRST_OWN_CODE {
        add_code(&mut characters, code)?;
    }
    Ok(characters)
}

/// Adds the characters of a key, without and with shift.
fn add_code(characters: &mut IndexSet<char>, code: u16) -> Result<(), Memory>
    ensures { OnOk result (characters.new.keys ≡ with_code characters.old.keys code) }
{
    add_press(characters, KeyPress { code, mods: 0 })?;
    add_press(characters, KeyPress { code, mods: SHIFT })
}

/// Adds the character of a key press.
fn add_press(characters: &mut IndexSet<char>, press: KeyPress) -> Result<(), Memory>
    ensures { OnOk result (characters.new.keys ≡ with_press characters.old.keys press) }
{
    match char_of(press) {
        Some(c) => {
            characters.insert(c)?;
            Ok(())
        }
        None => Ok(()),
    }
}

/// Appends the warnings of the keys of rules.
fn add_all_keys(
    found: &mut Vec<Warning>,
    characters: &IndexSet<char>,
    groups: &[GroupDef],
) -> Result<(), Memory>
    ensures { OnOk result (found.new.items ≡ found.old.items ++ all_keys characters.now.keys groups.now) }
{
    for group in groups {
        add_group_keys(found, characters, group.rules.as_slice())?;
    }
    Ok(())
}

/// Appends the warnings of the keys of a group.
fn add_group_keys(
    found: &mut Vec<Warning>,
    characters: &IndexSet<char>,
    rules: &[RuleDef],
) -> Result<(), Memory>
    ensures { OnOk result (found.new.items ≡ found.old.items ++ flat_map (rule_keys characters.now.keys) rules.now) }
{
    for rule in rules {
        add_rule_key(found, characters, rule)?;
    }
    Ok(())
}

/// Appends a warning at a rule, if no key press produces its key.
fn add_rule_key(
    found: &mut Vec<Warning>,
    characters: &IndexSet<char>,
    rule: &RuleDef,
) -> Result<(), Memory>
    ensures { OnOk result (found.new.items ≡ found.old.items ++ rule_keys characters.now.keys rule.now) }
{
    if is_missed(characters, &rule.key) {
        found.push(Warning {
            line: rule.line,
            kind: WarningKind::KeyNeverPressed,
        })?;
    }
    Ok(())
}

/// Returns whether no key press produces the key of a rule.
fn is_missed(characters: &IndexSet<char>, key: &Option<SrcItem>) -> bool
    ensures { result ≡ is_missed characters.now.keys key.now }
{
    match key {
        Some(SrcItem::Char(c)) => !characters.contains(c),
        Some(SrcItem::Key(key)) => is_split(key.flags),
        _ => false,
    }
}

/// Returns whether flags require caps lock on and off.
fn is_split(flags: u16) -> bool
    ensures { result ≡ is_split flags }
{
    has(u32::from(flags), CAPS) && has(u32::from(flags), NO_CAPS)
}

/// Appends the warnings of key stores, each at a use.
fn add_stores_keys(
    alloc: Global,
    found: &mut Vec<Warning>,
    characters: &IndexSet<char>,
    contents: &Contents,
    stores: &[Use],
) -> Result<(), Memory>
    ensures { OnOk result (found.new.items ≡ found.old.items ++ stores_keys characters.now.keys contents.now stores.now) }
{
    for place in stores {
        add_store_keys(alloc, found, characters, contents, place)?;
    }
    Ok(())
}

/// Appends a warning at the use of a key store, if no key press produces some of its keys.
fn add_store_keys(
    alloc: Global,
    found: &mut Vec<Warning>,
    characters: &IndexSet<char>,
    contents: &Contents,
    place: &Use,
) -> Result<(), Memory>
    ensures { OnOk result (found.new.items ≡ found.old.items ++ store_keys characters.now.keys contents.now place.now) }
{
    let elements = contents.named(place.name.as_slice());
    let count = missed_count(characters, elements);
    if count == 0 {
        return Ok(());
    }
    let store = place.name.copy(alloc)?;
    let keys = elements.len();
    found.push(Warning {
        line: place.line,
        kind: WarningKind::KeysNeverPressed { store, count, keys },
    })?;
    Ok(())
}

/// Returns the number of elements that no key press produces.
fn missed_count(characters: &IndexSet<char>, elements: &[StoreElement]) -> usize
    ensures { result ≡ count_by (is_element_missed characters.now.keys) elements.now }
{
    let mut count = 0;
    for element in elements {
        if is_element_missed(characters, element) {
            count += 1;
        }
    }
    count
}

/// Returns whether no key press produces an element.
fn is_element_missed(characters: &IndexSet<char>, element: &StoreElement) -> bool
    ensures { result ≡ is_element_missed characters.now.keys element.now }
{
    match element {
        StoreElement::Char(c) => !characters.contains(c),
        StoreElement::Key(key) => is_split(key.flags),
        StoreElement::Mark(_) => false,
    }
}
