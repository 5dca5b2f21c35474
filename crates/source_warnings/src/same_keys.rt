//! W15: rules that put the character that their key produces without a rule.

ghost use Rattle.std.specs.Prelude.{◌≡◌, ◌++◌, [], flat_map, IfOk, OnOk};
ghost use Rattle.rule_model.specs.Src.{is_plain_kind};
ghost use Rattle.source_warnings.specs.SameKeys.{are_plain_rules, code_characters, element_characters, elements_characters, free_characters, free_stores, group_characters, has_no_items, is_lone, item_characters, key_stores, press_characters, puts_key, repeated_after, rule_characters, rule_same, rule_stores, same_in_group, same_keys, store_characters, with_character, with_repeated};

use crate::keys::pressed_characters;
use indexmap::IndexSet;
use kmn_base::keys::{CAPS, SHIFT};
use kmn_base::{KeyPress, Memory, RuleKey, Seq};
use name_warnings::{Warning, WarningKind};
use rule_model::{GroupDef, RuleDef, RuleKind, SrcItem};
use source_uses::{Contents, StoreElement, Use, new_uses};
use std::alloc::Global;
use store_table::NameTable;
use virtual_keys::{char_of, fits};

/// Appends W15: in each group with keys that has no match and no nomatch, a note at each rule without a context that puts the character of
/// its key, if the key of no other rule without a context takes a key press that produces it.
pub(crate) fn add_same_keys(
    alloc: Global,
    found: &mut Vec<Warning>,
    contents: &Contents,
    groups: &[GroupDef],
) -> Result<(), Memory>
    ensures { OnOk result (found.new.items ≡ found.old.items ++ same_keys contents.now groups.now) }
{
    let pressed = pressed_characters(alloc)?;
    add_groups_same(alloc, found, &pressed, contents, groups)
}

/// Appends the notes of groups.
fn add_groups_same(
    alloc: Global,
    found: &mut Vec<Warning>,
    pressed: &IndexSet<char>,
    contents: &Contents,
    groups: &[GroupDef],
) -> Result<(), Memory>
    ensures { OnOk result (found.new.items ≡ found.old.items ++ flat_map (same_in_group pressed.now.keys contents.now) groups.now) }
{
    for group in groups {
        add_group_same(alloc, found, pressed, contents, group)?;
    }
    Ok(())
}

/// Appends the notes of a group.
fn add_group_same(
    alloc: Global,
    found: &mut Vec<Warning>,
    pressed: &IndexSet<char>,
    contents: &Contents,
    group: &GroupDef,
) -> Result<(), Memory>
    ensures { OnOk result (found.new.items ≡ found.old.items ++ same_in_group pressed.now.keys contents.now group.now) }
{
    let rules = group.rules.as_slice();
    if group.using_keys && are_plain_rules(rules) {
        add_keyed_same(alloc, found, pressed, contents, rules)?;
    }
    Ok(())
}

/// Appends the notes of a group with keys that has rules only.
fn add_keyed_same(
    alloc: Global,
    found: &mut Vec<Warning>,
    pressed: &IndexSet<char>,
    contents: &Contents,
    rules: &[RuleDef],
) -> Result<(), Memory>
    ensures { OnOk result (found.new.items ≡ found.old.items ++ flat_map (rule_same pressed.now.keys (repeated_after [] [] (group_characters contents.now rules.now))) rules.now) }
{
    let characters = group_characters(alloc, contents, rules)?;
    let again = repeated(alloc, characters.as_slice())?;
    add_rules_same(found, pressed, &again, rules)
}

/// Returns whether there is no match and no nomatch statement.
fn are_plain_rules(rules: &[RuleDef]) -> bool
    ensures { result ≡ are_plain_rules rules.now }
{
    rules.iter().all(|rule| is_plain(rule.kind))
}

/// Returns whether a statement is a rule.
fn is_plain(kind: RuleKind) -> bool
    ensures { result ≡ is_plain_kind kind }
{
    match kind {
        RuleKind::Plain => true,
        _ => false,
    }
}

/// Returns the characters that the keys of rules without a context take: those of single keys, then those of each key store at its first
/// rule.
fn group_characters(
    alloc: Global,
    contents: &Contents,
    rules: &[RuleDef],
) -> Result<Seq<char>, Memory>
    ensures { IfOk result (λ characters. characters ≡ group_characters contents.now rules.now) }
{
    let mut characters = Seq::new(alloc);
    add_free_characters(&mut characters, rules)?;
    let stores = free_stores(alloc, rules)?;
    let stores = new_uses(alloc, NameTable::new(alloc), stores.as_slice())?;
    add_stores_characters(&mut characters, contents, stores.as_slice())?;
    Ok(characters)
}

/// Appends the characters of single keys.
fn add_free_characters(characters: &mut Seq<char>, rules: &[RuleDef]) -> Result<(), Memory>
    ensures { OnOk result (characters.new ≡ characters.old ++ free_characters rules.now) }
{
    for rule in rules {
        add_rule_characters(characters, rule)?;
    }
    Ok(())
}

/// Appends the characters of the single key of a rule without a context.
fn add_rule_characters(characters: &mut Seq<char>, rule: &RuleDef) -> Result<(), Memory>
    ensures { OnOk result (characters.new ≡ characters.old ++ rule_characters rule.now) }
{
    if is_free(rule) {
        add_item_characters(characters, &rule.key)
    } else {
        Ok(())
    }
}

/// Returns whether a rule has no context.
fn is_free(rule: &RuleDef) -> bool
    ensures { result ≡ has_no_items rule.now.context }
{
    match rule.context.as_slice() {
        [] => true,
        _ => false,
    }
}

/// Appends the characters of a single key.
fn add_item_characters(characters: &mut Seq<char>, key: &Option<SrcItem>) -> Result<(), Memory>
    ensures { OnOk result (characters.new ≡ characters.old ++ item_characters key.now) }
{
    match key {
        Some(SrcItem::Char(c)) => characters.add(*c),
        Some(SrcItem::Key(key)) => add_code_characters(characters, key.flags, key.code),
        _ => Ok(()),
    }
}

/// Appends the characters of the key presses without control and alt that a virtual key takes.
fn add_code_characters(characters: &mut Seq<char>, flags: u16, code: u16) -> Result<(), Memory>
    ensures { OnOk result (characters.new ≡ characters.old ++ code_characters flags code) }
{
    add_press_characters(characters, flags, code, 0)?;
    add_press_characters(characters, flags, code, SHIFT)?;
    add_press_characters(characters, flags, code, CAPS)?;
    add_press_characters(characters, flags, code, SHIFT | CAPS)
}

/// Appends the character of a key press that a virtual key takes.
fn add_press_characters(
    characters: &mut Seq<char>,
    flags: u16,
    code: u16,
    mods: u16,
) -> Result<(), Memory>
    ensures { OnOk result (characters.new ≡ characters.old ++ press_characters flags code mods) }
{
    let press = KeyPress { code, mods };
    let flags = u32::from(flags);
    if !fits(RuleKey::Virtual { flags, code }, press) {
        return Ok(());
    }
    match char_of(press) {
        Some(c) => characters.add(c),
        None => Ok(()),
    }
}

/// Appends the characters of key stores.
fn add_stores_characters(
    characters: &mut Seq<char>,
    contents: &Contents,
    stores: &[Use],
) -> Result<(), Memory>
    ensures { OnOk result (characters.new ≡ characters.old ++ flat_map (store_characters contents.now) stores.now) }
{
    for store in stores {
        add_elements_characters(characters, contents.named(store.name.as_slice()))?;
    }
    Ok(())
}

/// Appends the characters of elements of a key store.
fn add_elements_characters(
    characters: &mut Seq<char>,
    elements: &[StoreElement],
) -> Result<(), Memory>
    ensures { OnOk result (characters.new ≡ characters.old ++ elements_characters elements.now) }
{
    for element in elements {
        add_element_characters(characters, element)?;
    }
    Ok(())
}

/// Appends the characters of an element of a key store.
fn add_element_characters(characters: &mut Seq<char>, element: &StoreElement) -> Result<(), Memory>
    ensures { OnOk result (characters.new ≡ characters.old ++ element_characters element.now) }
{
    match element {
        StoreElement::Char(c) => characters.add(*c),
        StoreElement::Key(key) => add_code_characters(characters, key.flags, key.code),
        StoreElement::Mark(_) => Ok(()),
    }
}

/// Returns the key stores of the rules without a context.
fn free_stores(alloc: Global, rules: &[RuleDef]) -> Result<Vec<Use>, Memory>
    ensures { IfOk result (λ stores. stores.items ≡ free_stores rules.now) }
{
    let mut stores = Vec::new(alloc);
    for rule in rules {
        add_rule_store(alloc, &mut stores, rule)?;
    }
    Ok(stores)
}

/// Appends the key store of a rule without a context, if it has one.
fn add_rule_store(alloc: Global, stores: &mut Vec<Use>, rule: &RuleDef) -> Result<(), Memory>
    ensures { OnOk result (stores.new.items ≡ stores.old.items ++ rule_stores rule.now) }
{
    if is_free(rule) {
        add_key_store(alloc, stores, rule.line, &rule.key)
    } else {
        Ok(())
    }
}

/// Appends the key store of a key, if it is one.
fn add_key_store(
    alloc: Global,
    stores: &mut Vec<Use>,
    line: u32,
    key: &Option<SrcItem>,
) -> Result<(), Memory>
    ensures { OnOk result (stores.new.items ≡ stores.old.items ++ key_stores line key.now) }
{
    match key {
        Some(SrcItem::Any(name)) => {
            let name = name.copy(alloc)?;
            stores.push(Use { line, name })?;
            Ok(())
        }
        _ => Ok(()),
    }
}

/// Returns the characters that are in a list more than once.
fn repeated(alloc: Global, characters: &[char]) -> Result<IndexSet<char>, Memory>
    ensures { IfOk result (λ again. again.keys ≡ repeated_after [] [] characters.now) }
{
    let mut once = IndexSet::new(alloc);
    let mut again = IndexSet::new(alloc);
    for c in characters {
        add_repeated(&mut once, &mut again, *c)?;
    }
    Ok(again)
}

/// Adds a character to those that were seen once, or to those that were seen again.
fn add_repeated(
    once: &mut IndexSet<char>,
    again: &mut IndexSet<char>,
    c: char,
) -> Result<(), Memory>
    ensures once { OnOk result (once.new.keys ≡ with_character once.old.keys c) }
    ensures again { OnOk result (again.new.keys ≡ with_repeated once.old.keys again.old.keys c) }
{
    if once.contains(&c) {
        again.insert(c)?;
    }
    once.insert(c)?;
    Ok(())
}

/// Appends a note at each rule that puts the character of its key, if the character is not among others.
fn add_rules_same(
    found: &mut Vec<Warning>,
    pressed: &IndexSet<char>,
    again: &IndexSet<char>,
    rules: &[RuleDef],
) -> Result<(), Memory>
    ensures { OnOk result (found.new.items ≡ found.old.items ++ flat_map (rule_same pressed.now.keys again.now.keys) rules.now) }
{
    for rule in rules {
        add_rule_same(found, pressed, again, rule)?;
    }
    Ok(())
}

/// Appends a note at a rule that puts the character of its key, if the character is not among others.
fn add_rule_same(
    found: &mut Vec<Warning>,
    pressed: &IndexSet<char>,
    again: &IndexSet<char>,
    rule: &RuleDef,
) -> Result<(), Memory>
    ensures { OnOk result (found.new.items ≡ found.old.items ++ rule_same pressed.now.keys again.now.keys rule.now) }
{
    if is_free(rule) && puts_key(pressed, again, &rule.key, rule.output.as_slice()) {
        found.push(Warning {
            line: rule.line,
            kind: WarningKind::KeyGivesTheSame,
        })?;
    }
    Ok(())
}

/// Returns whether an output is the character of a key that presses produce and that is not among others.
fn puts_key(
    pressed: &IndexSet<char>,
    again: &IndexSet<char>,
    key: &Option<SrcItem>,
    output: &[SrcItem],
) -> bool
    ensures { result ≡ puts_key pressed.now.keys again.now.keys key.now output.now }
{
    match (key, output) {
        (Some(SrcItem::Char(c)), [SrcItem::Char(put)]) => *c == *put && is_lone(pressed, again, *c),
        _ => false,
    }
}

/// Returns whether a character is among the pressed ones, and not among others.
fn is_lone(pressed: &IndexSet<char>, again: &IndexSet<char>, c: char) -> bool
    ensures { result ≡ is_lone pressed.now.keys again.now.keys c }
{
    pressed.contains(&c) && !again.contains(&c)
}
