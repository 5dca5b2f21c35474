//! Selects a record by testing the records of a group in their order, as the definition does.

ghost use Rattle.std.specs.Prelude.{◌≡◌, ◌≤◌, [], Some, None, IsTrue, IfOk, length, map, option_map, if◌then◌else◌};
ghost use Rattle.std.specs.List.{list_all, list_any};
ghost use Rattle.rule_model.specs.Match.{takes_item, matches, place_for, catches_from};
ghost use Rattle.rule_model.specs.Hold.{is_true, is_at_start, pattern_count, has_room, caught_by, holds};
ghost use Rattle.rule_model.specs.Choose.{first};
ghost use Rattle.rule_model.specs.System.{is_equal, system_ref};
ghost use Rattle.rule_model.specs.Act.{content_now};
ghost use Rattle.rule_model.specs.Enter.{chosen_in};
ghost use Rattle.rule_model.specs.Tab.{tab, tab_pattern, tab_rule, tab_group};
ghost use Rattle.rule_model.specs.Plain.{caught_last};

use crate::contents::{content, element, system_content};
use crate::elements::{item_caught, place_caught, same_value};
use indexed_tables::{IndexedTables, has_words};
use kmn_base::{Element, Item, KeyPress, Memory, RuleKey, Seq};
use rule_model::system::PLATFORM;
use rule_model::{
    Catch, Caught, EventState, Group, Pat, Rule, is_element, is_item, is_same, place_of,
};
use virtual_keys::fits;

/// Returns the record that a group selects in a state, and what it caught. Errors: `Memory` if an allocation fails.
#[tactic(auto, unfolding(rule_model::specs::Tab::tab))]
pub fn chosen_in<'a>(
    indexed: &IndexedTables,
    press: KeyPress,
    state: &EventState,
    group: &'a Group,
) -> Result<Option<(&'a Rule, Caught)>, Memory>
    ensures { IfOk result (λ chosen. option_map (λ c. (tab_rule indexed.now.stores group.now.using_keys c.0.now, c.1)) chosen ≡ chosen_in
        (tab indexed.now) press (tab_group indexed.now.stores group.now) state.now) }
{
    let rules = group.rules.as_slice();
    let chosen = first_of(indexed, press, state, group.using_keys, rules)?;
    Ok(chosen)
}

/// Returns the first of some records that holds in a state, and what it caught. Errors: `Memory` if an allocation fails.
fn first_of<'a>(
    indexed: &IndexedTables,
    press: KeyPress,
    state: &EventState,
    using_keys: bool,
    rules: &'a [Rule],
) -> Result<Option<(&'a Rule, Caught)>, Memory>
    ensures { IfOk result (λ chosen. option_map (λ c. (tab_rule indexed.now.stores using_keys c.0.now, c.1)) chosen ≡ first
        (holds (content_now (tab indexed.now) state.now) state.now.left press) (map (tab_rule indexed.now.stores using_keys) rules.now)) }
{
    for rule in rules {
        if let Some(caught) = holds(indexed, press, state, using_keys, rule)? {
            return Ok(Some((rule, caught)));
        }
    }
    Ok(None)
}

/// Returns what a record caught if it holds in a state. Errors: `Memory` if an allocation fails.
fn holds(
    indexed: &IndexedTables,
    press: KeyPress,
    state: &EventState,
    using_keys: bool,
    rule: &Rule,
) -> Result<Option<Caught>, Memory>
    ensures { IfOk result (λ caught. caught ≡ holds
        (content_now (tab indexed.now) state.now) state.now.left press (tab_rule indexed.now.stores using_keys rule.now)) }
{
    let context = rule.context.as_slice();
    if !conditions_hold(indexed, state, context) || !fits(key_of(using_keys, rule), press) {
        return Ok(None);
    }
    Ok(with_catches(caught_last(indexed, state, context, state.left.as_slice())?))
}

/// Returns whether the conditions of a context are true in a state.
fn conditions_hold(indexed: &IndexedTables, state: &EventState, context: &[Pat]) -> bool
    ensures { result ≡ list_all
        (is_true (content_now (tab indexed.now) state.now)) (map (tab_pattern indexed.now.stores) context.now) }
{
    for pattern in context {
        if !is_true(indexed, state, *pattern) {
            return false;
        }
    }
    true
}

/// Returns whether a condition is true in a state. Any other item of a context counts as true.
fn is_true(indexed: &IndexedTables, state: &EventState, pattern: Pat) -> bool
    ensures { result ≡ is_true (content_now (tab indexed.now) state.now) (tab_pattern indexed.now.stores pattern) }
{
    match pattern {
        Pat::Equal(store, value) => {
            same_value(content(indexed, state, store), indexed.elements(value))
        }
        Pat::Unequal(store, value) => {
            !same_value(content(indexed, state, store), indexed.elements(value))
        }
        Pat::SystemEqual(id, value) => is_system_equal(indexed, state, id, indexed.elements(value)),
        Pat::SystemUnequal(id, value) => !is_system_equal(
            indexed,
            state,
            id,
            indexed.elements(value),
        ),
        _ => true,
    }
}

/// Returns whether a system option has the value that a condition for equality requires.
#[tactic(auto, using(std::proofs::lemmas::Bool::Decides::nat_tests))]
fn is_system_equal(indexed: &IndexedTables, state: &EventState, id: u32, value: &[Element]) -> bool
    ensures { result ≡ is_equal (system_ref id) (content_now (tab indexed.now) state.now (system_ref id)) value.now }
{
    let held = system_content(indexed, state, id);
    if id == PLATFORM {
        has_words(held, value)
    } else {
        same_value(held, value)
    }
}

/// Returns the key of a record. In a group without keys, each press fits.
fn key_of(using_keys: bool, rule: &Rule) -> RuleKey
    ensures { result ≡ (if using_keys then rule.now.key else RuleKey.Any) }
{
    if using_keys { rule.key } else { RuleKey::Any }
}

/// Returns what was caught with a key that is not a store.
fn with_catches(catches: Option<Vec<Catch>>) -> Option<Caught>
    ensures { result ≡ caught_by (option_map (λ caught. caught.items) catches) (Some None) }
{
    let catches = Seq::from_vec(catches?);
    Some(Caught {
        catches,
        key_place: None,
    })
}

/// Returns what a context catches in the last items of a list, if it has enough items. Errors: `Memory` if an allocation fails.
fn caught_last(
    indexed: &IndexedTables,
    state: &EventState,
    context: &[Pat],
    left: &[Item],
) -> Result<Option<Vec<Catch>>, Memory>
    ensures { IfOk result (λ caught. option_map (λ catches. catches.items) caught ≡ caught_last
        (content_now (tab indexed.now) state.now) (map (tab_pattern indexed.now.stores) context.now) left.now) }
{
    if !has_room(context, left) {
        return Ok(None);
    }
    let last = &left[left.len() - pattern_count(context)..];
    let caught = catches_from(indexed, state, Vec::new(indexed.alloc()), context, last)?;
    Ok(caught)
}

/// Returns whether the left list has at least as many items as a context matches, and with a `nul` exactly as many.
fn has_room(context: &[Pat], left: &[Item]) -> bool
    ensures value { result ≡ has_room (map (tab_pattern []) context.now) left.now }
    ensures enough { IsTrue result → pattern_count (map (tab_pattern []) context.now) ≤ length left.now }
{
    let count = pattern_count(context);
    if has_nul(context) {
        left.len() == count
    } else {
        count <= left.len()
    }
}

/// Returns the number of items of the text that a context matches, whatever its stores are.
fn pattern_count(context: &[Pat]) -> usize
    ensures { result ≡ pattern_count (map (tab_pattern []) context.now) }
{
    context
        .iter()
        .filter(|pattern| takes_item(**pattern))
        .count()
}

/// Returns whether a pattern matches an item of the text, whatever the stores are.
fn takes_item(pattern: Pat) -> bool
    ensures { result ≡ takes_item (tab_pattern [] pattern) }
{
    !matches!(
        &pattern,
        Pat::Equal(..) | Pat::Unequal(..) | Pat::SystemEqual(..) | Pat::SystemUnequal(..) | Pat::Nul
    )
}

/// Returns whether an item is the one that a pattern requires, after what was caught so far.
fn matches(
    indexed: &IndexedTables,
    state: &EventState,
    seen: &[Catch],
    pattern: Pat,
    item: Item,
) -> bool
    ensures { result ≡ matches
        (content_now (tab indexed.now) state.now) seen.now (tab_pattern indexed.now.stores pattern) item }
{
    match pattern {
        Pat::Char(c) => is_item(item, Element::Char(c)),
        Pat::Mark(m) => is_item(item, Element::Mark(m)),
        Pat::Any(store) => place_of(item, content(indexed, state, store)).is_some(),
        Pat::NotAny(store) => place_of(item, content(indexed, state, store)).is_none(),
        Pat::Index(store, offset) => {
            is_element(
                item,
                element(indexed, state, store, place_caught(seen, offset)),
            )
        }
        Pat::ContextAt(offset) => is_same(item, item_caught(seen, offset)),
        Pat::Equal(..)
        | Pat::Unequal(..)
        | Pat::SystemEqual(..)
        | Pat::SystemUnequal(..)
        | Pat::Nul => true,
    }
}

/// Returns whether a context has a `nul`.
fn has_nul(context: &[Pat]) -> bool
    ensures { result ≡ list_any is_at_start (map (tab_pattern []) context.now) }
{
    for pattern in context {
        if *pattern == Pat::Nul {
            return true;
        }
    }
    false
}

/// Returns what the patterns of a context catch in a text, after what was caught so far. Errors: `Memory` if an allocation fails.
fn catches_from(
    indexed: &IndexedTables,
    state: &EventState,
    mut seen: Vec<Catch>,
    patterns: &[Pat],
    text: &[Item],
) -> Result<Option<Vec<Catch>>, Memory>
    ensures { IfOk result (λ caught. option_map (λ catches. catches.items) caught ≡ catches_from
        (content_now (tab indexed.now) state.now) seen.items (map (tab_pattern indexed.now.stores) patterns.now) text.now) }
{
    let [pattern, rest @ ..] = patterns else {
        return Ok(if text.is_empty() { Some(seen) } else { None });
    };
    if !takes_item(*pattern) {
        seen.push(Catch {
            item: None,
            place: None,
        })?;
        return catches_from(indexed, state, seen, rest, text);
    }
    let [item, behind @ ..] = text else {
        return Ok(None);
    };
    if !matches(indexed, state, seen.as_slice(), *pattern, *item) {
        return Ok(None);
    }
    let place = place_for(indexed, state, *pattern, *item);
    seen.push(Catch {
        item: Some(*item),
        place,
    })?;
    catches_from(indexed, state, seen, rest, behind)
}

/// Returns the position that a pattern catches of an item that it matches.
fn place_for(indexed: &IndexedTables, state: &EventState, pattern: Pat, item: Item) -> Option<usize>
    ensures { result ≡ place_for
        (content_now (tab indexed.now) state.now) (tab_pattern indexed.now.stores pattern) item }
{
    match pattern {
        Pat::Any(store) => place_of(item, content(indexed, state, store)),
        _ => None,
    }
}
