//! Decides whether a record covers another, by their contexts and conditions. `key_cover` compares their keys.

ghost use Rattle.std.specs.Prelude.{◌≡◌, length, filter_map};
ghost use Rattle.std.specs.List.{list_all, list_any};
ghost use Rattle.rule_model.specs.Match.{item_of, same_value};
ghost use Rattle.rule_shadow.specs.Places.{patterns_of};
ghost use Rattle.rule_shadow.specs.Covers.{covers_item, covers_range, same_store, covers_place, cover_each, cover_last, same_condition, is_condition_of, is_nul, keeps_nul, covers_rule};

use crate::cert::{Place, Range};
use crate::flagged::FlaggedTables;
use crate::key_cover::covers_key;
use kmn_base::{Element, Item};
use rule_model::{Pat, Rule, is_item, item_of};

/// Returns whether a pattern covers a position: it is the same `any` or `notany`, or it matches each item of the range.
pub fn covers_place(tables: &FlaggedTables, pattern: Pat, place: Place) -> bool
    ensures { result ≡ covers_place tables.now pattern place }
{
    same_store(pattern, place.pattern) || covers_range(tables, pattern, place.range)
}

/// Returns whether two patterns are both `any` or both `notany` of one store.
fn same_store(a: Pat, b: Pat) -> bool
    ensures { result ≡ same_store a b }
{
    match a {
        Pat::Any(store) => b == Pat::Any(store),
        Pat::NotAny(store) => b == Pat::NotAny(store),
        _ => false,
    }
}

/// Returns whether a pattern matches each item of a range.
fn covers_range(tables: &FlaggedTables, pattern: Pat, range: Range) -> bool
    ensures { result ≡ covers_range tables.now pattern range }
{
    match range {
        Range::One(item) => covers_item(tables, pattern, item),
        Range::Store(store) => covers_items(tables, pattern, tables.elements(store)),
        Range::Unknown => false,
    }
}

/// Returns whether a pattern matches an item in every state.
fn covers_item(tables: &FlaggedTables, pattern: Pat, item: Item) -> bool
    ensures { result ≡ covers_item tables.now pattern item }
{
    match pattern {
        Pat::Char(c) => is_item(item, Element::Char(c)),
        Pat::Mark(m) => is_item(item, Element::Mark(m)),
        Pat::Any(store) => tables.is_fixed(store) && tables.has_item(store, item),
        Pat::NotAny(store) => tables.is_fixed(store) && !tables.has_item(store, item),
        _ => false,
    }
}

/// Returns whether a pattern matches each item among the elements of a store.
fn covers_items(tables: &FlaggedTables, pattern: Pat, elements: &[Element]) -> bool
    ensures { result ≡ list_all (covers_item tables.now pattern) (filter_map item_of elements.now) }
{
    for element in elements {
        if let Some(item) = item_of(*element) {
            if !covers_item(tables, pattern, item) {
                return false;
            }
        }
    }
    true
}

/// Returns the number of patterns of a context.
pub fn pattern_count(context: &[Pat]) -> usize
    ensures { result ≡ length (patterns_of context.now) }
{
    context
        .iter()
        .filter(|pattern| pattern.is_matched())
        .count()
}

/// Returns whether the patterns of a context cover the last positions, one by one.
pub fn cover_last(tables: &FlaggedTables, context: &[Pat], places: &[Place]) -> bool
    ensures { result ≡ cover_last tables.now (patterns_of context.now) places.now }
{
    let count = pattern_count(context);
    if count > places.len() {
        return false;
    }
    cover_each(tables, context, &places[places.len() - count..])
}

/// Returns whether each pattern of a context covers the position with its number.
fn cover_each(tables: &FlaggedTables, context: &[Pat], places: &[Place]) -> bool
    ensures { result ≡ cover_each tables.now (patterns_of context.now) places.now }
{
    let [pattern, rest @ ..] = context else {
        return true;
    };
    if !pattern.is_matched() {
        return cover_each(tables, rest, places);
    }
    let [place, behind @ ..] = places else {
        return false;
    };
    covers_place(tables, *pattern, *place) && cover_each(tables, rest, behind)
}

/// Returns whether a context has each condition of another context, `items`.
pub fn conditions_too(tables: &FlaggedTables, context: &[Pat], items: &[Pat]) -> bool
    ensures { result ≡ list_all (is_condition_of tables.now context.now) items.now }
{
    for item in items {
        if !is_condition_of(tables, context, *item) {
            return false;
        }
    }
    true
}

/// Returns whether an item is not a condition, or a context has the same condition.
fn is_condition_of(tables: &FlaggedTables, context: &[Pat], item: Pat) -> bool
    ensures { result ≡ is_condition_of tables.now context.now item }
{
    match item {
        Pat::Equal(..) | Pat::Unequal(..) | Pat::SystemEqual(..) | Pat::SystemUnequal(..) =>
            has_condition(tables, item, context),
        _ => true,
    }
}

/// Returns whether a context has a condition.
fn has_condition(tables: &FlaggedTables, condition: Pat, context: &[Pat]) -> bool
    ensures { result ≡ list_any (same_condition tables.now condition) context.now }
{
    for item in context {
        if same_condition(tables, condition, *item) {
            return true;
        }
    }
    false
}

/// Returns whether two conditions are the same: one option or system id, one comparison, and equal values.
fn same_condition(tables: &FlaggedTables, a: Pat, b: Pat) -> bool
    ensures { result ≡ same_condition tables.now a b }
{
    match (a, b) {
        (Pat::Equal(store, value), Pat::Equal(other, w))
        | (Pat::Unequal(store, value), Pat::Unequal(other, w))
        | (Pat::SystemEqual(store, value), Pat::SystemEqual(other, w))
        | (Pat::SystemUnequal(store, value), Pat::SystemUnequal(other, w)) => {
            store == other && same_value(tables.elements(value), tables.elements(w))
        }
        _ => false,
    }
}

/// Returns whether two values are equal, element by element.
#[tactic(auto, using(rule_model::proofs::SameElements::equal_values))]
fn same_value(value: &[Element], other: &[Element]) -> bool
    ensures { result ≡ same_value value.now other.now }
{
    value == other
}

/// Returns whether context `a` has no `nul`, or context `b` has one too and as many patterns as `a`.
pub fn keeps_nul(a: &[Pat], b: &[Pat]) -> bool
    ensures { result ≡ keeps_nul a.now b.now }
{
    !has_nul(a) || (has_nul(b) && pattern_count(a) == pattern_count(b))
}

/// Returns whether a context has a `nul`.
fn has_nul(context: &[Pat]) -> bool
    ensures { result ≡ list_any is_nul context.now }
{
    for item in context {
        if *item == Pat::Nul {
            return true;
        }
    }
    false
}

/// Returns whether record `q` covers record `r`, whose positions have these ranges: `q` holds whenever `r` holds.
pub fn covers_rule(
    tables: &FlaggedTables,
    using_keys: bool,
    places: &[Place],
    q: &Rule,
    r: &Rule,
) -> bool
    ensures { result ≡ covers_rule tables.now using_keys places.now q.now r.now }
{
    let of_q = q.context.as_slice();
    let of_r = r.context.as_slice();
    cover_last(tables, of_q, places)
        && conditions_too(tables, of_r, of_q)
        && keeps_nul(of_q, of_r)
        && (!using_keys || covers_key(q.key, r.key))
}
