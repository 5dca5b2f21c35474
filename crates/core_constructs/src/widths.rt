//! The units that items take in the text that Keyman's own engine keeps.

ghost use Rattle.std.specs.Prelude.{◌≡◌, ◌≤◌, map, IfOk};
ghost use Rattle.std.specs.List.{list_any};
ghost use Rattle.rule_model.specs.Patterns.{is_matched};
ghost use Rattle.core_constructs.specs.Widths.{char_units, element_units, most_units, store_units, widest, store_width, item_width, width_in, with_context, is_long};

use crate::contexts::begins_with_nul;
use crate::facts::Facts;
use kmn_base::{Element, Memory, Seq};
use rule_model::{Pat, Store};
use std::alloc::Global;

/// The units of the window.
const WINDOW_UNITS: u32 = 63;
/// One more than the units of the window, up to which spent units are counted.
const MOST_UNITS: u32 = 64;
/// The units of a mark, the widest item.
pub(crate) const MARK_UNITS: u32 = 3;

/// Returns whether a context can need more than the window has left after some units were spent.
#[tactic(auto, unfolding(crate::specs::Widths::is_long))]
pub(crate) fn is_long(facts: &Facts, spent: u32, context: &[Pat]) -> bool
    ensures { result ≡ is_long facts.now spent context.now }
{
    let units = with_context(facts, context, spent);
    WINDOW_UNITS < units && some_matched(context)
        || begins_with_nul(context) && WINDOW_UNITS - widest(facts) < units
}

/// Returns units with the most that a context matches, up to 64.
pub(crate) fn with_context(facts: &Facts, context: &[Pat], units: u32) -> u32
    ensures { result ≡ with_context facts.now context.now units }
{
    let mut total = units.min(MOST_UNITS);
    for item in context {
        total = (total + width_in(facts, context, item)).min(MOST_UNITS);
    }
    total
}

/// Returns whether an item of a context is matched with an item of the text.
fn some_matched(context: &[Pat]) -> bool
    ensures { result ≡ list_any is_matched context.now }
{
    context.iter().any(|item| item.is_matched())
}

/// Returns the most units that an item of a context matches.
fn width_in(facts: &Facts, context: &[Pat], item: &Pat) -> u32
    ensures is { result ≡ width_in facts.now context.now item.now }
    ensures few { result ≤ 3 }
{
    match item {
        Pat::ContextAt(offset) => match context.get((*offset as usize).saturating_sub(1)) {
            Some(repeated) => item_width(facts, repeated),
            None => MARK_UNITS,
        },
        _ => item_width(facts, item),
    }
}

/// Returns the most units that an item of a context matches, where a repeated item counts as any item.
fn item_width(facts: &Facts, item: &Pat) -> u32
    ensures is { result ≡ item_width facts.now item.now }
    ensures few { result ≤ 3 }
{
    match item {
        Pat::Char(c) => char_units(*c),
        Pat::Mark(_) | Pat::ContextAt(_) => MARK_UNITS,
        Pat::Any(store) | Pat::Index(store, _) => store_width(facts, *store),
        Pat::NotAny(_) => widest(facts),
        _ => 0,
    }
}

/// Returns the most units of an element of a store.
fn store_width(facts: &Facts, store: u32) -> u32
    ensures is { result ≡ store_width facts.now store }
    ensures few { result ≤ 3 }
{
    if facts.options.has(store) {
        return MARK_UNITS;
    }
    match facts.units.as_slice().get(store as usize) {
        Some(units) => (*units).min(MARK_UNITS),
        None => 0,
    }
}

/// Returns the most units of any item.
fn widest(facts: &Facts) -> u32
    ensures is { result ≡ widest facts.now }
    ensures few { result ≤ 3 }
{
    if facts.marks.first().is_some() {
        MARK_UNITS
    } else {
        2
    }
}

/// Returns the units of a character.
pub(crate) fn char_units(c: char) -> u32
    ensures is { result ≡ char_units c }
    ensures few { result ≤ 3 }
{
    if u32::from(c) < 0x1_0000 { 1 } else { 2 }
}

/// Returns the units of the widest element of each store.
pub(crate) fn units_of(alloc: Global, stores: &[Store]) -> Result<Seq<u32>, Memory>
    ensures { IfOk result (λ units. units ≡ map store_units stores.now) }
{
    let mut units = Seq::new(alloc);
    for store in stores {
        units.add(most_units(store.elements.as_slice()))?;
    }
    Ok(units)
}

/// Returns the units of the widest element.
fn most_units(elements: &[Element]) -> u32
    ensures { result ≡ most_units elements.now }
{
    let mut most = 0;
    for element in elements {
        most = element_units(element).max(most);
    }
    most
}

/// Returns the units of an element.
fn element_units(element: &Element) -> u32
    ensures { result ≡ element_units element.now }
{
    match element {
        Element::Char(c) => char_units(*c),
        Element::Mark(_) => MARK_UNITS,
        Element::Key { .. } => 0,
    }
}
