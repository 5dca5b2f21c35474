//! The positions of a context, each with the items that it can have.

ghost use Rattle.std.specs.Prelude.{◌≡◌, ◌+◌, ◌≤◌, ◌++◌, [], length};
ghost use Rattle.kmn_base.specs.declared.limits.TheConstants.{CONTEXT_ITEMS};
ghost use Rattle.rule_model.specs.Patterns.{is_matched};
ghost use Rattle.rule_shadow.specs.Places.{first_given, store_range, range_at, stated_range, range_of, places_from};

use crate::cert::{Place, Range};
use crate::flagged::FlaggedTables;
use arrayvec::ArrayVec;
use kmn_base::Item;
use kmn_base::limits::CONTEXT_ITEMS;
use kmn_base::slices::behind;
use rule_model::Pat;

/// Returns the positions of a context. Some of them may be narrowed.
pub fn places(
    tables: &FlaggedTables,
    narrowing: &[Option<Item>],
    context: &[Pat],
) -> ArrayVec<Place, CONTEXT_ITEMS>
    requires { length context.now ≤ CONTEXT_ITEMS }
    ensures { result.items ≡ places_from tables.now narrowing.now [] context.now }
{
    let mut places = ArrayVec::new();
    let mut seen = ArrayVec::new();
    add_places(tables, narrowing, context, &mut seen, &mut places);
    places
}

/// Appends the positions of a context, given the ranges of the items before it.
fn add_places(
    tables: &FlaggedTables,
    narrowing: &[Option<Item>],
    context: &[Pat],
    seen: &mut ArrayVec<Range, CONTEXT_ITEMS>,
    places: &mut ArrayVec<Place, CONTEXT_ITEMS>,
)
    requires seen { length seen.old.items + length context.now ≤ CONTEXT_ITEMS }
    requires places { length places.old.items + length context.now ≤ CONTEXT_ITEMS }
    ensures { places.new.items ≡ places.old.items ++ places_from tables.now narrowing.now seen.old.items context.now }
{
    let [pattern, rest @ ..] = context else {
        return;
    };
    if !pattern.is_matched() {
        seen.push(Range::Unknown);
        add_places(tables, narrowing, rest, seen, places);
        return;
    }
    let range = range_of(tables, seen.as_slice(), first_given(narrowing), *pattern);
    places.push(Place {
        pattern: *pattern,
        range,
    });
    seen.push(range);
    add_places(tables, behind(narrowing, 1), rest, seen, places);
}

/// Returns the range of a pattern: the item to which its position is narrowed, if any, or the range that the pattern states.
fn range_of(tables: &FlaggedTables, seen: &[Range], given: Option<Item>, pattern: Pat) -> Range
    ensures { result ≡ range_of tables.now seen.now given pattern }
{
    match given {
        Some(item) => Range::One(item),
        None => stated_range(tables, seen, pattern),
    }
}

/// Returns the range that a pattern states, given the ranges of the items before it.
fn stated_range(tables: &FlaggedTables, seen: &[Range], pattern: Pat) -> Range
    ensures { result ≡ stated_range tables.now seen.now pattern }
{
    match pattern {
        Pat::Char(c) => Range::One(Item::Char(c)),
        Pat::Mark(m) => Range::One(Item::Mark(m)),
        Pat::Any(store) | Pat::Index(store, _) => store_range(tables, store),
        Pat::ContextAt(offset) => range_at(seen, offset),
        _ => Range::Unknown,
    }
}

/// Returns the range of the items of a store, which is unknown if the store is an option.
fn store_range(tables: &FlaggedTables, store: u32) -> Range
    ensures { result ≡ store_range tables.now store }
{
    if tables.is_fixed(store) {
        Range::Store(store)
    } else {
        Range::Unknown
    }
}

/// Returns the range of an earlier context item. Offsets count from 1.
fn range_at(seen: &[Range], offset: u32) -> Range
    ensures { result ≡ range_at seen.now offset }
{
    match (offset as usize).checked_sub(1) {
        Some(before) => seen.get(before).copied().unwrap_or(Range::Unknown),
        None => Range::Unknown,
    }
}

/// Returns the item to which the first position is narrowed, if any.
fn first_given(narrowing: &[Option<Item>]) -> Option<Item>
    ensures { result ≡ first_given narrowing.now }
{
    match narrowing {
        [] => None,
        [given, ..] => *given,
    }
}
