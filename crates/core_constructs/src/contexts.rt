//! Contexts that Keyman's own engine reads differently.

ghost use Rattle.std.specs.Prelude.{◌≡◌, count_by, slice_get};
ghost use Rattle.std.specs.List.{list_any};
ghost use Rattle.rule_model.specs.Patterns.{is_nul};
ghost use Rattle.core_constructs.specs.Contexts.{is_unmatched, begins_with_nul, has_late_nul, unmatched_before, is_moved_pattern, is_moved_output, has_offset, puts_by_offset, counts_differently, asks_layer, is_blank, has_empty_word, asks_empty_word, asks_from_option, asks_unput};

use kmn_base::slices::{before, behind};
use kmn_base::{Element, LineSet};
use rule_model::system::{LAYER, PLATFORM};
use rule_model::{Out, Pat, Tables};

/// Returns whether a context has a `nul` that isn't its first item.
pub(crate) fn has_late_nul(context: &[Pat]) -> bool
    ensures { result ≡ has_late_nul context.now }
{
    behind(context, 1).iter().any(|item| item.is_nul())
}

/// Returns whether an offset of a context, or of the live items of an output, is counted differently.
#[tactic(auto, unfolding(crate::specs::Contexts::counts_differently))]
pub(crate) fn counts_differently(context: &[Pat], items: &[Out]) -> bool
    ensures { result ≡ counts_differently context.now items.now }
{
    some_moved_pattern(context)
        || some_moved_output(context, items)
        || begins_with_nul(context) && (some_offset(context) || some_put_by_offset(items))
}

/// Returns whether an item of a context repeats an item that has a condition or `nul` before it.
fn some_moved_pattern(context: &[Pat]) -> bool
    ensures { result ≡ list_any (is_moved_pattern context.now) context.now }
{
    context.iter().any(|item| is_moved_pattern(context, item))
}

fn is_moved_pattern(context: &[Pat], item: &Pat) -> bool
    ensures { result ≡ is_moved_pattern context.now item.now }
{
    match item {
        Pat::ContextAt(offset) => unmatched_before(context, *offset) != 0,
        _ => false,
    }
}

/// Returns whether one of the items of an output puts another item of the context there.
fn some_moved_output(context: &[Pat], items: &[Out]) -> bool
    ensures { result ≡ list_any (is_moved_output context.now) items.now }
{
    items.iter().any(|item| is_moved_output(context, item))
}

fn is_moved_output(context: &[Pat], item: &Out) -> bool
    ensures { result ≡ is_moved_output context.now item.now }
{
    match item {
        Out::ContextAt(offset) => {
            let place = (*offset as usize).saturating_sub(1);
            let there = place.saturating_sub(unmatched_count(context));
            there != place.saturating_sub(unmatched_before(context, *offset))
        }
        _ => false,
    }
}

/// Returns the number of conditions and `nul` before the item at an offset from 1.
fn unmatched_before(context: &[Pat], offset: u32) -> usize
    ensures { result ≡ unmatched_before context.now offset }
{
    unmatched_count(before(context, (offset as usize).saturating_sub(1)))
}

/// Returns the number of conditions and `nul` of a context.
fn unmatched_count(context: &[Pat]) -> usize
    ensures { result ≡ count_by is_unmatched context.now }
{
    context.iter().filter(|item| !item.is_matched()).count()
}

/// Returns whether the first item of a context is `nul`.
pub(crate) fn begins_with_nul(context: &[Pat]) -> bool
    ensures { result ≡ begins_with_nul context.now }
{
    match context {
        [item, ..] => item.is_nul(),
        [] => false,
    }
}

/// Returns whether an item of a context names another item by its offset.
fn some_offset(context: &[Pat]) -> bool
    ensures { result ≡ list_any has_offset context.now }
{
    context.iter().any(|item| has_offset(item))
}

fn has_offset(item: &Pat) -> bool
    ensures { result ≡ has_offset item.now }
{
    matches!(item, Pat::Index(_, _) | Pat::ContextAt(_))
}

/// Returns whether one of the items of an output names a context item by its offset.
fn some_put_by_offset(items: &[Out]) -> bool
    ensures { result ≡ list_any puts_by_offset items.now }
{
    items.iter().any(|item| puts_by_offset(item))
}

fn puts_by_offset(item: &Out) -> bool
    ensures { result ≡ puts_by_offset item.now }
{
    matches!(item, Out::Index(_, _) | Out::ContextAt(_))
}

/// Returns whether a context has a condition on the layer.
pub(crate) fn some_asks_layer(context: &[Pat]) -> bool
    ensures { result ≡ list_any asks_layer context.now }
{
    context.iter().any(|item| asks_layer(item))
}

fn asks_layer(item: &Pat) -> bool
    ensures { result ≡ asks_layer item.now }
{
    match item {
        Pat::SystemEqual(id, _) | Pat::SystemUnequal(id, _) => *id == LAYER,
        _ => false,
    }
}

/// Returns whether a context has a condition on the platform with an empty word.
pub(crate) fn some_asks_empty_word(tables: &Tables, context: &[Pat]) -> bool
    ensures { result ≡ list_any (asks_empty_word tables.now.stores) context.now }
{
    context.iter().any(|item| asks_empty_word(tables, item))
}

fn asks_empty_word(tables: &Tables, item: &Pat) -> bool
    ensures { result ≡ asks_empty_word tables.now.stores item.now }
{
    match item {
        Pat::SystemEqual(id, value) | Pat::SystemUnequal(id, value) => {
            *id == PLATFORM && has_empty_word(tables.elements(*value))
        }
        _ => false,
    }
}

/// Returns whether a value is empty, or begins or ends with a space.
fn has_empty_word(value: &[Element]) -> bool
    ensures { result ≡ has_empty_word value.now }
{
    is_blank_at(value, 0) || is_blank_at(value, value.len().saturating_sub(1))
}

/// Returns whether the element at an index is a space, or there is none.
fn is_blank_at(value: &[Element], index: usize) -> bool
    ensures { result ≡ is_blank (slice_get value.now index) }
{
    match value.get(index) {
        Some(Element::Char(c)) => *c == ' ',
        Some(_) => false,
        None => true,
    }
}

/// Returns whether a context has a condition whose value store is an option.
pub(crate) fn some_asks_from_option(options: &LineSet, context: &[Pat]) -> bool
    ensures { result ≡ list_any (asks_from_option options.now) context.now }
{
    context.iter().any(|item| asks_from_option(options, item))
}

fn asks_from_option(options: &LineSet, item: &Pat) -> bool
    ensures { result ≡ asks_from_option options.now item.now }
{
    match item {
        Pat::Equal(_, value)
        | Pat::Unequal(_, value)
        | Pat::SystemEqual(_, value)
        | Pat::SystemUnequal(_, value) => options.has(*value),
        _ => false,
    }
}

/// Returns whether a context has a mark that isn't one of those that outputs put.
pub(crate) fn some_asks_unput(marks: &LineSet, context: &[Pat]) -> bool
    ensures { result ≡ list_any (asks_unput marks.now) context.now }
{
    context.iter().any(|item| asks_unput(marks, item))
}

fn asks_unput(marks: &LineSet, item: &Pat) -> bool
    ensures { result ≡ asks_unput marks.now item.now }
{
    match item {
        Pat::Mark(mark) => !marks.has(u32::from(*mark)),
        _ => false,
    }
}
