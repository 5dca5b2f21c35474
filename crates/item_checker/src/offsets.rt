//! Offsets, which refer to the items of a context and count them from 1.

ghost use Rattle.std.specs.Prelude.{◌≡◌, [], if◌then◌else◌};
ghost use Rattle.std.specs.Option.{option_copied};
ghost use Rattle.item_checker.specs.Items.{context_at_code, context_code, context_item_code, index_code, is_any_item, is_pattern_item, item_at, misses_any, misses_pattern, offset_code};

use kmn_base::Code;
use rule_model::SrcItem;

/// Returns whether an item is `any`.
pub fn is_any_item(item: &SrcItem) -> bool
    ensures { result ≡ is_any_item item.now }
{
    match item {
        SrcItem::Any(_) => true,
        _ => false,
    }
}

/// Returns the rule that `index` with an offset among these items breaks.
pub fn index_code(items: &[SrcItem], offset: u32) -> Option<Code>
    ensures { result ≡ index_code items.now offset }
{
    if misses_pattern(items, offset) {
        Some(Code::C08)
    } else if misses_any(items, offset) {
        Some(Code::C09)
    } else {
        None
    }
}

/// Returns whether an offset is outside these items, or refers to an item that is not a pattern.
fn misses_pattern(items: &[SrcItem], offset: u32) -> bool
    ensures { result ≡ misses_pattern items.now offset }
{
    match item_at(items, offset) {
        Some(item) => !is_pattern_item(item),
        None => true,
    }
}

/// Returns the item at an offset.
fn item_at(items: &[SrcItem], offset: u32) -> Option<&SrcItem>
    ensures { option_copied result ≡ item_at items.now offset }
{
    let place = offset.checked_sub(1)?;
    items.get(place as usize)
}

/// Returns whether an item of a context is matched with an item of the text.
fn is_pattern_item(item: &SrcItem) -> bool
    ensures { result ≡ is_pattern_item item.now }
{
    match item {
        SrcItem::Char(_) => true,
        SrcItem::Dead(_) => true,
        SrcItem::Any(_) => true,
        SrcItem::NotAny(_) => true,
        SrcItem::Index(_, _) => true,
        SrcItem::ContextAt(_) => true,
        _ => false,
    }
}

/// Returns whether an offset is outside these items, or refers to an item that is not `any`.
fn misses_any(items: &[SrcItem], offset: u32) -> bool
    ensures { result ≡ misses_any items.now offset }
{
    match item_at(items, offset) {
        Some(item) => !is_any_item(item),
        None => true,
    }
}

/// Returns the rule that `context(k)` with an offset among these items breaks.
pub fn context_at_code(items: &[SrcItem], offset: u32) -> Option<Code>
    ensures { result ≡ context_at_code items.now offset }
{
    if misses_pattern(items, offset) {
        Some(Code::C08)
    } else {
        None
    }
}

/// Returns the rule that an item with an offset breaks in match or nomatch.
pub fn offset_code(offset: u32) -> Option<Code>
    ensures { result ≡ offset_code offset }
{
    if offset == 0 {
        Some(Code::C08)
    } else {
        Some(Code::C12)
    }
}

/// Returns the first code of a context.
#[tactic(auto, using(crate::proofs::FirstItems::context_step))]
pub fn context_code(context: &[SrcItem]) -> Option<Code>
    ensures { result ≡ context_code [] context.now }
{
    for (at, item) in context.iter().enumerate() {
        match context_item_code(&context[..at], item) {
            Some(code) => return Some(code),
            None => {}
        }
    }
    None
}

/// Returns the rule that an item of a context breaks, after others.
fn context_item_code(before: &[SrcItem], item: &SrcItem) -> Option<Code>
    ensures { result ≡ context_item_code before.now item.now }
{
    match item {
        SrcItem::Index(_, offset) => index_code(before, *offset),
        SrcItem::ContextAt(offset) => context_at_code(before, *offset),
        SrcItem::OutOfProfile => Some(Code::C12),
        _ => None,
    }
}
