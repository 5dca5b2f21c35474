//! The forms of the items that begin with a word, and the item that tokens in such a form denote.

ghost use Rattle.std.specs.Prelude.{◌≡◌, ◌<◌, ◌≤◌, IfOk, length, drop};
ghost use Rattle.kmn_items.specs.TokenTexts.{texts, text_at, quoted};
ghost use Rattle.kmn_items.specs.Numbers.{offset_value};
ghost use Rattle.kmn_items.specs.Forms.{word_slots, equal_at, option_id, system_condition, condition, system_setting, setting, layer_item, word_item};

use crate::numbers::offset_value;
use crate::syntax::{ItemWord, Slot, Where};
use crate::text::{LineTokens, quoted};
use crate::words::{bare_name, is_system_name};
use kmn_base::names::named_in;
use kmn_base::slices::behind;
use kmn_base::{Memory, Seq};
use kmn_lines::TokenKind;
use rule_model::SrcItem;
use rule_model::system::{LAYER, PLATFORM};
use std::alloc::Global;

/// The form of an item of one word.
const WORD_ALONE: [Slot; 1] = [Slot::Lead];

/// The form of `$` and a name.
const DOLLAR: [Slot; 1] = [Slot::DollarName];

/// The form of a word and a name in parentheses.
const NAMED: [Slot; 4] = [Slot::Lead, Slot::Open, Slot::Name, Slot::Close];

/// The form of a word and any one token in parentheses.
const WITH_ARGUMENT: [Slot; 4] = [Slot::Lead, Slot::Open, Slot::Argument, Slot::Close];

/// The form of a word and a value in parentheses.
const WITH_VALUE: [Slot; 4] = [Slot::Lead, Slot::Open, Slot::Value, Slot::Close];

/// The form of a word and an offset in parentheses.
const WITH_OFFSET: [Slot; 4] = [Slot::Lead, Slot::Open, Slot::Offset, Slot::Close];

/// The form of `index`.
const INDEX: [Slot; 6] = [
    Slot::Lead,
    Slot::Open,
    Slot::Name,
    Slot::Comma,
    Slot::Offset,
    Slot::Close,
];

/// The form of `if`.
const COMPARED: [Slot; 6] = [
    Slot::Lead,
    Slot::Open,
    Slot::StoreName,
    Slot::Comparison,
    Slot::Value,
    Slot::Close,
];

/// The form of `set`.
const ASSIGNED: [Slot; 6] = [
    Slot::Lead,
    Slot::Open,
    Slot::StoreName,
    Slot::Equal,
    Slot::Value,
    Slot::Close,
];

/// The system options that an item can name after `&`, each with its id.
static OPTION_IDS: [(&str, u32); 2] = [("platform", PLATFORM), ("layer", LAYER)];

/// Returns the form of the item of a word, its own word first.
pub(crate) fn word_slots(word: ItemWord) -> &'static [Slot]
    ensures slots { result.now ≡ word_slots word }
    ensures some { 0 < length result.now }
    ensures few { length result.now ≤ 6 }
{
    match word {
        ItemWord::Index => &INDEX,
        ItemWord::ContextAt => &WITH_OFFSET,
        ItemWord::If => &COMPARED,
        ItemWord::Set => &ASSIGNED,
        ItemWord::Dollar => &DOLLAR,
        ItemWord::Layer | ItemWord::Platform => &WITH_VALUE,
        ItemWord::Call | ItemWord::Switch | ItemWord::BaseLayout => &WITH_ARGUMENT,
        ItemWord::Context
        | ItemWord::Nul
        | ItemWord::Beep
        | ItemWord::Return
        | ItemWord::ClearContext
        | ItemWord::Fix => &WORD_ALONE,
        _ => &NAMED,
    }
}

/// Returns the item of a word in a section, from tokens in its form. Errors: `Memory` if an allocation fails.
pub(crate) fn word_item(
    alloc: Global,
    place: Where,
    word: ItemWord,
    tokens: LineTokens<'_>,
) -> Result<SrcItem, Memory>
    ensures { IfOk result (λ item. item ≡ word_item place word (texts tokens.entry)) }
{
    match word {
        ItemWord::Dead => Ok(SrcItem::Dead(tokens.name(alloc, 2)?)),
        ItemWord::Any => Ok(SrcItem::Any(tokens.name(alloc, 2)?)),
        ItemWord::NotAny => Ok(SrcItem::NotAny(tokens.name(alloc, 2)?)),
        ItemWord::Outs => Ok(SrcItem::Outs(tokens.name(alloc, 2)?)),
        ItemWord::Use => Ok(SrcItem::Enter(tokens.name(alloc, 2)?)),
        ItemWord::Save => Ok(SrcItem::Save(tokens.name(alloc, 2)?)),
        ItemWord::Reset => Ok(SrcItem::Reset(tokens.name(alloc, 2)?)),
        ItemWord::Call => Ok(SrcItem::Call(tokens.name(alloc, 2)?)),
        ItemWord::If => condition(alloc, tokens),
        ItemWord::Set => setting(alloc, tokens),
        ItemWord::Dollar => dollar_item(alloc, tokens),
        ItemWord::Index => index_item(alloc, tokens),
        ItemWord::ContextAt => Ok(SrcItem::ContextAt(offset_value(tokens.text(2)))),
        ItemWord::Context => Ok(SrcItem::Context),
        ItemWord::Nul => Ok(SrcItem::Nul),
        ItemWord::Beep => Ok(SrcItem::Beep),
        ItemWord::Return => Ok(SrcItem::Stop),
        ItemWord::Layer => Ok(layer_item(place, quoted(alloc, tokens.text(2))?)),
        ItemWord::Platform => {
            let value = quoted(alloc, tokens.text(2))?;
            Ok(SrcItem::SystemEqual(PLATFORM, value))
        }
        ItemWord::Switch | ItemWord::ClearContext | ItemWord::Fix | ItemWord::BaseLayout => {
            Ok(SrcItem::OutOfProfile)
        }
    }
}

/// Returns the condition of tokens in the form of `if`. Errors: `Memory` if an allocation fails.
fn condition(alloc: Global, tokens: LineTokens<'_>) -> Result<SrcItem, Memory>
    ensures { IfOk result (λ item. item ≡ condition (text_at 2 (texts tokens.entry)) (equal_at 3 (texts tokens.entry)) (quoted (text_at 4 (texts tokens.entry)))) }
{
    let store = tokens.text(2);
    let equal = equal_at(3, tokens);
    let value = quoted(alloc, tokens.text(4))?;
    if is_system_name(store) {
        return Ok(system_condition(option_id(store), equal, value));
    }
    let name = tokens.name(alloc, 2)?;
    if equal {
        Ok(SrcItem::Equal(name, value))
    } else {
        Ok(SrcItem::Unequal(name, value))
    }
}

/// Returns whether the token at an index is `=`.
#[tactic(auto, using(crate::proofs::TextLemmas::get_with_texts))]
fn equal_at(place: usize, tokens: LineTokens<'_>) -> bool
    ensures { result ≡ equal_at place (texts tokens.entry) }
{
    match tokens.tokens.get(place) {
        Some(token) => matches!(token.kind, TokenKind::Equal),
        None => false,
    }
}

/// Returns a condition on a system option. Other system stores are not supported.
fn system_condition(id: Option<u32>, equal: bool, value: Seq<char>) -> SrcItem
    ensures { result ≡ system_condition id equal value }
{
    match id {
        Some(id) if equal => SrcItem::SystemEqual(id, value),
        Some(id) => SrcItem::SystemUnequal(id, value),
        None => SrcItem::OutOfProfile,
    }
}

/// Returns the id of the system option with a name, and None for another system store.
#[tactic(auto, unfolding(crate::specs::Forms::option_ids))]
fn option_id(name: &[u8]) -> Option<u32>
    ensures { result ≡ option_id name.now }
{
    named_in(&OPTION_IDS, bare_name(name))
}

/// Returns the `set` of tokens in the form of `set`. Errors: `Memory` if an allocation fails.
fn setting(alloc: Global, tokens: LineTokens<'_>) -> Result<SrcItem, Memory>
    ensures { IfOk result (λ item. item ≡ setting (text_at 2 (texts tokens.entry)) (quoted (text_at 4 (texts tokens.entry)))) }
{
    let store = tokens.text(2);
    let value = quoted(alloc, tokens.text(4))?;
    if is_system_name(store) {
        return Ok(system_setting(option_id(store), value));
    }
    Ok(SrcItem::Set(tokens.name(alloc, 2)?, value))
}

/// Returns a `set` of a system option. Only the layer is supported.
fn system_setting(id: Option<u32>, value: Seq<char>) -> SrcItem
    ensures { result ≡ system_setting id value }
{
    match id {
        Some(id) if id == LAYER => SrcItem::SetSystem(id, value),
        _ => SrcItem::OutOfProfile,
    }
}

/// Returns the item of `$` and a name. Errors: `Memory` if an allocation fails.
fn dollar_item(alloc: Global, tokens: LineTokens<'_>) -> Result<SrcItem, Memory>
    ensures { IfOk result (λ item. item ≡ SrcItem.Outs (drop 1 (text_at 0 (texts tokens.entry)))) }
{
    let name = behind(tokens.text(0), 1);
    Ok(SrcItem::Outs(Seq::from_slice(alloc, name)?))
}

/// Returns the item of tokens in the form of `index`. Errors: `Memory` if an allocation fails.
fn index_item(alloc: Global, tokens: LineTokens<'_>) -> Result<SrcItem, Memory>
    ensures { IfOk result (λ item. item ≡ SrcItem.Index (text_at 2 (texts tokens.entry)) (offset_value (text_at 4 (texts tokens.entry)))) }
{
    let offset = offset_value(tokens.text(4));
    Ok(SrcItem::Index(tokens.name(alloc, 2)?, offset))
}

/// Returns the item of `layer`, which sets the layer in an output and is a condition elsewhere.
fn layer_item(place: Where, value: Seq<char>) -> SrcItem
    ensures { result ≡ layer_item place value }
{
    match place {
        Where::Output => SrcItem::SetSystem(LAYER, value),
        _ => SrcItem::SystemEqual(LAYER, value),
    }
}
