//! Reads one item at the beginning of tokens.

ghost use Rattle.std.specs.Prelude.{◌≡◌, ◌+◌, ◌≤◌, ◌<◌, ◌^◌, ◌∷◌, [], IfOk, length, map};
ghost use Rattle.kmn_items.specs.TokenTexts.{texts, fault, quoted, Reads};
ghost use Rattle.kmn_items.specs.Brackets.{modifier_count};
ghost use Rattle.kmn_items.specs.Item.{read_word, read_quoted, one_character, read_bracket, read_form, read_item};

use crate::brackets::{key_fault, key_item, modified_key, modifier_count};
use crate::forms::{word_item, word_slots};
use crate::leads::lead_of;
use crate::slots::broken;
use crate::standing::{is_crowded, misplaced_code, seen_count, seen_word, standing_code};
use crate::syntax::{ItemWord, Lead, LineError, Seen, Taken, TokenRefusal, Where};
use crate::text::{LineTokens, quoted};
use kmn_base::{Code, Memory, Seq};
use rule_model::SrcItem;
use std::alloc::Global;

/// The position at which an item is read: its section, what this has seen, the index of the line's last token, and the item's own index.
#[derive(Clone, Copy)]
pub(crate) struct Spot {
    pub(crate) place: Where,
    pub(crate) seen: Seen,
    pub(crate) last: usize,
    pub(crate) at: usize,
}

/// Returns the error of a rule that the token at an index breaks.
pub(crate) fn refused(at: usize, code: Code) -> LineError
    ensures { result ≡ LineError.Refused (fault at code) }
{
    LineError::Refused(TokenRefusal { at, code })
}

/// Returns one item at the beginning of tokens.
#[tactic(auto, unfolding(crate::specs::Item::read_item))]
pub(crate) fn read_item(
    alloc: Global,
    spot: Spot,
    tokens: LineTokens<'_>,
) -> Result<Taken, LineError>
    requires { spot.at + 1 + length (texts tokens) < 2 ^ 62 }
    ensures read { Reads (read_item spot.place spot.seen spot.last spot.at (texts tokens.entry)) result }
    ensures few { IfOk result (λ taken. taken.more ≤ length (texts tokens.entry) + 5) }
{
    let lead = lead_of(tokens);
    match standing_code(spot.place, spot.seen, lead) {
        Some(code) => Err(refused(spot.at, code)),
        None => read_form(alloc, spot, lead, tokens),
    }
}

/// Returns the item at the beginning of tokens, by the kind of the first token, if it is allowed there.
fn read_form(
    alloc: Global,
    spot: Spot,
    lead: Lead,
    tokens: LineTokens<'_>,
) -> Result<Taken, LineError>
    requires { spot.at + 1 + length (texts tokens) < 2 ^ 62 }
    ensures read { Reads (read_form spot.place spot.seen spot.last spot.at lead (texts tokens.entry)) result }
    ensures few { IfOk result (λ taken. taken.more ≤ length (texts tokens.entry) + 5) }
{
    match lead {
        Lead::Characters => read_quoted(alloc, spot, tokens.text(0)),
        Lead::One(c) => Ok(read_character(alloc, spot.seen, c)?),
        Lead::Named(word) => read_word(alloc, spot, word, tokens),
        Lead::Bracket => read_bracket(alloc, spot, tokens.behind(1)),
        Lead::Wrong(code) => Err(refused(spot.at, code)),
        Lead::Misplaced => Err(refused(spot.at, misplaced_code(spot.place))),
    }
}

/// Returns the characters of a quoted token, each an item.
fn read_quoted(alloc: Global, spot: Spot, text: &[u8]) -> Result<Taken, LineError>
    ensures read { Reads (read_quoted spot.place spot.seen spot.at (quoted text.now)) result }
    ensures few { IfOk result (λ taken. taken.more ≡ 0) }
{
    let characters = quoted(alloc, text)?;
    if is_crowded(spot.place, spot.seen, characters.len()) {
        return Err(refused(spot.at, Code::S05));
    }
    Ok(Taken {
        items: character_items(alloc, characters.as_slice())?,
        more: 0,
        seen: seen_count(spot.seen, characters.len()),
    })
}

/// Returns the characters as items. Errors: `Memory` if an allocation fails.
fn character_items(alloc: Global, characters: &[char]) -> Result<Seq<SrcItem>, Memory>
    ensures { IfOk result (λ items. items ≡ map SrcItem.Char characters.now) }
{
    let mut items = Vec::with_capacity(alloc, characters.len())?;
    for c in characters {
        items.push(SrcItem::Char(*c))?;
    }
    Ok(Seq::from_vec(items))
}

/// Returns a character as an item. Errors: `Memory` if an allocation fails.
fn read_character(alloc: Global, seen: Seen, c: char) -> Result<Taken, Memory>
    ensures { IfOk result (λ taken. taken ≡ one_character seen c) }
{
    Ok(Taken {
        items: single(alloc, SrcItem::Char(c))?,
        more: 0,
        seen: seen_count(seen, 1),
    })
}

/// Creates a list of one item. Errors: `Memory` if an allocation fails.
fn single(alloc: Global, item: SrcItem) -> Result<Seq<SrcItem>, Memory>
    ensures { IfOk result (λ items. items ≡ item ∷ []) }
{
    let mut items = Vec::with_capacity(alloc, 1)?;
    items.push(item)?;
    Ok(Seq::from_vec(items))
}

/// Returns the item of a word in a section, or the fault of its form.
fn read_word(
    alloc: Global,
    spot: Spot,
    word: ItemWord,
    tokens: LineTokens<'_>,
) -> Result<Taken, LineError>
    requires { spot.at + length (texts tokens) < 2 ^ 62 }
    ensures read { Reads (read_word spot.place spot.seen spot.last spot.at word (texts tokens.entry)) result }
    ensures few { IfOk result (λ taken. taken.more ≤ length (texts tokens.entry) + 5) }
{
    let slots = word_slots(word);
    if let Some(fault) = broken(spot.last, spot.at, slots, tokens) {
        return Err(LineError::Refused(fault));
    }
    let item = word_item(alloc, spot.place, word, tokens)?;
    Ok(Taken {
        items: single(alloc, item)?,
        more: slots.len() - 1,
        seen: seen_word(spot.seen, word),
    })
}

/// Returns the key in brackets, from the tokens after the opening bracket.
fn read_bracket(alloc: Global, spot: Spot, tokens: LineTokens<'_>) -> Result<Taken, LineError>
    requires { spot.at + 1 + length (texts tokens) < 2 ^ 62 }
    ensures read { Reads (read_bracket spot.place spot.seen spot.last spot.at (modifier_count (texts tokens.entry)) (texts tokens.entry)) result }
    ensures few { IfOk result (λ taken. taken.more ≤ length (texts tokens.entry) + 5) }
{
    let count = modifier_count(tokens);
    if let Some(fault) = key_fault(spot.last, spot.at + 1, count, tokens) {
        return Err(LineError::Refused(fault));
    }
    let key = modified_key(alloc, count, tokens)?;
    Ok(Taken {
        items: single(alloc, key_item(spot.place, key))?,
        more: count + 2,
        seen: seen_count(spot.seen, 1),
    })
}
