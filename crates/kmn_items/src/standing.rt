//! Which items a section allows, by its kind and by the items before them.

ghost use Rattle.std.specs.Prelude.{◌≡◌};
ghost use Rattle.kmn_items.specs.Standing.{stands_in, word_sections, lead_stands, misplaced_code, is_condition, is_nul, order_code, crowded_code, standing_code, seen_word, seen_count, is_crowded};

use crate::syntax::{ItemWord, Lead, Seen, Where};
use kmn_base::Code;

/// Returns the rule that a token breaks if it is not allowed in a section.
pub(crate) fn misplaced_code(place: Where) -> Code
    ensures { result ≡ misplaced_code place }
{
    match place {
        Where::Store | Where::Output => Code::S06,
        Where::Context | Where::Key => Code::S05,
    }
}

/// Returns the rule that a token breaks only by its position.
pub(crate) fn standing_code(place: Where, seen: Seen, lead: Lead) -> Option<Code>
    ensures { result ≡ standing_code place seen lead }
{
    if is_permitted(place, lead) {
        crowded_code(place, seen, lead)
    } else {
        Some(misplaced_code(place))
    }
}

/// Returns whether a kind of item is allowed in a section.
fn is_permitted(place: Where, lead: Lead) -> bool
    ensures { result ≡ stands_in place (lead_stands lead) }
{
    match lead {
        Lead::Named(word) => word_may_stand(place, word),
        Lead::Bracket => !matches!(place, Where::Context),
        Lead::Misplaced => false,
        _ => true,
    }
}

/// Returns whether the item of a word is allowed in a section.
fn word_may_stand(place: Where, word: ItemWord) -> bool
    ensures { result ≡ stands_in place (word_sections word) }
{
    match word {
        ItemWord::Dead => !matches!(place, Where::Key),
        ItemWord::Any => matches!(place, Where::Context | Where::Key),
        ItemWord::NotAny | ItemWord::If | ItemWord::Platform | ItemWord::BaseLayout => {
            matches!(place, Where::Context)
        }
        ItemWord::Index | ItemWord::ContextAt | ItemWord::Nul | ItemWord::Layer => {
            matches!(place, Where::Context | Where::Output)
        }
        ItemWord::Outs | ItemWord::Dollar => matches!(place, Where::Store | Where::Output),
        _ => matches!(place, Where::Output),
    }
}

/// Returns the rule that a token breaks because of the items before it.
fn crowded_code(place: Where, seen: Seen, lead: Lead) -> Option<Code>
    ensures { result ≡ crowded_code place seen lead }
{
    match (place, lead) {
        (Where::Context, Lead::Named(word)) => order_code(seen, word),
        (Where::Key, Lead::Characters) => None,
        (Where::Key, _) if seen.pattern => Some(Code::S05),
        _ => None,
    }
}

/// Returns the rule on the order of a context's items that a word breaks.
fn order_code(seen: Seen, word: ItemWord) -> Option<Code>
    ensures { result ≡ order_code seen word }
{
    if seen.pattern && (is_nul(word) || is_condition(word)) {
        Some(Code::S09)
    } else if seen.nul && is_nul(word) {
        Some(Code::S10)
    } else {
        None
    }
}

fn is_nul(word: ItemWord) -> bool
    ensures { result ≡ is_nul word }
{
    matches!(word, ItemWord::Nul)
}

/// Returns whether an item is a condition.
fn is_condition(word: ItemWord) -> bool
    ensures { result ≡ is_condition word }
{
    matches!(
        word,
        ItemWord::If | ItemWord::Layer | ItemWord::Platform | ItemWord::BaseLayout
    )
}

/// Returns what a section has seen after the item of a word.
pub(crate) fn seen_word(seen: Seen, word: ItemWord) -> Seen
    ensures { result ≡ seen_word seen word }
{
    if is_nul(word) {
        Seen { nul: true, ..seen }
    } else if is_condition(word) {
        seen
    } else {
        Seen {
            pattern: true,
            ..seen
        }
    }
}

/// Returns what a section has seen after a number of characters or keys.
pub(crate) fn seen_count(seen: Seen, count: usize) -> Seen
    ensures { result ≡ seen_count seen count }
{
    Seen {
        pattern: seen.pattern || 0 < count,
        ..seen
    }
}

/// Returns whether there are more characters than a key can still contain.
pub(crate) fn is_crowded(place: Where, seen: Seen, count: usize) -> bool
    ensures { result ≡ is_crowded place seen count }
{
    match place {
        Where::Key if seen.pattern => 0 < count,
        Where::Key => 1 < count,
        _ => false,
    }
}
