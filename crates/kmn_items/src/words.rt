//! The kinds of words: item words, names, names of system stores and of keys, and modifiers.

ghost use Rattle.std.specs.Prelude.{◌≡◌};
ghost use Rattle.kmn_base.specs.Names.{named_in};
ghost use Rattle.kmn_items.specs.Words.{item_words, item_word, begins_with, is_system_name, bare_name, is_name, is_touch_name, is_own_key, is_key_name, is_modifier};

use crate::syntax::ItemWord;
use kmn_base::limits::SOURCE_NAME_CHARS;
use kmn_base::names::{named_in, same_name};
use kmn_base::slices::{before, behind};
use kmn_base::texts::character_count;
use virtual_keys::{key_named, modifier_named, named_chars};

static ITEM_WORDS: [(&str, ItemWord); 22] = [
    ("dk", ItemWord::Dead),
    ("deadkey", ItemWord::Dead),
    ("any", ItemWord::Any),
    ("notany", ItemWord::NotAny),
    ("index", ItemWord::Index),
    ("context", ItemWord::Context),
    ("if", ItemWord::If),
    ("nul", ItemWord::Nul),
    ("outs", ItemWord::Outs),
    ("use", ItemWord::Use),
    ("set", ItemWord::Set),
    ("save", ItemWord::Save),
    ("reset", ItemWord::Reset),
    ("beep", ItemWord::Beep),
    ("return", ItemWord::Return),
    ("call", ItemWord::Call),
    ("switch", ItemWord::Switch),
    ("clearcontext", ItemWord::ClearContext),
    ("fix", ItemWord::Fix),
    ("layer", ItemWord::Layer),
    ("platform", ItemWord::Platform),
    ("baselayout", ItemWord::BaseLayout),
];

/// Returns whether a text begins with a byte.
pub fn begins_with(wanted: u8, text: &[u8]) -> bool
    ensures { result ≡ begins_with wanted text.now }
{
    match text {
        [first, ..] => *first == wanted,
        [] => false,
    }
}

/// Returns the item word that a text is, in any ASCII case. A text that begins with `$` is one too.
pub fn item_word(text: &[u8]) -> Option<ItemWord>
    ensures { result ≡ item_word text.now }
{
    if begins_with(b'$', text) {
        return Some(ItemWord::Dollar);
    }
    listed_word(text)
}

/// Returns the item word of the table that a text is.
#[tactic(auto, unfolding(crate::specs::Words::item_words))]
fn listed_word(text: &[u8]) -> Option<ItemWord>
    ensures { result ≡ named_in item_words text.now }
{
    named_in(&ITEM_WORDS, text)
}

/// Returns whether a name is the name of a system store.
pub fn is_system_name(text: &[u8]) -> bool
    ensures { result ≡ is_system_name text.now }
{
    begins_with(b'&', text)
}

/// Returns a name without the `&` of a system store.
pub fn bare_name(text: &[u8]) -> &[u8]
    ensures { result.now ≡ bare_name text.now }
{
    if is_system_name(text) {
        behind(text, 1)
    } else {
        text
    }
}

/// Returns whether a name has 1 to 80 characters.
pub fn is_name(text: &[u8]) -> bool
    ensures { result ≡ is_name text.now }
{
    let count = character_count(text);
    0 < count && count <= SOURCE_NAME_CHARS
}

/// Returns whether a word names a custom key.
pub fn is_own_key(text: &[u8]) -> bool
    ensures { result ≡ is_own_key text.now }
{
    is_touch_name(text) || named_chars(text).is_some()
}

/// Returns whether a word is `T_` and at least one more character, of at most 80 characters.
fn is_touch_name(text: &[u8]) -> bool
    ensures { result ≡ is_touch_name text.now }
{
    same_name(before(text, 2), b"T_")
        && 2 < text.len()
        && character_count(text) <= SOURCE_NAME_CHARS
}

/// Returns whether a word names a key.
pub(crate) fn is_key_name(text: &[u8]) -> bool
    ensures { result ≡ is_key_name text.now }
{
    key_named(text).is_some() || is_own_key(text)
}

/// Returns whether a word is a modifier.
pub(crate) fn is_modifier(text: &[u8]) -> bool
    ensures { result ≡ is_modifier text.now }
{
    modifier_named(text).is_some()
}
