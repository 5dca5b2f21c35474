//! The ids that a key of a layout can have.

ghost use Rattle.std.specs.Prelude.{◌≡◌, map};
ghost use Rattle.std.specs.List.{list_any, list_all};
ghost use Rattle.kmn_base.specs.Names.{same_name};
ghost use Rattle.touch_layout.specs.Ids.{layout_names, is_word_byte, has_sentinel, is_touch_name, is_key_id};

use kmn_base::limits::SOURCE_NAME_CHARS;
use kmn_base::names::same_name;
use kmn_base::slices::{before, behind};
use kmn_base::texts::character_count;
use virtual_keys::{key_named, named_chars};

/// The names of keys that a layout can have and a source can't. The list is our own choice.
static LAYOUT_NAMES: [&str; 26] = [
    "K_SHIFT",
    "K_CONTROL",
    "K_ALT",
    "K_CAPS",
    "K_NUMLOCK",
    "K_SCROLL",
    "K_LOPT",
    "K_ROPT",
    "K_NUMERALS",
    "K_SYMBOLS",
    "K_CURRENCIES",
    "K_UPPER",
    "K_LOWER",
    "K_ALPHA",
    "K_SHIFTED",
    "K_ALTGR",
    "K_TABBACK",
    "K_TABFWD",
    "K_LSHIFT",
    "K_RSHIFT",
    "K_LCONTROL",
    "K_RCONTROL",
    "K_LCTRL",
    "K_RCTRL",
    "K_LALT",
    "K_RALT",
];

/// Returns whether an id is a T_ name.
pub(crate) fn is_touch_name(id: &[u8]) -> bool
    ensures { result ≡ is_touch_name id.now }
{
    same_name(before(id, 2), b"T_")
        && 2 < id.len()
        && character_count(id) <= SOURCE_NAME_CHARS
        && is_word(id)
        && !has_sentinel(id)
}

/// Returns whether each byte of an id can occur in a word.
fn is_word(id: &[u8]) -> bool
    ensures { result ≡ list_all is_word_byte id.now }
{
    for byte in id {
        if !is_word_byte(*byte) {
            return false;
        }
    }
    true
}

/// Returns whether a byte can occur in a word.
fn is_word_byte(byte: u8) -> bool
    ensures { result ≡ is_word_byte byte }
{
    !matches!(
        byte,
        0 | b'\t'
            | b'\n'
            | b'\r'
            | b' '
            | b'"'
            | b'\''
            | b'('
            | b')'
            | b'['
            | b']'
            | b'>'
            | b'+'
            | b'='
            | b','
    )
}

/// Returns whether a text contains U+FFFF, the sentinel of compiled strings.
#[tactic(auto, using(crate::proofs::Sentinels::sentinel_behind))]
fn has_sentinel(text: &[u8]) -> bool
    ensures { result ≡ has_sentinel text.now }
{
    for at in 0..text.len() {
        if behind(text, at).starts_with(b"\xEF\xBF\xBF") {
            return true;
        }
    }
    false
}

/// Returns whether a key can have an id.
pub(crate) fn is_key_id(id: &[u8]) -> bool
    ensures { result ≡ is_key_id id.now }
{
    key_named(id).is_some() || is_touch_name(id) || named_chars(id).is_some() || is_layout_name(id)
}

/// Returns whether an id is a name that only layouts have.
#[tactic(auto, unfolding(crate::specs::Ids::layout_names))]
fn is_layout_name(id: &[u8]) -> bool
    ensures { result ≡ list_any (λ name. same_name name id.now) layout_names }
{
    is_among(&LAYOUT_NAMES, id)
}

/// Returns whether an id is one of these names, ignoring ASCII case.
fn is_among(names: &[&str], id: &[u8]) -> bool
    ensures { result ≡ list_any (λ name. same_name name id.now) (map (λ name. name.now) names.now) }
{
    for name in names {
        if same_name(name.as_bytes(), id) {
            return true;
        }
    }
    false
}
