//! Finds the shift flags that the id of a layer stands for.

ghost use Rattle.std.specs.Prelude.{◌≡◌, ◌≤◌, if◌then◌else◌, codes};
ghost use Rattle.touch_board.specs.Words.{has_word, sides, layer_mods};

use kmn_base::slices::behind;

/// Returns the flags of `KeyPress::mods` for the presses in a layer, by the words in its id: `shift`, `caps`, and `ctrl` and `alt` with or
/// without a side. Without a side, it is the left one.
pub fn layer_mods(id: &[u8]) -> u16
    ensures { result ≡ layer_mods id.now }
{
    let control = sides(
        has_word(b"leftctrl", id),
        has_word(b"rightctrl", id),
        has_word(b"ctrl", id),
    );
    let alt = sides(
        has_word(b"leftalt", id),
        has_word(b"rightalt", id),
        has_word(b"alt", id),
    );
    let shift = flag_if(has_word(b"shift", id), 16);
    let caps = flag_if(has_word(b"caps", id), 256);
    control + 4 * alt + shift + caps
}

/// Returns a flag if its word was found, else 0.
fn flag_if(found: bool, flag: u16) -> u16
    ensures is { result ≡ (if found then flag else 0) }
    ensures most { result ≤ flag }
{
    if found { flag } else { 0 }
}

/// Returns the sides of a key that a text names, 1 for the left one and 2 for the right one.
fn sides(left: bool, right: bool, either: bool) -> u16
    ensures is { result ≡ sides left right either }
    ensures most { result ≤ 3 }
{
    match (left, right) {
        (true, true) => 3,
        (true, false) => 1,
        (false, true) => 2,
        (false, false) => if either { 1 } else { 0 },
    }
}

/// Returns whether a text has a word somewhere.
#[tactic(auto, using(crate::proofs::WordsFound::word_behind, crate::proofs::WordsFound::word_found))]
fn has_word(word: &[u8], text: &[u8]) -> bool
    ensures { result ≡ has_word word.now text.now }
{
    for at in 0..text.len() {
        if behind(text, at).starts_with(word) {
            return true;
        }
    }
    false
}
