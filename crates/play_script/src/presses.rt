//! Reads the key presses of a line.

ghost use Rattle.std.specs.Prelude.{◌≡◌, ◌<◌, ◌∷◌, [], false, length, Ok, MatchOption, MatchResult};
ghost use Rattle.std.specs.List.{slice_split, position};
ghost use Rattle.kmn_base.specs.declared.codes.Code.TheVariants.{P03, P08};
ghost use Rattle.play_script.specs.Words.{without_blanks, words as all_words, is_closing, begins_bracket};
ghost use Rattle.play_script.specs.WordsLeft.{words_left};
ghost use Rattle.play_script.specs.Presses.{held_bit, modifier_bit, key_of, press_with};
ghost use Rattle.play_script.specs.Entries.{last_found, bracket_found, brackets_found, with_found};
ghost use Rattle.play_script.specs.Answers.{Leaves, Passes, Needs};

use crate::errors::ScriptError;
use crate::reader::{Reader, refused};
use crate::text_words::{TextWords, words};
use crate::words::without_blanks;
use kmn_base::keys::{EITHER_ALT, EITHER_CONTROL, LEFT_ALT, LEFT_CONTROL, NO_CAPS};
use kmn_base::{Code, Event, KeyPress};
use virtual_keys::{KeyDictionary, key_named, modifier_named};

/// Returns the key press that the words of a bracket name.
///
/// Errors: P03 if they do not name one.
pub fn needed_press(
    dictionary: &KeyDictionary,
    line: u32,
    inside: &[u8],
) -> Result<KeyPress, ScriptError>
    ensures { Needs line P03 (press_with dictionary.now 0 (all_words inside.now)) result }
{
    match press_of(dictionary, words(inside)) {
        Some(press) => Ok(press),
        None => Err(refused(line, Code::P03)),
    }
}

/// Returns the key press that words name: modifiers, and last the key.
fn press_of(dictionary: &KeyDictionary, words: TextWords<'_>) -> Option<KeyPress>
    ensures { result ≡ press_with dictionary.now 0 (words_left words.entry) }
{
    let mut words = words;
    let mut mods = 0;
    let mut last = words.next()?;
    for word in words {
        mods |= modifier_bit(last)?;
        last = word;
    }
    let code = key_of(dictionary, last)?;
    Some(KeyPress { code, mods })
}

/// Returns the bit of a modifier word, if the word is a modifier with a bit.
fn modifier_bit(word: &[u8]) -> Option<u16>
    ensures { result ≡ modifier_bit word.now }
{
    held_bit(modifier_named(word)?)
}

/// Returns the bit of a shift flag in a key press, if it has one.
fn held_bit(flag: u16) -> Option<u16>
    ensures { result ≡ held_bit flag }
{
    match flag {
        EITHER_CONTROL => Some(LEFT_CONTROL),
        EITHER_ALT => Some(LEFT_ALT),
        NO_CAPS => None,
        _ => Some(flag),
    }
}

/// Returns the code of the key that a word names, else the code of the word in the dictionary, if any.
fn key_of(dictionary: &KeyDictionary, word: &[u8]) -> Option<u16>
    ensures { result ≡ key_of dictionary.now word.now }
{
    match key_named(word) {
        Some(code) => Some(code),
        None => dictionary.code_of(word),
    }
}

/// Splits a text at its first `]`: returns the text before it and the text after it, or `None` if the text has no `]`.
#[tactic(auto, using(crate::proofs::LineLaws::piece_steps))]
pub fn first_piece(text: &[u8]) -> Option<(&[u8], &[u8])>
    ensures parts { MatchOption result (slice_split is_closing text.now ≡ text.now ∷ []) (λ parts. slice_split is_closing text.now ≡ parts.0.now ∷ slice_split is_closing parts.1.now) }
    ensures nearer { MatchOption result (Unit {0}) (λ parts. length parts.1.now < length text.now) }
{
    let at = first_closing(text)?;
    Some((&text[..at], &text[at + 1..]))
}

/// Returns the position of the first `]`.
fn first_closing(text: &[u8]) -> Option<usize>
    ensures { result ≡ position is_closing text.now }
{
    text.iter().position(|byte| *byte == b']')
}

/// Reads the brackets of a line.
#[tactic(auto, using(crate::proofs::LineLaws::line_steps))]
pub(crate) fn read_brackets(
    dictionary: &KeyDictionary,
    line: u32,
    text: &[u8],
    reader: &mut Reader,
) -> Result<(), ScriptError>
    ensures { Leaves (with_found (Ok reader.old) (brackets_found dictionary.now line (slice_split is_closing text.now))) reader.new result }
{
    let mut rest = text;
    while let Some((piece, behind)) = first_piece(rest) {
        read_bracket(dictionary, line, piece, reader)?;
        rest = behind;
    }
    read_last(line, without_blanks(rest))
}

/// Reads a bracket without its `]`.
#[tactic(auto, using(crate::proofs::LineLaws::bracket_steps))]
fn read_bracket(
    dictionary: &KeyDictionary,
    line: u32,
    piece: &[u8],
    reader: &mut Reader,
) -> Result<(), ScriptError>
    ensures { Leaves (with_found (Ok reader.old) (bracket_found dictionary.now line [] (without_blanks piece.now))) reader.new result }
{
    let inside = opened(line, without_blanks(piece))?;
    let press = needed_press(dictionary, line, inside)?;
    reader.act(line, Event::Key(press))
}

/// Returns the text after the `[` with which a text begins.
///
/// Errors: P08 if the text does not begin with a `[`.
fn opened(line: u32, text: &[u8]) -> Result<&[u8], ScriptError>
    ensures { MatchResult result (λ inside. text.now ≡ 91 ∷ inside.now) (λ error. (begins_bracket text.now ≡ false) × (error ≡ ScriptError.Refused (record { line = line; code = P08 }))) }
{
    match text {
        [b'[', inside @ ..] => Ok(inside),
        _ => Err(refused(line, Code::P08)),
    }
}

/// Checks that no text follows the last bracket.
///
/// Errors: P03 if a bracket follows that isn't closed, P08 if any other text follows.
fn read_last(line: u32, text: &[u8]) -> Result<(), ScriptError>
    ensures { Passes (last_found line text.now) result }
{
    match text {
        [] => Ok(()),
        [b'[', ..] => Err(refused(line, Code::P03)),
        _ => Err(refused(line, Code::P08)),
    }
}
