//! The words of a refused line.

ghost use Rattle.std.specs.Prelude.{◌≡◌, ◌++◌, ◌||◌, ◌≤◌, length, is_some, IfOk, OnOk, [], flat_map};
ghost use Rattle.std.specs.List.{list_any};
ghost use Rattle.kmn_base.specs.Bytes.{is_blank, is_quote};
ghost use Rattle.kmn_base.specs.Names.{same_name};
ghost use Rattle.kmn_base.specs.declared.limits.TheConstants.{TEXT_BYTES};
ghost use Rattle.kmn_lines.specs.Lines.{parts_in};
ghost use Rattle.kmn_lines.specs.Places.{IsPlaced};
ghost use Rattle.kmn_lines.specs.Tokens.{part_text, single};
ghost use Rattle.source_faults.specs.Reading.{begins_with, has_word};
ghost use Rattle.source_faults.specs.Words.{is_separator, kept, named, words_in, words_of};

use kmn_base::bytes::{is_blank, is_quote};
use kmn_base::names::same_name;
use kmn_base::slices::{before, behind};
use kmn_base::{Memory, Seq, Text};
use kmn_lines::{Logical, parts};
use std::alloc::Global;

/// Returns the words of a logical line, also those in quotes. Errors: `Memory` if an allocation fails.
#[tactic(auto, unfolding(crate::specs::Words::words_of))]
pub fn words_of(alloc: Global, source: &str, logical: Logical) -> Result<Seq<Text>, Memory>
    requires few { length source.now ≤ TEXT_BYTES }
    requires placed { IsPlaced source.now logical }
    ensures { IfOk result (λ words. words ≡ words_of source.now logical) }
{
    let mut words = Seq::new(alloc);
    let bytes = source.as_bytes();
    for part in parts(source, logical) {
        let text = behind(before(bytes, part.to as usize), part.from as usize);
        add_words(alloc, &mut words, text)?;
    }
    Ok(words)
}

/// Appends the words of a text, also those in quotes. Errors: `Memory` if an allocation fails.
pub fn add_words(alloc: Global, words: &mut Seq<Text>, text: &[u8]) -> Result<(), Memory>
    ensures { OnOk result (words.new ≡ words.old ++ words_in [] text.now) }
{
    let mut word = Seq::new(alloc);
    for byte in text {
        if is_separator(*byte) {
            add_word(alloc, words, word.as_slice())?;
            word = Seq::new(alloc);
        } else {
            word.add(*byte)?;
        }
    }
    add_word(alloc, words, word.as_slice())
}

/// Returns whether a byte separates words.
fn is_separator(byte: u8) -> bool
    ensures { result ≡ is_separator byte }
{
    is_blank(byte)
        || is_quote(byte)
        || matches!(byte, b'(' | b')' | b'[' | b']' | b'>' | b'+' | b'=' | b',')
}

/// Appends a word without a `$` or `&` at its start, if a byte is left.
fn add_word(alloc: Global, words: &mut Seq<Text>, word: &[u8]) -> Result<(), Memory>
    ensures { OnOk result (words.new ≡ words.old ++ kept (named word.now)) }
{
    let name = named(word);
    if name.is_empty() {
        return Ok(());
    }
    words.add(Seq::from_slice(alloc, name)?)
}

/// Returns a word without a `$` or `&` at its start.
fn named(word: &[u8]) -> &[u8]
    ensures { result.now ≡ named word.now }
{
    match word {
        [b'$' | b'&', name @ ..] => name,
        _ => word,
    }
}

/// Returns whether a word is among words, in any ASCII case.
pub fn has_word(name: &[u8], words: &[Text]) -> bool
    ensures { result ≡ has_word name.now words.now }
{
    for word in words {
        if same_name(name, word.as_slice()) {
            return true;
        }
    }
    false
}

/// Returns whether a word is the first of words, in any ASCII case.
pub fn begins_with(name: &[u8], words: &[Text]) -> bool
    ensures { result ≡ begins_with name.now words.now }
{
    match words {
        [word, ..] => same_name(name, word.as_slice()),
        [] => false,
    }
}
