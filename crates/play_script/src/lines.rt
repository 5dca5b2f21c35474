//! Reads the lines of a script one by one.

ghost use Rattle.std.specs.Prelude.{◌≡◌, ◌+◌, ◌<◌, ◌≤◌, ◌∷◌, length, take, drop, position, Ok, Err, IfOk, IsSomeAnd, MatchResult};
ghost use Rattle.std.specs.List.{position_or_len};
ghost use Rattle.kmn_base.specs.declared.limits.TheConstants.{TEXT_BYTES};
ghost use Rattle.play_script.specs.Lines.{text_lines, is_end, end_size};
ghost use Rattle.play_script.specs.Entries.{kind_of, kind_found, text_found, line_found, lines_found, entries_of, first_script, script_text, entries, with_found};
ghost use Rattle.play_script.specs.Answers.{refusal_of, Answers, Leaves};

use crate::errors::ScriptError;
use crate::presses::read_brackets;
use crate::reader::{Reader, read_caret, read_edit, read_expect, read_option, refused};
use crate::words::{first_word, rest_after_word, without_blanks};
use kmn_base::limits::TEXT_BYTES;
use kmn_base::slices::behind;
use kmn_base::texts::without_bom;
use kmn_base::{Code, Seq};
use rule_model::Entry;
use std::alloc::Global;
use virtual_keys::KeyDictionary;

/// The kind of a line that begins with a word.
#[derive(Clone, Copy)]
pub enum LineKind {
    Caret,
    Edit,
    Setting,
    Expect,
}

/// Reads a line. Checks all rules except P01 and P06, which apply to a whole script. After an error, the content of the reader
/// is unspecified: it may have the first entries of the line.
pub fn read_line(
    alloc: Global,
    dictionary: &KeyDictionary,
    line: u32,
    text: &[u8],
    reader: &mut Reader,
) -> Result<(), ScriptError>
    ensures { Leaves (with_found (Ok reader.old) (line_found dictionary.now line text.now)) reader.new result }
{
    read_text(alloc, dictionary, line, without_blanks(text), reader)
}

/// Reads a line that does not begin with a blank.
fn read_text(
    alloc: Global,
    dictionary: &KeyDictionary,
    line: u32,
    text: &[u8],
    reader: &mut Reader,
) -> Result<(), ScriptError>
    ensures { Leaves (with_found (Ok reader.old) (text_found dictionary.now line text.now)) reader.new result }
{
    match text {
        [] | [b'#', ..] => Ok(()),
        [b'[', ..] => read_brackets(dictionary, line, text, reader),
        _ => read_kind(
            alloc,
            line,
            kind_of(first_word(text)),
            rest_after_word(text),
            reader,
        ),
    }
}

/// Reads the rest of a line by the kind of the line. A line without a kind breaks P02.
fn read_kind(
    alloc: Global,
    line: u32,
    kind: Option<LineKind>,
    rest: &[u8],
    reader: &mut Reader,
) -> Result<(), ScriptError>
    ensures { Leaves (with_found (Ok reader.old) (kind_found line kind rest.now)) reader.new result }
{
    match kind {
        Some(LineKind::Caret) => read_caret(line, rest, reader),
        Some(LineKind::Edit) => read_edit(alloc, line, rest, reader),
        Some(LineKind::Setting) => read_option(alloc, line, rest, reader),
        Some(LineKind::Expect) => read_expect(alloc, line, rest, reader),
        None => Err(refused(line, Code::P02)),
    }
}

/// Returns the kind of a line with this first word, if any.
fn kind_of(word: &[u8]) -> Option<LineKind>
    ensures { result ≡ kind_of word.now }
{
    if word == b"caret".as_slice() {
        Some(LineKind::Caret)
    } else if word == b"edit".as_slice() {
        Some(LineKind::Edit)
    } else if word == b"option".as_slice() {
        Some(LineKind::Setting)
    } else if word == b"expect".as_slice() {
        Some(LineKind::Expect)
    } else {
        None
    }
}

/// Splits a text that isn't empty into its first line and the text after the line end.
#[tactic(auto, using(crate::proofs::TextLaws::first_steps))]
pub fn first_line(text: &[u8]) -> (&[u8], &[u8])
    requires { 0 < length text.now }
    ensures first { result.0.now ≡ take (position_or_len is_end text.now) text.now }
    ensures rest { result.1.now ≡ drop (position_or_len is_end text.now + end_size (drop (position_or_len is_end text.now) text.now)) text.now }
    ensures parts { text_lines text.now ≡ result.0.now ∷ text_lines result.1.now }
    ensures nearer { length result.1.now < length text.now }
{
    let end = line_length(text);
    let size = end_size(behind(text, end));
    (&text[..end], behind(text, end + size))
}

/// Returns the length of the first line in bytes.
#[tactic(auto, using(crate::proofs::WordLaws::place_of_first))]
fn line_length(text: &[u8]) -> usize
    ensures within { result ≤ length text.now }
    ensures is { result ≡ position_or_len is_end text.now }
{
    first_end(text).unwrap_or(text.len())
}

/// Returns the position of the first line end.
fn first_end(text: &[u8]) -> Option<usize>
    ensures { result ≡ position is_end text.now }
{
    text.iter()
        .position(|byte| *byte == b'\n' || *byte == b'\r')
}

/// Returns the size in bytes of the line end with which a text begins.
fn end_size(text: &[u8]) -> usize
    ensures is { result ≡ end_size text.now }
    ensures few { result ≤ 2 }
{
    match text {
        [] => 0,
        [b'\r', b'\n', ..] => 2,
        _ => 1,
    }
}

/// Returns the text of a script without a leading U+FEFF.
///
/// Errors: P06 if the script is too long, P01 if it isn't UTF-8, both with line 1.
pub fn script_text(bytes: &[u8]) -> Result<&[u8], ScriptError>
    ensures is { MatchResult result (λ text. script_text bytes.now ≡ Ok text.now) (λ error. IsSomeAnd (refusal_of error) (λ refusal. script_text bytes.now ≡ Err refusal)) }
    ensures within { IfOk result (λ text. length text.now ≤ TEXT_BYTES) }
{
    if bytes.len() > TEXT_BYTES {
        return Err(refused(1, Code::P06));
    }
    match str::from_utf8(bytes) {
        Ok(_) => Ok(without_bom(bytes)),
        Err(_) => Err(refused(1, Code::P01)),
    }
}

/// Returns the entries of a script for a keyboard with these names of keys.
///
/// Errors: the first of P01 to P08 that the script breaks: P06 and P01 for the whole script, with line 1, then the others by
/// line and in reading order; `Memory` if an allocation fails.
#[tactic(auto, using(crate::proofs::TextLaws::text_read))]
pub fn read_script(
    alloc: Global,
    bytes: &[u8],
    names: &KeyDictionary,
) -> Result<Seq<Entry>, ScriptError>
    ensures { Answers (entries names.now bytes.now) result }
{
    read_lines(alloc, names, script_text(bytes)?)
}

/// Reads the lines of a text.
#[tactic(auto, using(crate::proofs::LineLaws::next_line))]
fn read_lines(
    alloc: Global,
    dictionary: &KeyDictionary,
    text: &[u8],
) -> Result<Seq<Entry>, ScriptError>
    requires { length text.now ≤ TEXT_BYTES }
    ensures { Answers (entries_of (with_found (Ok first_script) (lines_found dictionary.now 1 (text_lines text.now)))) result }
{
    let mut reader = Reader::new(alloc);
    let mut rest = text;
    let mut line = 1;
    while !rest.is_empty() {
        let (first, behind) = first_line(rest);
        read_line(alloc, dictionary, line, first, &mut reader)?;
        rest = behind;
        line += 1;
    }
    Ok(reader.into_entries())
}
