//! Reads one line of a script for several fields, independently of the other lines, and checks it for the P codes.

ghost use Rattle.std.specs.Prelude.{◌≡◌, map, Some, None, IfOk, MatchOption, MatchResult};
ghost use Rattle.kmn_base.specs.declared.codes.Code.TheVariants.{P03};
ghost use Rattle.play_script.specs.Answers.{Answers};
ghost use Rattle.text_host.specs.HostEntries.{complete, field_part, bracket, counted, preview_part, on_field, other_part, kind_of, line_part};

use crate::entries::HostEntry;
use kmn_base::limits::SCRIPT_EVENTS;
use kmn_base::{Code, Memory, Seq};
use play_script::{
    Reader, ScriptError, first_piece, first_word, needed_number, needed_press, nothing_more,
    read_line, refused, rest_after_word, without_blanks,
};
use rule_model::Entry;
use std::alloc::Global;
use virtual_keys::KeyDictionary;

/// The kinds of line that only a script for several fields has.
#[derive(Clone, Copy)]
pub enum HostLineKind {
    Open,
    Field,
    Preview,
}

/// The content of one line: its entries, and the number of events and previews in the script up to its end.
#[derive(Drop)]
pub struct LinePart {
    pub entries: Seq<HostEntry>,
    pub events: usize,
}

/// Reads a line of a script that has `events` events and previews before this line.
pub(crate) fn line_part(
    alloc: Global,
    names: &KeyDictionary,
    line: u32,
    events: usize,
    text: &[u8],
) -> Result<LinePart, ScriptError>
    ensures { Answers (line_part names.now line events text.now) result }
{
    let text = without_blanks(text);
    let rest = rest_after_word(text);
    match kind_of(first_word(text)) {
        None => other_part(alloc, names, line, events, text),
        Some(HostLineKind::Open) => complete(alloc, line, HostEntry::Open { line }, events, rest),
        Some(HostLineKind::Field) => field_part(alloc, line, events, rest),
        Some(HostLineKind::Preview) => preview_part(alloc, names, line, events, rest),
    }
}

/// Returns the kind of a line by its first word, or `None` if the line is read as in a script for one field.
fn kind_of(word: &[u8]) -> Option<HostLineKind>
    ensures { result ≡ kind_of word.now }
{
    if word == b"open".as_slice() {
        Some(HostLineKind::Open)
    } else if word == b"field".as_slice() {
        Some(HostLineKind::Field)
    } else if word == b"preview".as_slice() {
        Some(HostLineKind::Preview)
    } else {
        None
    }
}

/// Reads a line of a kind that is also allowed in a script for one field.
fn other_part(
    alloc: Global,
    names: &KeyDictionary,
    line: u32,
    events: usize,
    text: &[u8],
) -> Result<LinePart, ScriptError>
    ensures { Answers (other_part names.now line events text.now) result }
{
    let mut reader = Reader::behind(alloc, events);
    read_line(alloc, names, line, text, &mut reader)?;
    let events = reader.events();
    let entries = on_fields(alloc, reader.into_entries())?;
    Ok(LinePart { entries, events })
}

/// Converts the entries of a script for one field to entries for the current field.
fn on_fields(alloc: Global, entries: Seq<Entry>) -> Result<Seq<HostEntry>, Memory>
    ensures { IfOk result (λ all. all ≡ map on_field entries) }
{
    let mut entries = entries;
    let mut all = Vec::new(alloc);
    while let Some(entry) = entries.pop() {
        all.push(on_field(entry))?;
    }
    all.reverse();
    Ok(Seq::from_vec(all))
}

/// Converts an entry of a script for one field to an entry for the current field.
fn on_field(entry: Entry) -> HostEntry
    ensures { result ≡ on_field entry }
{
    match entry {
        Entry::Act { line, event } => HostEntry::Act { line, event },
        Entry::Expect { line, text } => HostEntry::Expect { line, text },
    }
}

/// Returns the content of a line with this one entry. `rest` is the text after the entry.
///
/// Errors: P08 if there is such text; `Memory` if an allocation fails.
fn complete(
    alloc: Global,
    line: u32,
    entry: HostEntry,
    events: usize,
    rest: &[u8],
) -> Result<LinePart, ScriptError>
    ensures { Answers (complete line entry events rest.now) result }
{
    nothing_more(line, rest)?;
    let mut entries = Seq::new(alloc);
    entries.add(entry)?;
    Ok(LinePart { entries, events })
}

/// Reads the rest of a line after `field`.
fn field_part(alloc: Global, line: u32, events: usize, text: &[u8]) -> Result<LinePart, ScriptError>
    ensures { Answers (field_part line events text.now) result }
{
    let field = needed_number(line, text)?;
    let entry = HostEntry::Field { line, field };
    complete(alloc, line, entry, events, rest_after_word(text))
}

/// Reads the rest of a line after `preview`.
fn preview_part(
    alloc: Global,
    names: &KeyDictionary,
    line: u32,
    events: usize,
    text: &[u8],
) -> Result<LinePart, ScriptError>
    ensures { Answers (preview_part names.now line events text.now) result }
{
    let (inside, behind) = needed_bracket(line, text)?;
    let press = needed_press(names, line, inside)?;
    let events = counted(line, events)?;
    let entry = HostEntry::Preview { line, press };
    complete(alloc, line, entry, events, without_blanks(behind))
}

/// Returns the same parts as `bracket`. Errors: P03 if the text does not begin with a bracket.
fn needed_bracket(line: u32, text: &[u8]) -> Result<(&[u8], &[u8]), ScriptError>
    ensures { MatchResult result (λ parts. bracket text.now ≡ Some (parts.0.now, parts.1.now)) (λ error. (bracket text.now ≡ None) × (error ≡ ScriptError.Refused (record { line = line; code = P03 }))) }
{
    bracket(text).ok_or(refused(line, Code::P03))
}

/// Returns the content of the bracket with which a text begins, and the text after the bracket, or `None` without a bracket.
fn bracket(text: &[u8]) -> Option<(&[u8], &[u8])>
    ensures { MatchOption result (bracket text.now ≡ None) (λ parts. bracket text.now ≡ Some (parts.0.now, parts.1.now)) }
{
    match text {
        [b'[', inside @ ..] => first_piece(inside),
        _ => None,
    }
}

/// Returns the number of events and previews after one more. Errors: P07 if this number exceeds the limit.
fn counted(line: u32, events: usize) -> Result<usize, ScriptError>
    ensures { Answers (counted line events) result }
{
    if events < SCRIPT_EVENTS {
        Ok(events + 1)
    } else {
        Err(refused(line, Code::P07))
    }
}
