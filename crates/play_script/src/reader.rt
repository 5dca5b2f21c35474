//! The state of reading a script, and the readers of lines that begin with a word.

ghost use Rattle.std.specs.Prelude.{◌≡◌, ◌∷◌, [], Ok, Some, None, MatchResult};
ghost use Rattle.kmn_base.specs.declared.codes.Code.{Code};
ghost use Rattle.kmn_base.specs.declared.codes.Code.TheVariants.{P04, P05, P08};
ghost use Rattle.rule_model.specs.declared.script.Entry.TheVariants as entry;
ghost use Rattle.play_script.specs.Words.{first_word, rest_after_word, number, name as some_name};
ghost use Rattle.play_script.specs.Strings.{string};
ghost use Rattle.play_script.specs.Entries.{first_script, with_entry, with_found, nothing_more, caret_found, edit_found, option_found, expect_found};
ghost use Rattle.play_script.specs.Answers.{Leaves, Passes, Needs, NeedsMade};

use crate::errors::ScriptError;
use crate::strings::string;
use crate::words::{first_word, name, number, rest_after_word};
use kmn_base::limits::SCRIPT_EVENTS;
use kmn_base::{Code, Event, Refusal, Seq};
use rule_model::Entry;
use std::alloc::Global;
use std::marker::Model;

/// The entries read so far, and the number of events read, including the events before these entries.
#[derive(Drop)]
pub struct Reader {
    entries: Seq<Entry>,
    events: usize,
}

impl Model for Reader {
    ghost use Rattle.play_script.specs.Entries.{Script};

    ghost Value = { Script };

    ghost view = { λ reader. record { entries = reader.entries; events = reader.events } };
}

impl Reader {
    /// Creates a reader before the first line.
    pub(crate) fn new(alloc: Global) -> Reader
        ensures { result ≡ first_script }
    {
        Reader {
            entries: Seq::new(alloc),
            events: 0,
        }
    }

    /// Creates a reader for a line that follows `events` earlier events. The reader does not contain their entries.
    pub fn behind(alloc: Global, events: usize) -> Reader
        ensures { result ≡ record { entries = []; events = events } }
    {
        Reader {
            entries: Seq::new(alloc),
            events,
        }
    }

    /// Returns the number of events read, including the events before the reader's first line.
    pub fn events(&self) -> usize
        ensures { result ≡ self.now.events }
    {
        self.events
    }

    /// Returns the entries.
    pub fn into_entries(self) -> Seq<Entry>
        ensures { result ≡ self.entries }
    {
        self.entries
    }

    /// Appends an entry that has an event.
    ///
    /// Errors: P07 if the script has too many events; `Memory` if an allocation fails.
    pub(crate) fn act(&mut self, line: u32, event: Event) -> Result<(), ScriptError>
        ensures { Leaves (with_entry self.old (entry.Act line event)) self.new result }
    {
        if self.events >= SCRIPT_EVENTS {
            return Err(refused(line, Code::P07));
        }
        self.entries
            .push(Entry::Act { line, event })
            .map_err(|_entry| ScriptError::Memory)?;
        self.events += 1;
        Ok(())
    }

    /// Appends an entry that expects a text.
    ///
    /// Errors: `Memory` if an allocation fails.
    pub(crate) fn expect(&mut self, line: u32, text: Seq<char>) -> Result<(), ScriptError>
        ensures { Leaves (with_entry self.old (entry.Expect line text)) self.new result }
    {
        self.entries
            .push(Entry::Expect { line, text })
            .map_err(|_entry| ScriptError::Memory)
    }
}

/// Returns the error for a rule that a line breaks.
pub fn refused(line: u32, code: Code) -> ScriptError
    ensures { result ≡ ScriptError.Refused (record { line = line; code = code }) }
{
    ScriptError::Refused(Refusal { line, code })
}

/// Returns the number with which a text begins, of one to seven digits.
///
/// Errors: P05 if the text does not begin with such a number.
pub fn needed_number(line: u32, text: &[u8]) -> Result<u32, ScriptError>
    ensures { Needs line P05 (number (first_word text.now)) result }
{
    match number(first_word(text)) {
        Some(number) => Ok(number),
        None => Err(refused(line, Code::P05)),
    }
}

/// Checks that no text follows a complete line.
///
/// Errors: P08 if some text follows.
pub fn nothing_more(line: u32, rest: &[u8]) -> Result<(), ScriptError>
    ensures { Passes (nothing_more line rest.now) result }
{
    match rest {
        [] => Ok(()),
        _ => Err(refused(line, Code::P08)),
    }
}

/// Reads the text after `caret`.
pub(crate) fn read_caret(line: u32, text: &[u8], reader: &mut Reader) -> Result<(), ScriptError>
    ensures { Leaves (with_found (Ok reader.old) (caret_found line text.now)) reader.new result }
{
    let place = needed_number(line, text)?;
    reader.act(line, Event::Caret(place))?;
    nothing_more(line, rest_after_word(text))
}

/// Reads the text after `edit`.
pub(crate) fn read_edit(
    alloc: Global,
    line: u32,
    text: &[u8],
    reader: &mut Reader,
) -> Result<(), ScriptError>
    ensures { Leaves (with_found (Ok reader.old) (edit_found line text.now)) reader.new result }
{
    let from = needed_number(line, text)?;
    let rest = rest_after_word(text);
    let to = needed_number(line, rest)?;
    let text = needed_string(alloc, line, rest_after_word(rest))?;
    reader.act(line, Event::Edit { from, to, text })
}

/// Returns the string that the rest of a line denotes.
///
/// Errors: P04 if the rest is not a string; `Memory` if an allocation fails.
fn needed_string(alloc: Global, line: u32, text: &[u8]) -> Result<Seq<char>, ScriptError>
    ensures { NeedsMade line P04 (string text.now) result }
{
    match string(alloc, text)? {
        Some(value) => Ok(value),
        None => Err(refused(line, Code::P04)),
    }
}

/// Reads the text after `option`.
pub(crate) fn read_option(
    alloc: Global,
    line: u32,
    text: &[u8],
    reader: &mut Reader,
) -> Result<(), ScriptError>
    ensures { Leaves (with_found (Ok reader.old) (option_found line text.now)) reader.new result }
{
    let name = needed_name(line, text)?;
    let value = needed_string(alloc, line, rest_after_word(text))?;
    let name = Seq::from_slice(alloc, name)?;
    reader.act(line, Event::Setting { name, value })
}

/// Returns the name with which a text begins.
///
/// Errors: P04 if the text does not begin with a name.
fn needed_name<'a>(line: u32, text: &'a [u8]) -> Result<&'a [u8], ScriptError>
    ensures { MatchResult result (λ name. some_name (first_word text.now) ≡ Some name.now) (λ error. (some_name (first_word text.now) ≡ None) × (error ≡ ScriptError.Refused (record { line = line; code = P04 }))) }
{
    match name(first_word(text)) {
        Some(name) => Ok(name),
        None => Err(refused(line, Code::P04)),
    }
}

/// Reads the text after `expect`.
pub(crate) fn read_expect(
    alloc: Global,
    line: u32,
    text: &[u8],
    reader: &mut Reader,
) -> Result<(), ScriptError>
    ensures { Leaves (with_found (Ok reader.old) (expect_found line text.now)) reader.new result }
{
    let text = needed_string(alloc, line, text)?;
    reader.expect(line, text)
}
