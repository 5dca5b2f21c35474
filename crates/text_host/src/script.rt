//! Reads the lines of a script for several fields in order, and checks whether the open fields allow each line.

ghost use Rattle.std.specs.Prelude.{◌≡◌, ◌≤◌, length, Ok};
ghost use Rattle.kmn_base.specs.Answers.{and_then};
ghost use Rattle.kmn_base.specs.declared.limits.TheConstants.{TEXT_BYTES};
ghost use Rattle.play_script.specs.Lines.{text_lines};
ghost use Rattle.play_script.specs.Answers.{Answers, Leaves};
ghost use Rattle.text_host.specs.HostEntries.{if_open, one_more, fields_after, first_script, with_part, with_line, with_lines, host_entries};

use crate::entries::HostEntry;
use crate::lines::{LinePart, line_part};
use kmn_base::limits::FIELDS;
use kmn_base::{Code, Seq};
use play_script::{ScriptError, first_line, refused, script_text};
use std::alloc::Global;
use virtual_keys::KeyDictionary;

/// The part of a script that was read so far: its entries, the number of events and previews among them, and the number of fields
/// that are open after them.
#[derive(Drop)]
pub struct HostScript {
    entries: Seq<HostEntry>,
    events: usize,
    fields: u32,
}

/// Returns the entries of a script for several fields over a keyboard with these key names.
///
/// Errors: the first of P01 to P08, H1 and H2 that the script breaks; `Memory` if an allocation fails. P06 and P01 are checked
/// first, for the whole script, with line 1. The others are checked line by line, H1 and H2 after the other codes of a line. H1 is
/// returned if the field that a line refers to is not open, H2 for an `open` while [`FIELDS`] fields are open.
#[tactic(auto, using(crate::proofs::LineLaws::text_read))]
pub fn read_host(
    alloc: Global,
    bytes: &[u8],
    names: &KeyDictionary,
) -> Result<Seq<HostEntry>, ScriptError>
    ensures { Answers (host_entries names.now bytes.now) result }
{
    read_lines(alloc, names, script_text(bytes)?)
}

/// Reads the lines of a text.
#[tactic(auto, using(crate::proofs::LineLaws::next_line))]
fn read_lines(
    alloc: Global,
    names: &KeyDictionary,
    text: &[u8],
) -> Result<Seq<HostEntry>, ScriptError>
    requires { length text.now ≤ TEXT_BYTES }
    ensures { Answers (and_then (with_lines names.now 1 (text_lines text.now) first_script) (λ script. Ok script.entries)) result }
{
    let mut script = HostScript::new(alloc);
    let mut rest = text;
    let mut line = 1;
    while !rest.is_empty() {
        let (first, behind) = first_line(rest);
        script.read(alloc, names, line, first)?;
        rest = behind;
        line += 1;
    }
    Ok(script.entries)
}

/// Returns the number of open fields after a line, if `fields` are open before it. Errors: H1 or H2 if they do not allow the line.
fn fields_after(fields: u32, entries: &[HostEntry]) -> Result<u32, ScriptError>
    ensures { Answers (fields_after fields entries.now) result }
{
    match entries {
        [] => Ok(fields),
        [HostEntry::Open { line }, ..] => one_more(*line, fields),
        [HostEntry::Field { line, field }, ..] => if_open(*line, *field, fields),
        [HostEntry::Preview { line, .. }, ..]
        | [HostEntry::Act { line, .. }, ..]
        | [HostEntry::Expect { line, .. }, ..] => if_open(*line, 1, fields),
    }
}

impl HostScript {
    /// Returns the script before its first line is read.
    fn new(alloc: Global) -> HostScript
        ensures { result ≡ first_script }
    {
        HostScript {
            entries: Seq::new(alloc),
            events: 0,
            fields: 0,
        }
    }

    /// Appends the content of a line, if the open fields allow the line.
    fn take(&mut self, part: LinePart) -> Result<(), ScriptError>
        ensures { Leaves (with_part self.old part) self.new result }
    {
        self.fields = fields_after(self.fields, part.entries.as_slice())?;
        self.events = part.events;
        self.entries.append(part.entries)?;
        Ok(())
    }

    /// Reads the next line.
    fn read(
        &mut self,
        alloc: Global,
        names: &KeyDictionary,
        line: u32,
        text: &[u8],
    ) -> Result<(), ScriptError>
        ensures { Leaves (with_line names.now line text.now self.old) self.new result }
    {
        let part = line_part(alloc, names, line, self.events, text)?;
        self.take(part)
    }
}

/// Returns the number of open fields after one more is opened. Errors: H2 if `FIELDS` fields are open.
fn one_more(line: u32, fields: u32) -> Result<u32, ScriptError>
    ensures { Answers (one_more line fields) result }
{
    if fields < FIELDS as u32 {
        Ok(fields + 1)
    } else {
        Err(refused(line, Code::H2))
    }
}

/// Returns the number of open fields. Errors: H1 if no open field has this number.
fn if_open(line: u32, field: u32, fields: u32) -> Result<u32, ScriptError>
    ensures { Answers (if_open line field fields) result }
{
    if 1 <= field && field <= fields {
        Ok(fields)
    } else {
        Err(refused(line, Code::H1))
    }
}
