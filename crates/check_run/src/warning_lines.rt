//! A line for each warning and note of a source, and how many there are.

ghost use Rattle.std.specs.Prelude.{◌≡◌, ◌++◌, count_by, flat_map, IfOk, OnOk};
ghost use Rattle.check_run.specs.Printed.{counts_line, is_noted, is_warned, severity, warning_line};

use check_texts::{is_note, put_warning_text, warning_code};
use kmn_base::{Memory, Seq, Text};
use source_warnings::{Warning, WarningKind};
use std::alloc::Global;

/// Appends the lines of warnings.
pub(crate) fn put_warnings(
    alloc: Global,
    text: &mut Text,
    file: &[u8],
    warnings: &[Warning],
) -> Result<(), Memory>
    ensures { OnOk result (text.new ≡ text.old ++ flat_map (warning_line file.now) warnings.now) }
{
    for warning in warnings {
        text.append(warning_line(alloc, file, warning)?)?;
    }
    Ok(())
}

/// Returns the line of a warning.
#[tactic(auto, unfolding(crate::specs::Printed::warning_line))]
fn warning_line(alloc: Global, file: &[u8], warning: &Warning) -> Result<Text, Memory>
    ensures { IfOk result (λ line. line ≡ warning_line file.now warning.now) }
{
    let mut line = Seq::from_slice(alloc, file)?;
    let place = format!(in alloc; ":{}: ", warning.line)?;
    line.extend_from_slice(place.as_bytes())?;
    line.extend_from_slice(severity(&warning.kind).as_bytes())?;
    line.extend_from_slice(warning_code(&warning.kind).as_bytes())?;
    line.extend_from_slice(b": ")?;
    put_warning_text(alloc, &mut line, &warning.kind)?;
    line.extend_from_slice(b"\n")?;
    Ok(line)
}

/// Returns the word before the code of a warning or a note, and a blank.
fn severity(kind: &WarningKind) -> &'static str
    ensures { result.now ≡ severity kind.now }
{
    if is_note(kind) { "note " } else { "warning " }
}

/// Returns the number of warnings that are not notes.
pub(crate) fn warning_count(warnings: &[Warning]) -> usize
    ensures { result ≡ count_by is_warned warnings.now }
{
    let mut count = 0;
    for warning in warnings {
        if !is_note(&warning.kind) {
            count += 1;
        }
    }
    count
}

/// Returns the number of notes.
pub(crate) fn note_count(warnings: &[Warning]) -> usize
    ensures { result ≡ count_by is_noted warnings.now }
{
    let mut count = 0;
    for warning in warnings {
        if is_note(&warning.kind) {
            count += 1;
        }
    }
    count
}

/// Appends the last line: the number of warnings, and the number of notes.
pub(crate) fn put_counts(
    alloc: Global,
    text: &mut Text,
    warnings: usize,
    notes: usize,
) -> Result<(), Memory>
    ensures { OnOk result (text.new ≡ text.old ++ counts_line warnings notes) }
{
    let line = format!(in alloc; "checked warnings={warnings} notes={notes}\n")?;
    text.extend_from_slice(line.as_bytes())
}
