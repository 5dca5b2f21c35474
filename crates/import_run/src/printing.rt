//! What an import prints: the number of lines, and each change of a line.

ghost use Rattle.std.specs.Prelude.{◌≡◌, ◌++◌, ◌≤◌, flat_map, length, IfOk, OnOk};
ghost use Rattle.kmn_lines.specs.Lines.{ends_line};
ghost use Rattle.import_run.specs.Printed.{change_line, change_word, changed_count, imported_line, imported_text, line_count};

use import_lines::ChangeKind;
use kmn_base::slices::behind;
use kmn_base::{Memory, Text};
use kmn_import::{Change, Imported};
use std::alloc::Global;

/// Returns what is printed for an imported source.
pub(crate) fn imported_text(alloc: Global, new: &Imported) -> Result<Text, Memory>
    ensures { IfOk result (λ text. text ≡ imported_text new.now) }
{
    let mut text = imported_line(
        alloc,
        line_count(new.text.as_slice()),
        changed_count(new.changes.as_slice()),
    )?;
    put_changes(alloc, &mut text, new.changes.as_slice())?;
    Ok(text)
}

/// Returns the line of an imported source with these numbers of lines and of changed lines.
#[tactic(auto, unfolding(crate::specs::Printed::imported_line))]
fn imported_line(alloc: Global, lines: usize, changed: usize) -> Result<Text, Memory>
    ensures { IfOk result (λ line. line ≡ imported_line lines changed) }
{
    let line = format!(in alloc; "imported lines={lines} changed={changed}\n")?;
    Ok(Text::from_string(line))
}

/// Returns the number of physical lines of bytes.
fn line_count(bytes: &[u8]) -> usize
    ensures { result ≡ line_count bytes.now }
{
    let mut count = 0;
    let mut rest = bytes;
    while let [first, second, ..] = rest {
        count += usize::from(ends_line(*first, *second));
        rest = behind(rest, 1);
    }
    match rest {
        [_, ..] => count + 1,
        [] => count,
    }
}

/// Returns whether a byte ends its line, given the next byte.
fn ends_line(byte: u8, next: u8) -> bool
    ensures { result ≡ ends_line byte next }
{
    byte == b'\n' || (byte == b'\r' && next != b'\n')
}

/// Returns the number of lines that changes in rising order name.
fn changed_count(changes: &[Change]) -> usize
    ensures { result ≡ changed_count 0 changes.now }
{
    let mut count = 0;
    let mut last = 0;
    for change in changes {
        count += usize::from(change.line != last);
        last = change.line;
    }
    count
}

/// Appends the lines of changes.
fn put_changes(alloc: Global, text: &mut Text, changes: &[Change]) -> Result<(), Memory>
    ensures { OnOk result (text.new ≡ text.old ++ flat_map change_line changes.now) }
{
    for change in changes {
        text.append(change_line(alloc, *change)?)?;
    }
    Ok(())
}

/// Returns the line of a change.
#[tactic(auto, unfolding(crate::specs::Printed::change_line))]
fn change_line(alloc: Global, change: Change) -> Result<Text, Memory>
    ensures { IfOk result (λ line. line ≡ change_line change) }
{
    let number = change.line;
    let word = change_word(change.kind);
    let line = format!(in alloc; "changed {number} {word}\n")?;
    Ok(Text::from_string(line))
}

/// Returns the word of a change.
fn change_word(kind: ChangeKind) -> &'static str
    ensures { result.now ≡ change_word kind }
{
    match kind {
        ChangeKind::Bytes => "bytes",
        ChangeKind::Range => "range",
        ChangeKind::Key => "key",
        ChangeKind::Header => "header",
        ChangeKind::Version => "version",
        ChangeKind::Caps => "caps",
        ChangeKind::Mnemonic => "mnemonic",
        ChangeKind::Begin => "begin",
        ChangeKind::Layer => "layer",
        ChangeKind::Readonly => "readonly",
    }
}
