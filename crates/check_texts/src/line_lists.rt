//! The texts of W07, which has the lines of rules.

ghost use Rattle.std.specs.Prelude.{◌≡◌, ◌++◌, flat_map, length, IfOk, OnOk};
ghost use Rattle.check_texts.specs.WarningTexts.{first_line, joined_text, listed_lines, next_line, one_line, several_lines, too_many_text};

use kmn_base::{Memory, Text};
use name_warnings::WarningKind;
use std::alloc::Global;

/// Appends the text about a dead rule, with the lines of the rules before it.
pub(crate) fn put_never_first(alloc: Global, text: &mut Text, lines: &[u32]) -> Result<(), Memory>
    ensures { OnOk result (text.new ≡ text.old ++ joined_text (WarningKind.NeverFirst lines.now)) }
{
    text.extend_from_slice(b"this rule never comes first, behind ")?;
    put_listed(alloc, text, lines)
}

/// Appends lines with commas between them.
#[tactic(auto, unfolding(crate::specs::WarningTexts::listed_lines))]
fn put_listed(alloc: Global, text: &mut Text, lines: &[u32]) -> Result<(), Memory>
    ensures { OnOk result (text.new ≡ text.old ++ listed_lines lines.now) }
{
    match lines {
        [] => Ok(()),
        [first, more @ ..] => put_first(alloc, text, *first, more),
    }
}

/// Appends a line and more lines after it.
fn put_first(alloc: Global, text: &mut Text, first: u32, more: &[u32]) -> Result<(), Memory>
    ensures { OnOk result (text.new ≡ text.old ++ (first_line (length more.now) first ++ flat_map next_line more.now)) }
{
    text.append(first_line(alloc, more.len(), first)?)?;
    put_more(alloc, text, more)
}

/// Appends lines after others.
fn put_more(alloc: Global, text: &mut Text, lines: &[u32]) -> Result<(), Memory>
    ensures { OnOk result (text.new ≡ text.old ++ flat_map next_line lines.now) }
{
    for line in lines {
        text.append(next_line(alloc, *line)?)?;
    }
    Ok(())
}

/// Returns the first of several lines, before this many more.
#[tactic(auto, unfolding(crate::specs::WarningTexts::first_line))]
fn first_line(alloc: Global, more: usize, line: u32) -> Result<Text, Memory>
    ensures { IfOk result (λ text. text ≡ first_line more line) }
{
    if more == 0 {
        one_line(alloc, line)
    } else {
        several_lines(alloc, line)
    }
}

/// Returns a line that is the only one.
#[tactic(auto, unfolding(crate::specs::WarningTexts::one_line))]
fn one_line(alloc: Global, line: u32) -> Result<Text, Memory>
    ensures { IfOk result (λ text. text ≡ one_line line) }
{
    let text = format!(in alloc; "line {line}")?;
    Ok(Text::from_string(text))
}

/// Returns a line before others.
#[tactic(auto, unfolding(crate::specs::WarningTexts::several_lines))]
fn several_lines(alloc: Global, line: u32) -> Result<Text, Memory>
    ensures { IfOk result (λ text. text ≡ several_lines line) }
{
    let text = format!(in alloc; "lines {line}")?;
    Ok(Text::from_string(text))
}

/// Returns a line after others.
#[tactic(auto, unfolding(crate::specs::WarningTexts::next_line))]
fn next_line(alloc: Global, line: u32) -> Result<Text, Memory>
    ensures { IfOk result (λ text. text ≡ next_line line) }
{
    let text = format!(in alloc; ", {line}")?;
    Ok(Text::from_string(text))
}

/// Appends the text of the note that this many records are too many.
pub(crate) fn put_too_many(alloc: Global, text: &mut Text, records: u64) -> Result<(), Memory>
    ensures { OnOk result (text.new ≡ text.old ++ joined_text (WarningKind.NeverFirstNotSought records)) }
{
    text.append(too_many_text(alloc, records)?)
}

/// Returns the text of the note that this many records are too many.
#[tactic(auto, unfolding(crate::specs::WarningTexts::too_many_text))]
fn too_many_text(alloc: Global, records: u64) -> Result<Text, Memory>
    ensures { IfOk result (λ text. text ≡ too_many_text records) }
{
    let text = format!(in alloc; "{records} records are too many to look for dead rules")?;
    Ok(Text::from_string(text))
}
