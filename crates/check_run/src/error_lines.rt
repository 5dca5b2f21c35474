//! The lines of errors, in the form that editors read.

ghost use Rattle.std.specs.Prelude.{◌≡◌, ◌++◌, flat_map, IfOk, OnOk};
ghost use Rattle.check_run.specs.Printed.{error_line, layout_line, place_text, reason_error};
ghost use Rattle.refusal_details.specs.Explained.{unexplained};

use check_texts::{put_advice, put_detail, put_meaning};
use keyman_words::Reason;
use kmn_base::{Memory, Refusal, Seq, Text};
use refusal_details::{Explained, unexplained};
use refusal_places::Placed;
use std::alloc::Global;
use touch_layout::{LayoutFault, LayoutPlace};

/// Returns the line of a reason in the form that editors read, and no text for a reason for which a check refuses no input.
pub(crate) fn reason_error(alloc: Global, file: &[u8], why: Reason) -> Result<Text, Memory>
    ensures { IfOk result (λ line. line ≡ reason_error file.now why) }
{
    match why {
        Reason::Line(refusal) => plain_line(alloc, file, refusal),
        Reason::Size { code, .. } => plain_line(alloc, file, Refusal { line: 1, code }),
        Reason::Layout(fault) => layout_line(alloc, file, fault),
        _ => Ok(Seq::new(alloc)),
    }
}

/// Returns the line of a refusal at the start of its line, without a detail.
fn plain_line(alloc: Global, file: &[u8], refusal: Refusal) -> Result<Text, Memory>
    ensures { IfOk result (λ line. line ≡ error_line file.now (unexplained refusal)) }
{
    let error = unexplained(refusal);
    error_line(alloc, file, &error)
}

/// Appends the lines of refusals.
pub(crate) fn put_lines(
    alloc: Global,
    lines: &mut Text,
    file: &[u8],
    errors: &[Explained],
) -> Result<(), Memory>
    ensures { OnOk result (lines.new ≡ lines.old ++ flat_map (error_line file.now) errors.now) }
{
    for error in errors {
        lines.append(error_line(alloc, file, error)?)?;
    }
    Ok(())
}

/// Returns the line of a refusal.
#[tactic(auto, unfolding(crate::specs::Printed::error_line))]
fn error_line(alloc: Global, file: &[u8], error: &Explained) -> Result<Text, Memory>
    ensures { IfOk result (λ line. line ≡ error_line file.now error.now) }
{
    let mut line = Seq::from_slice(alloc, file)?;
    line.append(place_text(alloc, error.placed)?)?;
    line.extend_from_slice(error.placed.code.text())?;
    line.extend_from_slice(b": ")?;
    put_meaning(&mut line, error.placed.code)?;
    put_detail(alloc, &mut line, &error.detail)?;
    put_advice(&mut line, error.placed.code, &error.detail)?;
    line.extend_from_slice(b"\n")?;
    Ok(line)
}

/// Returns the text of a place, between the name of the file and the code.
#[tactic(auto, unfolding(crate::specs::Printed::place_text))]
fn place_text(alloc: Global, placed: Placed) -> Result<Text, Memory>
    ensures { IfOk result (λ text. text ≡ place_text placed) }
{
    let text = format!(in alloc; ":{}:{}: error ", placed.line, placed.column)?;
    Ok(Text::from_string(text))
}

/// Returns the line of a rule that a layout breaks, with its place.
#[tactic(auto, unfolding(crate::specs::Printed::layout_line))]
fn layout_line(alloc: Global, file: &[u8], fault: LayoutFault) -> Result<Text, Memory>
    ensures { IfOk result (λ line. line ≡ layout_line file.now fault) }
{
    let mut line = Seq::from_slice(alloc, file)?;
    line.extend_from_slice(b":1:1: error ")?;
    line.extend_from_slice(fault.code.text())?;
    line.extend_from_slice(b": ")?;
    put_meaning(&mut line, fault.code)?;
    let LayoutPlace {
        platform,
        layer,
        row,
        key,
    } = fault.place;
    let rest = format!(in alloc; ": platform {platform} layer {layer} row {row} key {key}\n")?;
    line.extend_from_slice(rest.as_bytes())?;
    Ok(line)
}
