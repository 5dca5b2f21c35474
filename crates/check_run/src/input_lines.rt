//! What a check prints for a source that is not refused: its warnings, and the lines of its touch layout and its script.

ghost use Rattle.std.specs.Prelude.{◌≡◌, ◌+◌, ◌++◌, flat_map, IfOk, OnOk};
ghost use Rattle.check_run.specs.Printed.{accepted_text, last_line, layout_lines, no_option, script_end, script_lines, unknown_line};

use crate::error_lines::reason_error;
use crate::findings::{InputFindings, LayoutFindings, ScriptFindings, UnknownOption};
use crate::warning_lines::{note_count, put_counts, put_warnings, warning_count};
use check_texts::put_shown;
use keyman_words::reason_line;
use kmn_base::{Memory, Seq, Text};
use source_warnings::Warning;
use std::alloc::Global;

/// Returns the text of a source that is not refused, with its warnings in the order of lines, and of its layout and its script.
pub(crate) fn accepted_text(
    alloc: Global,
    source: &[u8],
    layout: &[u8],
    keys: &[u8],
    warnings: &[Warning],
    inputs: &InputFindings,
) -> Result<Text, Memory>
    ensures { IfOk result (λ text. text ≡ accepted_text source.now layout.now keys.now warnings.now inputs.now) }
{
    let mut text = Seq::new(alloc);
    put_warnings(alloc, &mut text, source, warnings)?;
    put_layout(alloc, &mut text, source, layout, &inputs.layout)?;
    put_script(alloc, &mut text, keys, &inputs.script)?;
    put_last(alloc, &mut text, warnings, inputs)?;
    Ok(text)
}

/// Appends the line of the reason why a layout is refused, or the lines of the source's rules whose keys it lacks.
fn put_layout(
    alloc: Global,
    text: &mut Text,
    source: &[u8],
    layout: &[u8],
    found: &LayoutFindings,
) -> Result<(), Memory>
    ensures { OnOk result (text.new ≡ text.old ++ layout_lines source.now layout.now found.now) }
{
    match found {
        LayoutFindings::Refused(why) => text.append(reason_error(alloc, layout, *why)?),
        LayoutFindings::Accepted { warnings } => {
            put_warnings(alloc, text, source, warnings.as_slice())
        }
    }
}

/// Appends the line of the reason why a script is refused, or the lines of its unknown options.
fn put_script(
    alloc: Global,
    text: &mut Text,
    keys: &[u8],
    script: &ScriptFindings,
) -> Result<(), Memory>
    ensures { OnOk result (text.new ≡ text.old ++ script_lines keys.now script.now) }
{
    match script {
        ScriptFindings::Refused(why) => text.append(reason_error(alloc, keys, *why)?),
        ScriptFindings::Accepted { unknown } => put_unknown(alloc, text, keys, unknown.as_slice()),
    }
}

/// Appends the lines of unknown options.
fn put_unknown(
    alloc: Global,
    text: &mut Text,
    keys: &[u8],
    options: &[UnknownOption],
) -> Result<(), Memory>
    ensures { OnOk result (text.new ≡ text.old ++ flat_map (unknown_line keys.now) options.now) }
{
    for option in options {
        text.append(unknown_line(alloc, keys, option)?)?;
    }
    Ok(())
}

/// Returns the line of an unknown option.
#[tactic(auto, unfolding(crate::specs::Printed::unknown_line))]
fn unknown_line(alloc: Global, keys: &[u8], option: &UnknownOption) -> Result<Text, Memory>
    ensures { IfOk result (λ line. line ≡ unknown_line keys.now option.now) }
{
    let mut line = Seq::from_slice(alloc, keys)?;
    let place = format!(in alloc; ":{}", option.line)?;
    line.extend_from_slice(place.as_bytes())?;
    line.extend_from_slice(no_option().as_bytes())?;
    put_shown(&mut line, option.name.as_slice())?;
    line.extend_from_slice(b"'\n")?;
    Ok(line)
}

/// Returns what is printed of W19 before the name of the option.
#[tactic(auto, unfolding(crate::specs::Printed::no_option))]
fn no_option() -> &'static str
    ensures { result.now ≡ no_option }
{
    ": warning W19: the keyboard has no option '"
}

/// Appends the last line.
fn put_last(
    alloc: Global,
    text: &mut Text,
    warnings: &[Warning],
    inputs: &InputFindings,
) -> Result<(), Memory>
    ensures { OnOk result (text.new ≡ text.old ++ last_line warnings.now inputs.now.layout inputs.now.script) }
{
    match &inputs.layout {
        LayoutFindings::Refused(why) => text.append(reason_line(alloc, *why)?),
        LayoutFindings::Accepted { warnings: more } => {
            put_script_end(alloc, text, warnings, more.as_slice(), &inputs.script)
        }
    }
}

/// Appends the last line for a layout that is not refused and has these more warnings.
fn put_script_end(
    alloc: Global,
    text: &mut Text,
    warnings: &[Warning],
    more: &[Warning],
    script: &ScriptFindings,
) -> Result<(), Memory>
    ensures { OnOk result (text.new ≡ text.old ++ script_end warnings.now more.now script.now) }
{
    match script {
        ScriptFindings::Refused(why) => text.append(reason_line(alloc, *why)?),
        ScriptFindings::Accepted { unknown } => {
            let others = sum(more.len(), unknown.len())?;
            let all = sum(warning_count(warnings), others)?;
            put_counts(alloc, text, all, note_count(warnings))
        }
    }
}

/// Returns a sum.
///
/// Errors: `Memory` if the sum does not fit, since lists of that many items do not fit in memory.
fn sum(a: usize, b: usize) -> Result<usize, Memory>
    ensures { IfOk result (λ sum. sum ≡ a + b) }
{
    a.checked_add(b).ok_or(Memory)
}
