//! What a check prints, and the status that it ends with.

ghost use Rattle.std.specs.Prelude.{◌≡◌, ◌++◌, option_map, IfOk, OnOk};
ghost use Rattle.check_run.specs.Inputs.{is_accepted, is_sound};
ghost use Rattle.check_run.specs.Printed.{PrintsStopped, accepted_text, check_status, check_text, input_status, name_of, refused_text, rest_line, stopped_text};
ghost use Rattle.keyman_words.specs.Tells.{Tells};

use crate::error_lines::{put_lines, reason_error};
use crate::findings::{Findings, InputFindings, LayoutFindings, ScriptFindings};
use crate::input_lines::accepted_text;
use keyman_run::Stop;
use keyman_words::{Reason, Status, print_result, reason_line};
use kmn_base::{Memory, Refusal, Seq, Text};
use kmn_outside::Sink;
use refusal_details::Explained;
use source_warnings::Warning;
use std::alloc::Global;

/// Prints what a check finds in a source with a name, and in the layout and the script with the other names.
#[tactic(auto, using(crate::proofs::Endings::accepted_tells))]
pub(crate) fn print_findings<S: Sink>(
    alloc: Global,
    source: &[u8],
    layout: Option<&Text>,
    keys: Option<&Text>,
    findings: &Findings,
    out: &mut S,
) -> Status
    ensures { Tells (check_status findings.now) (check_text source.now (option_map (λ name. name.now) layout.entry) (option_map (λ name. name.now) keys.entry) findings.now) S.Sink out.old out.new result }
{
    match findings {
        Findings::Accepted { warnings, inputs } => print_accepted(
            alloc,
            source,
            name_of(layout),
            name_of(keys),
            warnings.as_slice(),
            inputs,
            out,
        ),
        Findings::Refused {
            first,
            errors,
            more,
        } => print_refused(alloc, source, *first, errors.as_slice(), *more, out),
    }
}

/// Returns the name of an input, or no bytes if there is none.
fn name_of<'a>(name: Option<&'a Text>) -> &'a [u8]
    ensures { result.now ≡ name_of (option_map (λ name. name.now) name.entry) }
{
    match name {
        Some(name) => name.as_slice(),
        None => &[],
    }
}

/// Prints what a check finds in a source that is not refused, in a layout and in a script.
fn print_accepted<S: Sink>(
    alloc: Global,
    source: &[u8],
    layout: &[u8],
    keys: &[u8],
    warnings: &[Warning],
    inputs: &InputFindings,
    out: &mut S,
) -> Status
    ensures { Tells (input_status inputs.now) (accepted_text source.now layout.now keys.now warnings.now inputs.now) S.Sink out.old out.new result }
{
    let text = accepted_text(alloc, source, layout, keys, warnings, inputs);
    if is_sound(inputs) {
        print_result(text, Status::Done, out)
    } else {
        print_result(text, Status::Refused, out)
    }
}

/// Returns whether neither a layout nor a script is refused.
#[tactic(auto, unfolding(crate::specs::Inputs::is_sound))]
fn is_sound(inputs: &InputFindings) -> bool
    ensures { result ≡ is_sound inputs.now }
{
    match &inputs.layout {
        LayoutFindings::Refused(_) => false,
        LayoutFindings::Accepted { .. } => is_accepted(&inputs.script),
    }
}

/// Returns whether a script is accepted.
fn is_accepted(script: &ScriptFindings) -> bool
    ensures { result ≡ is_accepted script.now }
{
    match script {
        ScriptFindings::Refused(_) => false,
        ScriptFindings::Accepted { .. } => true,
    }
}

/// Prints the errors of a source.
fn print_refused<S: Sink>(
    alloc: Global,
    file: &[u8],
    first: Refusal,
    errors: &[Explained],
    more: usize,
    out: &mut S,
) -> Status
    ensures { Tells Status.Refused (refused_text file.now first errors.now more) S.Sink out.old out.new result }
{
    print_result(
        refused_text(alloc, file, first, errors, more),
        Status::Refused,
        out,
    )
}

/// Ends a check that stops before the file of the source is checked. A refusal prints its error, and then the line that compilation
/// prints.
#[tactic(auto, using(keyman_words::proofs::Printed::tells_made))]
pub(crate) fn print_stopped<S: Sink>(alloc: Global, file: &[u8], stop: Stop, out: &mut S) -> Status
    ensures { PrintsStopped file.now stop S.Sink out.old out.new result }
{
    match stop {
        Stop::Refused(why) => print_result(stopped_text(alloc, file, why), Status::Refused, out),
        Stop::ReadFault => Status::ReadFault,
        Stop::Memory => Status::Memory,
    }
}

/// Returns the text of a reason for which a check stops.
fn stopped_text(alloc: Global, file: &[u8], why: Reason) -> Result<Text, Memory>
    ensures { IfOk result (λ text. text ≡ stopped_text file.now why) }
{
    let mut text = reason_error(alloc, file, why)?;
    text.append(reason_line(alloc, why)?)?;
    Ok(text)
}

/// Returns the text of refusals that are printed, and of the number of the others. The first refusal is the one that compilation reports.
fn refused_text(
    alloc: Global,
    file: &[u8],
    first: Refusal,
    errors: &[Explained],
    more: usize,
) -> Result<Text, Memory>
    ensures { IfOk result (λ text. text ≡ refused_text file.now first errors.now more) }
{
    let mut text = Seq::new(alloc);
    put_lines(alloc, &mut text, file, errors)?;
    put_rest(alloc, &mut text, more)?;
    text.append(reason_line(alloc, Reason::Line(first))?)?;
    Ok(text)
}

/// Appends the line for refusals that are not printed.
fn put_rest(alloc: Global, lines: &mut Text, count: usize) -> Result<(), Memory>
    ensures { OnOk result (lines.new ≡ lines.old ++ rest_line count) }
{
    if count == 0 {
        return Ok(());
    }
    let line = format!(in alloc; "and {count} more\n")?;
    lines.extend_from_slice(line.as_bytes())
}
