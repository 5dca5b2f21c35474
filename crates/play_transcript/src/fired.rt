//! The lines that are printed for a traced script, each with its LF.

ghost use Rattle.std.specs.Prelude.{◌≡◌, ◌++◌, flat_map, IfOk};
ghost use Rattle.std.specs.String.{string_bytes};
ghost use Rattle.play_transcript.specs.TraceText.{fired_line, hit_if_any, never_chosen, never_line, events_line, hits_text};

use kmn_base::{Memory, Text};
use rule_model::put_numbers;
use rule_trace::Hit;
use std::alloc::{AllocError, Global};

/// Returns the line of an event: its number, and the lines of the rules that fired.
pub(crate) fn fired_line(alloc: Global, number: u32, lines: &[u32]) -> Result<Text, Memory>
    ensures { IfOk result (λ line. line ≡ fired_line number lines.now) }
{
    let mut line = String::new(alloc);
    write!(&mut line, "{number} fired ")?;
    put_numbers(&mut line, lines)?;
    line.push_str("\n")?;
    Ok(Text::from_string(line))
}

/// Returns the last lines: how often each line fired, which lines never fired, and the number of events.
#[tactic(auto, unfolding(crate::specs::TraceText::hits_text))]
pub(crate) fn hits_text(alloc: Global, events: usize, hits: &[Hit]) -> Result<Text, Memory>
    ensures { IfOk result (λ text. text ≡ hits_text events hits.now) }
{
    let mut text = String::new(alloc);
    put_hits(&mut text, hits)?;
    put_never(alloc, &mut text, hits)?;
    put_events(&mut text, events)?;
    Ok(Text::from_string(text))
}

/// Appends a line for each hit whose count is not 0.
fn put_hits(text: &mut String, hits: &[Hit]) -> Result<(), AllocError>
    ensures { IfOk result (λ _. string_bytes text.new ≡ string_bytes text.old ++ flat_map hit_if_any hits.now) }
{
    for hit in hits {
        put_hit(text, *hit)?;
    }
    Ok(())
}

/// Appends the line of a hit if its count is not 0.
fn put_hit(text: &mut String, hit: Hit) -> Result<(), AllocError>
    ensures { IfOk result (λ _. string_bytes text.new ≡ string_bytes text.old ++ hit_if_any hit) }
{
    if hit.count == 0 {
        return Ok(());
    }
    write!(text, "hit {}={}\n", hit.line, hit.count)
}

/// Appends the line that lists the lines that never fired.
#[tactic(auto, unfolding(crate::specs::TraceText::never_line))]
fn put_never(alloc: Global, text: &mut String, hits: &[Hit]) -> Result<(), AllocError>
    ensures { IfOk result (λ _. string_bytes text.new ≡ string_bytes text.old ++ never_line hits.now) }
{
    let lines = never_chosen(alloc, hits)?;
    text.push_str("never ")?;
    put_numbers(text, lines.as_slice())?;
    text.push_str("\n")
}

/// Returns the lines of the hits whose count is 0.
fn never_chosen(alloc: Global, hits: &[Hit]) -> Result<Vec<u32>, AllocError>
    ensures { IfOk result (λ lines. lines.items ≡ never_chosen hits.now) }
{
    let mut lines = Vec::new(alloc);
    for hit in hits {
        if hit.count == 0 {
            lines.push(hit.line)?;
        }
    }
    Ok(lines)
}

/// Appends the last line: the number of events.
#[tactic(auto, unfolding(crate::specs::TraceText::events_line))]
fn put_events(text: &mut String, events: usize) -> Result<(), AllocError>
    ensures { IfOk result (λ _. string_bytes text.new ≡ string_bytes text.old ++ events_line events) }
{
    write!(text, "end events={events}\n")
}
