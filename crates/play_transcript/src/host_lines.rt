//! The lines of a field, and the lines that only a play with several fields has.

ghost use Rattle.std.specs.Prelude.{◌≡◌, ◌++◌, IfOk, IsTrue};
ghost use Rattle.kmn_outside.specs.Outside.{WriteCounts};
ghost use Rattle.play_transcript.specs.Printing.{Prints};
ghost use Rattle.play_transcript.specs.HostText.{front, preview_line};

use crate::{fronted, put_all};
use kmn_base::{Memory, Outcome, Seq, Text};
use kmn_outside::{Sink, WriteError};
use play_script::{put_characters, put_counts};
use std::alloc::Global;

/// Returns the text at the front of each line of a field.
pub(crate) fn front(alloc: Global, field: u32) -> Result<Text, Memory>
    ensures { IfOk result (λ text. text ≡ front field) }
{
    let text = format!(in alloc; "f{field} ")?;
    Ok(Seq::from_vec(text.into_bytes()))
}

/// Prints a line of a field, with its front, as one piece.
#[tactic(auto, using(crate::proofs::PrintingLaws::faults))]
pub(crate) fn put_line<S: Sink>(
    alloc: Global,
    field: u32,
    line: Text,
    out: &mut S,
) -> Result<(), WriteError>
    ensures counts { WriteCounts (S.faults out.old) (S.faults out.new) result }
    ensures told { S.told out.new ≡ S.told out.old }
    ensures prints { IsTrue (S.told out.old) → Prints (S.written out.old) (S.written out.new) (front field ++ line) result }
{
    let front = front(alloc, field)?;
    let line = fronted(alloc, front.as_slice(), line)?;
    put_all(out, line.as_slice())
}

/// Returns the line of what a key press would do, without its front.
pub(crate) fn preview_line(
    alloc: Global,
    outcome: Outcome,
    inserted: &[char],
) -> Result<Text, Memory>
    ensures { IfOk result (λ line. line ≡ preview_line outcome inserted.now) }
{
    let mut line = format!(in alloc; "preview del={} ins=", outcome.delete)?;
    put_characters(&mut line, inserted)?;
    put_counts(&mut line, outcome)?;
    line.push_str("\n")?;
    Ok(Seq::from_vec(line.into_bytes()))
}
