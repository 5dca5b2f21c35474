//! Prints a whole line to a sink that may accept only a part of it at a time.

ghost use Rattle.std.specs.Prelude.{◌≡◌, IsTrue};
ghost use Rattle.kmn_outside.specs.Outside.{WriteCounts};
ghost use Rattle.play_transcript.specs.Printing.{Prints};

use kmn_base::slices::behind;
use kmn_outside::{Sink, WriteError};

/// Prints a line as one piece. If the sink accepts only the beginning of the line, prints the rest after it.
#[tactic(auto, using(crate::proofs::PrintingLaws::faults, crate::proofs::PrintingLaws::put_on, crate::proofs::PrintingLaws::put_stops))]
pub fn put_all<S: Sink>(out: &mut S, line: &[u8]) -> Result<(), WriteError>
    ensures counts { WriteCounts (S.faults out.old) (S.faults out.new) result }
    ensures told { S.told out.new ≡ S.told out.old }
    ensures prints { IsTrue (S.told out.old) → Prints (S.written out.old) (S.written out.new) line.now result }
{
    let mut rest = line;
    while !rest.is_empty() {
        let count = out.put(rest)?;
        rest = behind(rest, count);
    }
    Ok(())
}
