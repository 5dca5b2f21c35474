//! A sink over a real writer, such as standard output.

ghost use Rattle.std.specs.Prelude.{◌≡◌, ◌≢◌, ◌<◌, ◌≤◌, Ok, Err, [], length, IfOk};
ghost use Rattle.kmn_outside.specs.Outside.{WriteCounts};

use crate::{Sink, WriteError};
use std::io::{self, Write};
use std::marker::Model;

/// A sink over a writer, such as standard output. Contracts model it as its count of faults and state nothing about the bytes.
#[derive(Drop)]
pub struct StreamSink<W: Write> {
    writer: W,
    faults: u64,
}

impl<W: Write> Model for StreamSink<W> {
    ghost use Rattle.std.specs.Prelude.{ℕ};

    ghost Value = { ℕ };

    ghost view = { λ s. s.faults };
}

impl<W: Write> StreamSink<W> {
    /// Creates a sink over a writer, with no faults.
    pub fn new(writer: W) -> StreamSink<W>
        ensures { result ≡ 0 }
    {
        StreamSink { writer, faults: 0 }
    }
}

impl<W: Write> Sink for StreamSink<W> {
    ghost use Rattle.std.specs.Prelude.{false, []};

    ghost told = { λ _. false };

    ghost written = { λ _. [] };

    ghost faults = { λ faults. faults };

    /// Flushes the accepted bytes, so that they are out when the call returns. Accepting no byte of a piece that has bytes is a fault.
    fn put(&mut self, bytes: &[u8]) -> Result<usize, WriteError>
        ensures counts { WriteCounts self.old self.new result }
        ensures takes { IfOk result (λ count. (count ≤ length bytes.now) × (0 < length bytes.now → 0 < count)) }
        ensures empty { bytes.now ≡ [] → result ≡ Ok 0 }
        ensures memory { result ≢ Err WriteError.Memory }
    {
        if bytes.is_empty() {
            return Ok(0);
        }
        match write_through(&mut self.writer, bytes) {
            Ok(count) if count > 0 => Ok(count),
            _ => {
                self.faults = self.faults.saturating_add(1);
                Err(WriteError::Failed)
            }
        }
    }
}

/// Writes the first part of a piece and flushes it. Returns the number of bytes.
fn write_through<W: Write>(writer: &mut W, bytes: &[u8]) -> io::Result<usize>
    ensures { IfOk result (λ count. count ≤ length bytes.now) }
{
    let count = writer.write(bytes)?;
    writer.flush()?;
    Ok(count)
}
