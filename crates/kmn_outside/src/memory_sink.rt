//! A fake sink that keeps the written bytes in memory, and fails at given calls.

ghost use Rattle.std.specs.Prelude.{◌≡◌, ◌≢◌, ◌<◌, ◌≤◌, Ok, Err, [], length, IfOk, if◌then◌else◌};
ghost use Rattle.kmn_outside.specs.Outside.{WriteCounts, Puts};
ghost use Rattle.kmn_outside.specs.Memory.{is_due, after_put};

use crate::counts::is_due;
use crate::{Sink, WriteError};
use kmn_base::Seq;
use std::alloc::Global;
use std::marker::Model;

/// A sink that keeps the written bytes. The calls with the given numbers fail.
pub struct MemorySink {
    written: Seq<u8>,
    fails: Seq<u32>,
    made: u32,
    faults: u64,
}

/// One call in proofs. A derived drop would be written out in each exit.
impl Drop for MemorySink {
    fn drop(self) {
        let MemorySink {
            written: _,
            fails: _,
            made: _,
            faults: _,
        } = self;
    }
}

impl Model for MemorySink {
    ghost use Rattle.kmn_outside.specs.Memory.{SinkState};

    ghost Value = { SinkState };

    ghost view = { λ s. record { written = s.written; fails = s.fails; made = s.made; faults = s.faults } };
}

impl MemorySink {
    /// Creates an empty sink. `fails` lists the calls that fail, counted from 1. Calls that ran out of memory do not count.
    pub fn new(alloc: Global, fails: Seq<u32>) -> MemorySink
        ensures { result ≡ record { written = []; fails = fails; made = 0; faults = 0 } }
    {
        MemorySink {
            written: Seq::new(alloc),
            fails,
            made: 0,
            faults: 0,
        }
    }

    /// Returns all bytes written so far.
    pub fn written(&self) -> &[u8]
        ensures { result.now ≡ self.now.written }
    {
        self.written.as_slice()
    }
}

impl Sink for MemorySink {
    ghost use Rattle.std.specs.Prelude.{true};

    ghost told = { λ _. true };

    ghost written = { λ sink. sink.written };

    ghost faults = { λ sink. sink.faults };

    /// Accepts the whole piece at each call that doesn't fail.
    fn put(&mut self, bytes: &[u8]) -> Result<usize, WriteError>
        ensures counts { WriteCounts self.old.faults self.new.faults result }
        ensures takes { IfOk result (λ count. (count ≤ length bytes.now) × (0 < length bytes.now → 0 < count)) }
        ensures puts { Puts self.old.written self.new.written bytes.now result }
        ensures answer { result ≢ Err WriteError.Memory → result ≡ (if is_due self.old.fails self.old.made then Err WriteError.Failed else Ok (length bytes.now)) }
        ensures after { self.new ≡ after_put self.old bytes.now result }
    {
        let failed = is_due(self.fails.as_slice(), self.made as usize);
        if !failed && self.written.extend_from_slice(bytes).is_err() {
            return Err(WriteError::Memory);
        }
        self.made = self.made.saturating_add(1);
        if failed {
            self.faults = self.faults.saturating_add(1);
            return Err(WriteError::Failed);
        }
        Ok(bytes.len())
    }
}
