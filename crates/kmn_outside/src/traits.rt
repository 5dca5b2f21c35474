//! The traits of a folder of files and of a sink, and their errors. Other crates know an implementation only by the clauses of
//! its trait.

ghost use Rattle.std.specs.Prelude.{◌≡◌, ℕ, ◌<◌, ◌≤◌, Bool, List, Option, length, IfOk, IsTrue};
ghost use Rattle.kmn_outside.specs.Outside.{ReadCounts, IsLimited, WriteCounts, Reads, Writes, Puts};

use kmn_base::{Memory, Seq, Text};
use std::alloc::Global;
use thiserror::Error;

/// Why a file was not read.
#[derive(Clone, Copy, Debug, PartialEq, Eq, Error)]
pub enum ReadError {
    #[error("the file can't be read")]
    Failed,
    /// The file is longer than the limit. The number is one more than the limit.
    #[error("the file has {0} bytes or more")]
    Over(u64),
    #[error("out of memory")]
    Memory,
}

/// Why bytes were not written.
#[derive(Clone, Copy, Debug, PartialEq, Eq, Error)]
pub enum WriteError {
    #[error("the bytes can't be written")]
    Failed,
    #[error("out of memory")]
    Memory,
}

impl From<Memory> for ReadError {
    ghost use Rattle.std.specs.Prelude.{◌≡◌};
    ghost use Rattle.kmn_outside.specs.declared.traits.ReadError.TheVariants as variants;

    ghost from_gives = { λ _ e. e ≡ variants.Memory };

    fn from(_memory: Memory) -> ReadError {
        ReadError::Memory
    }
}

impl From<Memory> for WriteError {
    ghost use Rattle.std.specs.Prelude.{◌≡◌};
    ghost use Rattle.kmn_outside.specs.declared.traits.WriteError.TheVariants as variants;

    ghost from_gives = { λ _ e. e ≡ variants.Memory };

    fn from(_memory: Memory) -> WriteError {
        WriteError::Memory
    }
}

/// A call of a folder: the requested name, whether it was a write, and whether it failed.
#[derive(Drop)]
pub struct Call {
    pub name: Text,
    pub is_write: bool,
    pub failed: bool,
}

/// A store of files by name.
pub trait Folder {
    ghost use Rattle.kmn_outside.specs.declared.traits.Call.{Call};

    /// Whether the folder exposes its files and its calls.
    ghost told: { Self → Bool };
    /// The file of each name, or None if there is none.
    ghost files: { Self → (List ℕ → Option (List ℕ)) };
    /// The calls so far that did not run out of memory, in order.
    ghost calls: { Self → List Call };
    /// The number of faults so far, which saturates at the maximum of 64 bits.
    ghost faults: { Self → ℕ };

    /// Reads a whole file of at most `limit` bytes. No file is longer than the greatest limit.
    fn read(&mut self, alloc: Global, name: &[u8], limit: usize) -> Result<Seq<u8>, ReadError>
        ensures counts { ReadCounts (faults self.old) (faults self.new) result }
        ensures limited { IsLimited limit result }
        ensures told { told self.new ≡ told self.old }
        ensures reads { IsTrue (told self.old) → Reads (files self.old) (files self.new) (calls self.old) (calls self.new) name.now limit result };

    /// Stores these bytes as the file of a name.
    fn write(&mut self, alloc: Global, name: &[u8], bytes: &[u8]) -> Result<(), WriteError>
        ensures counts { WriteCounts (faults self.old) (faults self.new) result }
        ensures told { told self.new ≡ told self.old }
        ensures writes { IsTrue (told self.old) → Writes (files self.old) (files self.new) (calls self.old) (calls self.new) name.now bytes.now result };
}

/// A sink to which pieces of bytes are written in order.
pub trait Sink {
    /// Whether the sink exposes the written bytes.
    ghost told: { Self → Bool };
    /// All bytes written so far.
    ghost written: { Self → List ℕ };
    /// The number of faults so far, which saturates at the maximum of 64 bits.
    ghost faults: { Self → ℕ };

    /// Writes a piece, or the first part of it, and returns the number of accepted bytes.
    fn put(&mut self, bytes: &[u8]) -> Result<usize, WriteError>
        ensures counts { WriteCounts (faults self.old) (faults self.new) result }
        ensures takes { IfOk result (λ count. (count ≤ length bytes.now) × (0 < length bytes.now → 0 < count)) }
        ensures told { told self.new ≡ told self.old }
        ensures puts { IsTrue (told self.old) → Puts (written self.old) (written self.new) bytes.now result };
}
