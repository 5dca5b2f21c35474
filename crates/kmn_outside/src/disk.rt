//! The folder of real files.

ghost use Rattle.std.specs.Prelude.{◌≡◌, ◌≢◌, Err};
ghost use Rattle.std.specs.Str.{IsUtf8};
ghost use Rattle.kmn_outside.specs.Outside.{ReadCounts, WriteCounts, IsLimited};

use crate::saving::save;
use crate::{Folder, ReadError, WriteError};
use kmn_base::Seq;
use std::alloc::Global;
use std::fs::File;
use std::io::{self, ErrorKind, Read};
use std::marker::Model;
use std::rt::Files;

/// The folder of real files: a name is a path. Contracts model it as its count of faults and state nothing about its files.
#[derive(Drop)]
pub struct DiskFolder<R: Files> {
    runtime: R,
    faults: u64,
}

impl<R: Files> Model for DiskFolder<R> {
    ghost use Rattle.std.specs.Prelude.{ℕ};

    ghost Value = { ℕ };

    ghost view = { λ s. s.faults };
}

impl<R: Files> DiskFolder<R> {
    /// Creates the folder of the files that the runtime reaches, with no faults.
    pub fn new(runtime: R) -> DiskFolder<R>
        ensures { result ≡ 0 }
    {
        DiskFolder { runtime, faults: 0 }
    }
}

impl<R: Files> Folder for DiskFolder<R> {
    ghost use Rattle.std.specs.Prelude.{false, [], None};

    ghost told = { λ _. false };

    ghost files = { λ _ _. None };

    ghost calls = { λ _. [] };

    ghost faults = { λ faults. faults };

    /// Reads at most one byte past the limit. Each error of the system is a fault, unless an allocation fails.
    fn read(&mut self, alloc: Global, name: &[u8], limit: usize) -> Result<Seq<u8>, ReadError>
        ensures counts { ReadCounts self.old self.new result }
        ensures limited { IsLimited limit result }
        ensures no_path { ¬ IsUtf8 name.now → result ≡ Err ReadError.Failed }
    {
        let answer = read_file(&self.runtime, alloc, name, limit);
        if let Err(ReadError::Failed) = answer {
            self.faults = self.faults.saturating_add(1);
        }
        answer
    }

    /// Replaces the file with these bytes atomically: the file has all of them or is unchanged. A file that is not regular
    /// receives the bytes directly. Each error is a fault, also if an allocation for the name of the new file fails.
    fn write(&mut self, alloc: Global, name: &[u8], bytes: &[u8]) -> Result<(), WriteError>
        ensures counts { WriteCounts self.old self.new result }
        ensures memory { result ≢ Err WriteError.Memory }
        ensures no_path { ¬ IsUtf8 name.now → result ≡ Err WriteError.Failed }
    {
        match str::from_utf8(name) {
            Ok(path) if save(&self.runtime, alloc, path, bytes).is_ok() => Ok(()),
            _ => {
                self.faults = self.faults.saturating_add(1);
                Err(WriteError::Failed)
            }
        }
    }
}

/// Reads the bytes of a file. A name is a path if it is UTF-8; otherwise no file has it.
fn read_file<R: Files>(
    runtime: &R,
    alloc: Global,
    name: &[u8],
    limit: usize,
) -> Result<Seq<u8>, ReadError>
    ensures limited { IsLimited limit result }
    ensures no_path { ¬ IsUtf8 name.now → result ≡ Err ReadError.Failed }
{
    let Ok(path) = str::from_utf8(name) else {
        return Err(ReadError::Failed);
    };
    match first_bytes(runtime, alloc, path, (limit as u64).saturating_add(1)) {
        Ok(bytes) if bytes.len() > limit => Err(ReadError::Over(limit as u64 + 1)),
        Ok(bytes) => Ok(Seq::from_vec(bytes)),
        Err(error) if error.kind() == ErrorKind::OutOfMemory => Err(ReadError::Memory),
        Err(_) => Err(ReadError::Failed),
    }
}

/// Reads the first bytes of a file, at most `count`.
fn first_bytes<R: Files>(
    runtime: &R,
    alloc: Global,
    path: &str,
    count: u64,
) -> io::Result<Vec<u8>> {
    let mut bytes = Vec::new(alloc);
    File::open(runtime, path)?
        .take(count)
        .read_to_end(&mut bytes)?;
    Ok(bytes)
}
