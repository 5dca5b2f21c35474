//! A fake folder that keeps its files in memory, lists its calls, and fails at given calls.

ghost use Rattle.std.specs.Prelude.{◌≡◌, ◌≢◌, ◌<◌, Ok, Err, Some, [], ◌∷◌, ◌++◌, true, length, All, vec_len, vec_capacity, IsTrue, MatchResult, option_map, if◌then◌else◌};
ghost use Rattle.std.specs.List.{position};
ghost use Rattle.std.specs.Str.{bytes_eq};
ghost use Rattle.kmn_outside.specs.Outside.{ReadCounts, IsLimited, WriteCounts, Reads, Writes, call_of};
ghost use Rattle.kmn_outside.specs.Memory.{is_due, are_distinct, file_of, put_file, listed, read_answer, after_read, after_write};

use crate::counts::is_due;
use crate::{Call, Folder, ReadError, WriteError};
use kmn_base::{Memory, Seq, Text};
use std::alloc::Global;
use std::marker::Model;

/// A folder that keeps its files and lists its calls. The calls with the given numbers fail.
pub struct MemoryFolder {
    files: Seq<(Text, Seq<u8>)>,
    fails: Seq<u32>,
    calls: Vec<Call>,
    faults: u64,
}

/// One call in proofs. A derived drop would be written out in each exit.
impl Drop for MemoryFolder {
    fn drop(self) {
        let MemoryFolder {
            files: _,
            fails: _,
            calls: _,
            faults: _,
        } = self;
    }
}

impl Model for MemoryFolder {
    ghost use Rattle.kmn_outside.specs.Memory.{FolderState};

    ghost Value = { FolderState };

    ghost view = { λ s. record { files = s.files; fails = s.fails; calls = s.calls.items; faults = s.faults } };
}

impl MemoryFolder {
    /// Creates a folder of these files, whose names are distinct. `fails` lists the calls that fail, counted from 1. Calls that
    /// ran out of memory do not count.
    pub fn new(alloc: Global, files: Seq<(Text, Seq<u8>)>, fails: Seq<u32>) -> MemoryFolder
        requires { IsTrue (are_distinct files) }
        ensures given { All (λ file. file_of result.files file.0 ≡ Some file.1) files }
        ensures state { result ≡ record { files = files; fails = fails; calls = []; faults = 0 } }
    {
        MemoryFolder {
            files,
            fails,
            calls: Vec::new(alloc),
            faults: 0,
        }
    }

    /// Returns the file of a name. This is not counted as a call.
    pub fn file(&self, name: &[u8]) -> Option<&[u8]>
        ensures { option_map (λ bytes. bytes.now) result ≡ file_of self.now.files name.now }
    {
        self.files
            .as_slice()
            .iter()
            .find(|file| name == file.0.as_slice())
            .map(|file| file.1.as_slice())
    }

    /// Returns the calls so far, in order.
    pub fn calls(&self) -> &[Call]
        ensures { result.now ≡ self.now.calls }
    {
        self.calls.as_slice()
    }

    /// Returns the result of a read, before the call is listed.
    fn answer(&self, alloc: Global, name: &[u8], limit: usize) -> Result<Seq<u8>, ReadError>
        ensures { result ≢ Err ReadError.Memory → result ≡ read_answer self.now name.now limit }
    {
        if is_due(self.fails.as_slice(), self.calls.len()) {
            return Err(ReadError::Failed);
        }
        let Some(bytes) = self.file(name) else {
            return Err(ReadError::Failed);
        };
        if bytes.len() > limit {
            return Err(ReadError::Over(limit as u64 + 1));
        }
        Ok(Seq::from_slice(alloc, bytes)?)
    }

    /// Appends a call to the list. Errors: `Memory` if an allocation fails; the list is then unchanged.
    fn list(
        &mut self,
        alloc: Global,
        name: &[u8],
        is_write: bool,
        failed: bool,
    ) -> Result<(), Memory>
        ensures { MatchResult result (λ _. self.new ≡ listed self.old (call_of name.now is_write failed)) (λ _. self.new ≡ self.old) }
    {
        let name = Seq::from_slice(alloc, name)?;
        self.calls.push(Call {
            name,
            is_write,
            failed,
        })?;
        if failed {
            self.faults = self.faults.saturating_add(1);
        }
        Ok(())
    }

    /// Stores these bytes as the file of a name and lists the call. Errors: `Memory` if an allocation fails; the folder is then
    /// unchanged.
    fn put(&mut self, alloc: Global, name: &[u8], bytes: &[u8], failed: bool) -> Result<(), Memory>
        ensures { MatchResult result
            (λ _. self.new ≡ record (listed self.old (call_of name.now true failed)) { files = put_file self.old.files name.now bytes.now })
            (λ _. self.new ≡ self.old) }
    {
        let call = Call {
            name: Seq::from_slice(alloc, name)?,
            is_write: true,
            failed,
        };
        self.calls.reserve(1)?;
        put_file(
            &mut self.files,
            Seq::from_slice(alloc, name)?,
            Seq::from_slice(alloc, bytes)?,
        )?;
        push_in_room(&mut self.calls, call);
        if failed {
            self.faults = self.faults.saturating_add(1);
        }
        Ok(())
    }
}

impl Folder for MemoryFolder {
    ghost told = { λ _. true };

    ghost files = { λ folder. file_of folder.files };

    ghost calls = { λ folder. folder.calls };

    ghost faults = { λ folder. folder.faults };

    fn read(&mut self, alloc: Global, name: &[u8], limit: usize) -> Result<Seq<u8>, ReadError>
        ensures counts { ReadCounts self.old.faults self.new.faults result }
        ensures limited { IsLimited limit result }
        ensures reads { Reads (file_of self.old.files) (file_of self.new.files) self.old.calls self.new.calls name.now limit result }
        ensures answer { result ≢ Err ReadError.Memory → result ≡ read_answer self.old name.now limit }
        ensures after { self.new ≡ after_read self.old name.now result }
    {
        let answer = self.answer(alloc, name, limit);
        if let Err(ReadError::Memory) = answer {
            return answer;
        }
        let failed = matches!(answer, Err(ReadError::Failed));
        self.list(alloc, name, false, failed)?;
        answer
    }

    /// A write that fails stores the first half of the bytes, as a disk that fills up does.
    fn write(&mut self, alloc: Global, name: &[u8], bytes: &[u8]) -> Result<(), WriteError>
        ensures counts { WriteCounts self.old.faults self.new.faults result }
        ensures writes { Writes (file_of self.old.files) (file_of self.new.files) self.old.calls self.new.calls name.now bytes.now result }
        ensures answer { result ≢ Err WriteError.Memory → result ≡ (if is_due self.old.fails (length self.old.calls) then Err WriteError.Failed else Ok tt) }
        ensures after { self.new ≡ after_write self.old name.now bytes.now result }
    {
        if is_due(self.fails.as_slice(), self.calls.len()) {
            self.put(alloc, name, &bytes[..bytes.len() / 2], true)?;
            return Err(WriteError::Failed);
        }
        self.put(alloc, name, bytes, false)?;
        Ok(())
    }
}

/// Replaces the file that has the name, or appends the file. Errors: `Memory` if an allocation fails; the files are then unchanged.
fn put_file(files: &mut Seq<(Text, Seq<u8>)>, name: Text, bytes: Seq<u8>) -> Result<(), Memory>
    ensures { MatchResult result (λ _. files.new ≡ put_file files.old name bytes) (λ _. files.new ≡ files.old) }
{
    match place_of(files.as_slice(), name.as_slice()) {
        Some(place) => {
            files.set(place, (name, bytes));
            Ok(())
        }
        None if files.push((name, bytes)).is_err() => Err(Memory),
        None => Ok(()),
    }
}

/// Returns the index of the first file with a name.
fn place_of(files: &[(Text, Seq<u8>)], name: &[u8]) -> Option<usize>
    ensures { result ≡ position (λ file. bytes_eq name.now file.0) files.now }
{
    files.iter().position(|file| name == file.0.as_slice())
}

/// Appends a call. The list has capacity for it.
fn push_in_room(calls: &mut Vec<Call>, call: Call)
    requires { vec_len calls.old < vec_capacity calls.old }
    ensures { calls.new.items ≡ calls.old.items ++ call ∷ [] }
{
    let _ = calls.push(call);
}
