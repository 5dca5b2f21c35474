//! Runs commands over a folder and a sink in memory.

use keyman_run::{Status, run};
use kmn_base::{Seq, Text};
use kmn_outside::{Folder, MemoryFolder, MemorySink};
use source_tests::fixtures::source_of;
use std::alloc::{AllocError, Global};
use std::test::Fail;

/// Returns the command-line arguments in a text, which are separated by single spaces.
pub fn words(alloc: Global, text: &str) -> Result<Vec<Text>, Fail> {
    let mut words = Vec::new(alloc);
    for word in text.split(' ') {
        words.push(Seq::from_slice(alloc, word.as_bytes())?)?;
    }
    Ok(words)
}

/// Runs the commands of a line one after the other, and returns the status of the last one.
pub fn ended(
    alloc: Global,
    line: &str,
    folder: &mut MemoryFolder,
    sink: &mut MemorySink,
) -> Result<Status, Fail> {
    let mut status = Status::Words;
    for command in line.split("; ") {
        let words = words(alloc, command)?;
        status = run(alloc, words.as_slice(), folder, sink);
    }
    Ok(status)
}

/// Returns a folder without files. Call number `failing` after the first `behind` calls fails; for 0 no call fails.
pub fn empty_folder(alloc: Global, failing: u32, behind: u32) -> Result<MemoryFolder, AllocError> {
    let call = match failing {
        0 => 0,
        _ => failing.saturating_add(behind),
    };
    let fails = Vec::from_slice(alloc, &[call])?;
    Ok(MemoryFolder::new(alloc, Seq::new(alloc), Seq::from_vec(fails)))
}

/// Returns a sink. Its call of this number fails; for 0 no call fails.
pub fn sink(alloc: Global, failing: u32) -> Result<MemorySink, AllocError> {
    let fails = Vec::from_slice(alloc, &[failing])?;
    Ok(MemorySink::new(alloc, Seq::from_vec(fails)))
}

/// The number of files that `write_files` writes.
const FILES: u32 = 7;

/// Writes a compiled keyboard `a.kmx`, a script `a.keys`, and the source twice: as `a.kmn` with the bitmaps `p.ico` and `sample.ico`
/// of four bytes, and as `d/a.kmn` with a bitmap `d/p.ico` of eight bytes.
fn write_files(
    alloc: Global,
    folder: &mut MemoryFolder,
    source: &[u8],
    file: &[u8],
    script: &[u8],
) -> Result<(), Fail> {
    folder.write(alloc, b"a.kmn", source)?;
    folder.write(alloc, b"a.kmx", file)?;
    folder.write(alloc, b"a.keys", script)?;
    folder.write(alloc, b"p.ico", &[0, 1, 2, 3])?;
    folder.write(alloc, b"d/a.kmn", source)?;
    folder.write(alloc, b"d/p.ico", &[0, 1, 2, 3, 4, 5, 6, 7])?;
    folder.write(alloc, b"sample.ico", &[0, 1, 2, 3])?;
    Ok(())
}

/// Returns a folder with these files. Its call number `failing` after they are written fails; for 0 no call fails.
pub fn folder(
    alloc: Global,
    source: &str,
    file: &[u8],
    script: &str,
    failing: u32,
) -> Result<MemoryFolder, Fail> {
    let source = source_of(alloc, source)?;
    let script = source_of(alloc, script)?;
    let mut folder = empty_folder(alloc, failing, FILES)?;
    write_files(
        alloc,
        &mut folder,
        source.as_bytes(),
        file,
        script.as_bytes(),
    )?;
    Ok(folder)
}
