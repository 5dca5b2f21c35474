//! Tests calls over real files.

use kmn_outside::{DiskFolder, Folder, Sink, StreamSink};
use std::alloc::Global;
use std::fs::{self, File};
use std::io::Read;
use std::os::unix::fs::symlink;
use std::rt::Files;
use std::test::Fail;

/// A read: the name, the limit, and the expected result as text, which is the bytes or the error message.
type ReadRow = (&'static [u8], usize, &'static str);

/// Returns whether a read has the expected result.
fn is_read<F: Folder>(alloc: Global, folder: &mut F, row: ReadRow) -> Result<bool, Fail> {
    let (name, limit, want) = row;
    Ok(match folder.read(alloc, name, limit) {
        Ok(bytes) => bytes.as_slice() == want.as_bytes(),
        Err(error) => format!(in alloc; "{error}")?.as_str() == want,
    })
}

/// Returns whether a write of `12345` has the expected result: `written` or the error message.
fn is_written<F: Folder>(
    alloc: Global,
    folder: &mut F,
    name: &[u8],
    want: &str,
) -> Result<bool, Fail> {
    Ok(match folder.write(alloc, name, b"12345") {
        Ok(()) => want == "written",
        Err(error) => format!(in alloc; "{error}")?.as_str() == want,
    })
}

/// Returns whether a sink accepts two bytes in one call.
fn takes_two<S: Sink>(sink: &mut S) -> bool {
    sink.put(b"ab") == Ok(2)
}

const READS_ON_DISK: &[ReadRow] = &[
    (b"disk.tmp", 5, "12345"),
    (b"disk.tmp", usize::MAX, "12345"),
    (b"disk.tmp", 4, "the file has 5 bytes or more"),
    (b"missing", 4, "the file can't be read"),
    (b"\xFF", 4, "the file can't be read"),
    (b"disk.tmp\0", 9, "the file can't be read"),
];

/// Returns whether a file is written, and a write into a folder that does not exist fails.
fn are_written<F: Folder>(alloc: Global, folder: &mut F) -> Result<bool, Fail> {
    let unwritten = "the bytes can't be written";
    Ok(
        is_written(alloc, folder, b"disk.tmp", "written")?
            && is_written(alloc, folder, b"missing/file", unwritten)?,
    )
}

#[test]
fn real_files(rt: HostRuntime) -> Result<(), Fail> {
    let mut folder = DiskFolder::new(&rt);
    assert!(rt; are_written(rt.alloc(), &mut folder)?);
    for &row in READS_ON_DISK {
        assert!(rt; is_read(rt.alloc(), &mut folder, row)?, "{}", row.2);
    }
    assert!(rt; takes_two(&mut StreamSink::new(fs::create(&rt, "disk.tmp")?)));
    fs::remove_file(&rt, "disk.tmp")?;
    Ok(())
}

/// Returns whether a file has these bytes.
fn has_bytes<R: Files>(runtime: &R, alloc: Global, name: &str, want: &[u8]) -> Result<bool, Fail> {
    let mut bytes = Vec::new(alloc);
    File::open(runtime, name)?.read_to_end(&mut bytes)?;
    Ok(bytes.as_slice() == want)
}

/// Returns whether a reader that opened a file still reads its old bytes after the folder writes new bytes under that name, and
/// the file then has the new bytes.
fn is_replaced<R: Files>(
    runtime: &R,
    alloc: Global,
    written: &str,
    name: &str,
) -> Result<bool, Fail> {
    fs::write(runtime, name, b"old")?;
    let mut opened = File::open(runtime, name)?;
    let is_done = DiskFolder::new(runtime)
        .write(alloc, written.as_bytes(), b"newer")
        .is_ok();
    let mut bytes = Vec::new(alloc);
    opened.read_to_end(&mut bytes)?;
    Ok(
        is_done
            && bytes.as_slice() == b"old".as_slice()
            && has_bytes(runtime, alloc, name, b"newer")?,
    )
}

/// A file is replaced in one step, also through a link, which remains a link, and no temporary file remains next to it.
#[test]
fn files_are_replaced(rt: HostRuntime) -> Result<(), Fail> {
    let alloc = rt.alloc();
    assert!(rt; is_replaced(&rt, alloc, "whole.tmp", "whole.tmp")?);
    symlink(&rt, "whole.tmp", "link.tmp")?;
    assert!(rt; is_replaced(&rt, alloc, "link.tmp", "whole.tmp")?);
    assert!(rt; fs::symlink_metadata(&rt, "link.tmp")?.is_symlink());
    assert!(rt; !fs::exists(&rt, ".keyman-0.new")?);
    fs::remove_file(&rt, "link.tmp")?;
    fs::remove_file(&rt, "whole.tmp")?;
    Ok(())
}
