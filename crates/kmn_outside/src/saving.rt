//! Saves a file atomically: it has all its new bytes or is unchanged. The bytes are written to a new file in the same folder,
//! which then replaces the old one.

use std::alloc::Global;
use std::fs::{self, File, OpenFile, OpenOptions, Permissions};
use std::io::{self, ErrorKind, Write};
use std::path::{Path, PathBuf};
use std::rt::Files;

/// The number of names that are tried for the new file.
const NEW_NAMES: u32 = 16;

/// Replaces a file with these bytes. A link is followed. A file that is not regular, such as a device or a pipe, receives the
/// bytes directly.
pub(crate) fn save<R: Files>(
    runtime: &R,
    alloc: Global,
    path: &str,
    bytes: &[u8],
) -> io::Result<()> {
    match fs::symlink_metadata(runtime, path) {
        Ok(found) if found.is_symlink() => save_linked(runtime, alloc, path, bytes),
        Ok(found) if found.is_file() => {
            replace(runtime, alloc, path, bytes, Some(found.permissions()))
        }
        Ok(_) => fs::write(runtime, path, bytes),
        Err(error) if error.kind() == ErrorKind::NotFound => {
            replace(runtime, alloc, path, bytes, None)
        }
        Err(error) => Err(error),
    }
}

/// Replaces the file that a link leads to. If the link leads nowhere, it is written through, which creates its file.
fn save_linked<R: Files>(runtime: &R, alloc: Global, path: &str, bytes: &[u8]) -> io::Result<()> {
    let Ok(target) = runtime.canonicalize(alloc, path) else {
        return fs::write(runtime, path, bytes);
    };
    let found = fs::metadata(runtime, target.as_str())?;
    if found.is_file() {
        replace(
            runtime,
            alloc,
            target.as_str(),
            bytes,
            Some(found.permissions()),
        )
    } else {
        fs::write(runtime, path, bytes)
    }
}

/// Replaces a regular file, which has these permissions, or creates it. If the folder allows no new files, the bytes are
/// written into the old file.
fn replace<R: Files>(
    runtime: &R,
    alloc: Global,
    path: &str,
    bytes: &[u8],
    permissions: Option<Permissions>,
) -> io::Result<()> {
    if permissions.is_some() {
        // A caller who may not write the file may not replace it either.
        OpenOptions::new().write(true).open(runtime, path)?;
    }
    for number in 0..NEW_NAMES {
        let name = name_beside(alloc, path, number)?;
        match File::create_new(runtime, name.as_str()) {
            Ok(file) => return put_in_place(runtime, file, name.as_str(), path, bytes, permissions),
            Err(error) if error.kind() == ErrorKind::AlreadyExists => {}
            Err(_) => break,
        }
    }
    fs::write(runtime, path, bytes)
}

/// Returns a name in the folder of a file. It is short enough whenever the file's own name is.
fn name_beside(alloc: Global, path: &str, number: u32) -> io::Result<PathBuf<Global>> {
    let name = format!(in alloc; ".keyman-{number}.new")?;
    Ok(Path::new(path).with_file_name(alloc, name.as_str())?)
}

/// Fills a new file and moves it to the path. After a fault the new file is removed.
fn put_in_place<R: Files>(
    runtime: &R,
    file: R::File,
    name: &str,
    path: &str,
    bytes: &[u8],
    permissions: Option<Permissions>,
) -> io::Result<()> {
    match fill(file, bytes, permissions).and_then(|()| fs::rename(runtime, name, path)) {
        Ok(()) => Ok(()),
        Err(error) => {
            let _removed = fs::remove_file(runtime, name);
            Err(error)
        }
    }
}

/// Writes all bytes, to the disk too: some systems report only then that the disk is full.
fn fill<F: Write + OpenFile + Drop>(
    mut file: F,
    bytes: &[u8],
    permissions: Option<Permissions>,
) -> io::Result<()> {
    file.write_all(bytes)?;
    if let Some(permissions) = permissions {
        file.set_permissions(permissions)?;
    }
    file.sync_all()
}
