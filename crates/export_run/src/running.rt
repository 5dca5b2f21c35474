//! The run of the exporter: it reads a file, exports it, writes the export and prints what differs.

ghost use Rattle.export_run.specs.Runs.{Exports, Runs};

use crate::printing::{print_exported, print_stop};
use crate::reading::read_export;
use keyman_words::{FileName, Status, write, write_status};
use kmn_base::Text;
use kmn_outside::{Folder, Sink};
use std::alloc::Global;

/// Exports the file that the first of two arguments names to the name in the second one. Other arguments result in
/// `Status::Words` and no calls.
pub fn export_run<F: Folder, S: Sink>(
    alloc: Global,
    words: &[Text],
    folder: &mut F,
    out: &mut S,
) -> Status
    ensures { Runs words.now F.Folder folder.old folder.new S.Sink out.old out.new result }
{
    match words {
        [file, target] => export_file(
            alloc,
            &FileName::of(file),
            &FileName::of(target),
            folder,
            out,
        ),
        _ => Status::Words,
    }
}

/// Exports a file by name, writes the export under another name, and prints its size and what the other engine treats differently.
fn export_file<F: Folder, S: Sink>(
    alloc: Global,
    file: &FileName<'_>,
    target: &FileName<'_>,
    folder: &mut F,
    out: &mut S,
) -> Status
    ensures { Exports file.now target.now F.Folder folder.old folder.new S.Sink out.old out.new result }
{
    match read_export(alloc, file, folder) {
        Ok(export) => match write(alloc, target, export.bytes.as_slice(), folder) {
            Ok(()) => print_exported(alloc, &export, out),
            Err(error) => write_status(error),
        },
        Err(stop) => print_stop(alloc, stop, out),
    }
}
