//! The run of the program: it reads a source, imports it, writes the imported source and prints what was changed.

ghost use Rattle.import_run.specs.Orders.{import_work};
ghost use Rattle.import_run.specs.Runs.{Runs};
ghost use Rattle.keyman_run.specs.Run.{Does};

use crate::printing::imported_text;
use crate::reading::read_import;
use keyman_run::print_stop;
use keyman_words::{FileName, Status, print_result, write, write_status};
use kmn_base::Text;
use kmn_outside::{Folder, Sink};
use std::alloc::Global;

/// Imports the source that the first of two arguments names, and writes it to the name in the second one. Other arguments result
/// in `Status::Words` and no calls.
pub fn import_run<F: Folder, S: Sink>(
    alloc: Global,
    words: &[Text],
    folder: &mut F,
    out: &mut S,
) -> Status
    ensures { Runs words.now F.Folder folder.old folder.new S.Sink out.old out.new result }
{
    match words {
        [source, target] => import_source(
            alloc,
            &FileName::of(source),
            &FileName::of(target),
            folder,
            out,
        ),
        _ => Status::Words,
    }
}

/// Imports a source by name, writes it under another name, and prints what was changed.
fn import_source<F: Folder, S: Sink>(
    alloc: Global,
    source: &FileName<'_>,
    target: &FileName<'_>,
    folder: &mut F,
    out: &mut S,
) -> Status
    ensures { Does (import_work source.now target.now) F.Folder folder.old folder.new S.Sink out.old out.new result }
{
    match read_import(alloc, source, folder) {
        Ok(new) => match write(alloc, target, new.text.as_slice(), folder) {
            Ok(()) => print_result(imported_text(alloc, &new), Status::Done, out),
            Err(error) => write_status(error),
        },
        Err(stop) => print_stop(alloc, stop, out),
    }
}
