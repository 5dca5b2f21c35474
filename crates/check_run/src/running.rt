//! The run of the program: it reads a source and its inputs, finds their refusals or their warnings, and prints them.

ghost use Rattle.std.specs.Prelude.{option_map};
ghost use Rattle.check_run.specs.Orders.{check_work, last_work};
ghost use Rattle.check_run.specs.Runs.{Runs};
ghost use Rattle.keyman_run.specs.Run.{Does};

use crate::checking::read_findings;
use crate::printing::{print_findings, print_stopped};
use keyman_words::{FileName, Status, is_layout};
use kmn_base::Text;
use kmn_outside::{Folder, Sink};
use std::alloc::Global;

/// Checks the source that the first argument names, and prints its refusals or its warnings. A second argument is the name of a touch
/// layout by its end (`is_layout`), else that of a script. With three arguments the second is the name of a touch layout, and the third
/// that of a script. Both are read only if the source is not refused, and their refusals are printed too. Other arguments result in
/// `Status::Words` and no calls.
pub fn check_run<F: Folder, S: Sink>(
    alloc: Global,
    words: &[Text],
    folder: &mut F,
    out: &mut S,
) -> Status
    ensures { Runs words.now F.Folder folder.old folder.new S.Sink out.old out.new result }
{
    match words {
        [source] => check(alloc, source, None, None, folder, out),
        [source, last] => check_last(alloc, source, last, folder, out),
        [source, layout, keys] => check(alloc, source, Some(layout), Some(keys), folder, out),
        _ => Status::Words,
    }
}

/// Checks a source with the touch layout of a name, or with the script of this name.
#[tactic(auto, unfolding(crate::specs::Orders::last_work))]
fn check_last<F: Folder, S: Sink>(
    alloc: Global,
    source: &Text,
    last: &Text,
    folder: &mut F,
    out: &mut S,
) -> Status
    ensures { Does (last_work source.now last.now) F.Folder folder.old folder.new S.Sink out.old out.new result }
{
    if is_layout(last.as_slice()) {
        check(alloc, source, Some(last), None, folder, out)
    } else {
        check(alloc, source, None, Some(last), folder, out)
    }
}

/// Checks the source with a name, with a touch layout and a script if there are any, and prints what is found.
fn check<F: Folder, S: Sink>(
    alloc: Global,
    source: &Text,
    layout: Option<&Text>,
    keys: Option<&Text>,
    folder: &mut F,
    out: &mut S,
) -> Status
    ensures { Does (check_work source.now (option_map (λ name. name.now) layout.entry) (option_map (λ name. name.now) keys.entry)) F.Folder folder.old folder.new S.Sink out.old out.new result }
{
    match read_findings(alloc, &FileName::of(source), layout, keys, folder) {
        Ok(findings) => print_findings(alloc, source.as_slice(), layout, keys, &findings, out),
        Err(stop) => print_stopped(alloc, source.as_slice(), stop, out),
    }
}
