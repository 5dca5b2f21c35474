//! W02 and W03: deadkeys that outputs put and no context looks for, and deadkeys that a context looks for and no output puts.

ghost use Rattle.std.specs.Prelude.{◌≡◌, ◌++◌, OnOk};
ghost use Rattle.name_warnings.specs.Marks.{mark_warnings};

use crate::named::{Concern, add_lacking, known_names};
use crate::warning::Warning;
use kmn_base::{Memory, Text};
use rule_model::Program;
use source_uses::{Contents, Part, Role, mark_uses, rule_uses};
use std::alloc::Global;

/// Appends W02 and W03: a warning at the first output of each deadkey that no context looks for, and at the first context that looks by
/// its name for a deadkey that no output puts. Names among `aside` are left out.
pub fn add_mark_warnings(
    alloc: Global,
    found: &mut Vec<Warning>,
    contents: &Contents,
    program: &Program,
    aside: &[Text],
) -> Result<(), Memory>
    ensures { OnOk result (found.new.items ≡ found.old.items ++ mark_warnings contents.now program.now aside.now) }
{
    let sought = mark_uses(alloc, contents, Part::Context, program)?;
    let put = mark_uses(alloc, contents, Part::Output, program)?;
    let known = known_names(alloc, sought.as_slice(), aside)?;
    add_lacking(
        alloc,
        found,
        Concern::MarkNeverSought,
        known,
        put.as_slice(),
    )?;
    let known = known_names(alloc, put.as_slice(), aside)?;
    let named = rule_uses(alloc, Role::Mark, Part::Context, program)?;
    add_lacking(alloc, found, Concern::MarkNeverPut, known, named.as_slice())
}
