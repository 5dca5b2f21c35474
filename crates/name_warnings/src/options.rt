//! W08, W10 and W12: options that are set and never asked for, or asked for or saved and never set.

ghost use Rattle.std.specs.Prelude.{◌≡◌, ◌++◌, OnOk};
ghost use Rattle.name_warnings.specs.Options.{never_used, options_never_asked, options_never_set, saved_never_set};

use crate::named::{Concern, add_lacking, known_names};
use crate::warning::Warning;
use kmn_base::{Memory, Text};
use rule_model::Program;
use source_uses::{Part, Role, rule_uses};
use std::alloc::Global;

/// Appends W08: a warning at the first `set` of each option that no statement asks for and whose elements no statement uses. Names among
/// `aside` are left out.
pub fn add_never_asked(
    alloc: Global,
    found: &mut Vec<Warning>,
    program: &Program,
    aside: &[Text],
) -> Result<(), Memory>
    ensures { OnOk result (found.new.items ≡ found.old.items ++ options_never_asked program.now aside.now) }
{
    add_never(
        alloc,
        found,
        Concern::OptionNeverAsked,
        Role::Read,
        Role::Set,
        program,
        aside,
    )
}

/// Appends W10: a note at the first `if` of each option that no statement sets. Names among `aside` are left out.
pub fn add_never_set(
    alloc: Global,
    found: &mut Vec<Warning>,
    program: &Program,
    aside: &[Text],
) -> Result<(), Memory>
    ensures { OnOk result (found.new.items ≡ found.old.items ++ options_never_set program.now aside.now) }
{
    add_never(
        alloc,
        found,
        Concern::OptionNeverSet,
        Role::Set,
        Role::Asked,
        program,
        aside,
    )
}

/// Appends W12: a warning at the first `save` of each option that no statement sets. Names among `aside` are left out.
pub fn add_saved_never_set(
    alloc: Global,
    found: &mut Vec<Warning>,
    program: &Program,
    aside: &[Text],
) -> Result<(), Memory>
    ensures { OnOk result (found.new.items ≡ found.old.items ++ saved_never_set program.now aside.now) }
{
    add_never(
        alloc,
        found,
        Concern::SavedNeverSet,
        Role::Set,
        Role::Saved,
        program,
        aside,
    )
}

/// Appends a warning at the first use in a role of each name that no statement uses in another role.
fn add_never(
    alloc: Global,
    found: &mut Vec<Warning>,
    concern: Concern,
    other: Role,
    role: Role,
    program: &Program,
    aside: &[Text],
) -> Result<(), Memory>
    ensures { OnOk result (found.new.items ≡ found.old.items ++ never_used concern other role program.now aside.now) }
{
    let others = rule_uses(alloc, other, Part::Whole, program)?;
    let known = known_names(alloc, others.as_slice(), aside)?;
    let uses = rule_uses(alloc, role, Part::Whole, program)?;
    add_lacking(alloc, found, concern, known, uses.as_slice())
}
