//! Reads the touch layout and the script that are checked with a source.

ghost use Rattle.std.specs.Prelude.{◌≡◌, option_map, IfOk};
ghost use Rattle.name_warnings.specs.Laid.{keys_not_laid};
ghost use Rattle.check_run.specs.Inputs.{FindsIn, LaysIn};
ghost use Rattle.check_run.specs.Orders.{inputs_work, layout_check_work, named_layout_work, named_script_work, script_check_work};
ghost use Rattle.keyman_run.specs.Steps.{Gives, itself};

use crate::findings::{InputFindings, LayoutFindings, ScriptFindings};
use crate::layouts::read_ids;
use crate::unknown::unknown_options;
use keyman_run::{Stop, key_names, read_entries};
use keyman_words::FileName;
use kmn_base::{Memory, Seq, Text};
use kmn_outside::Folder;
use name_warnings::{Warning, keys_not_laid};
use rule_checker::Checked;
use rule_model::{Entry, Tables};
use std::alloc::Global;

/// Reads the touch layout and then the script with these names, and checks them for a program and the tables that it compiles to. The
/// script is read also if the layout is refused.
pub(crate) fn read_inputs<F: Folder>(
    alloc: Global,
    checked: &Checked,
    tables: &Tables,
    layout: Option<&Text>,
    keys: Option<&Text>,
    folder: &mut F,
) -> Result<InputFindings, Stop>
    ensures { Gives itself (inputs_work checked.now tables.now (option_map (λ name. name.now) layout.entry) (option_map (λ name. name.now) keys.entry)) F.Folder folder.old folder.new result }
{
    let laid = check_layout(alloc, checked, tables, layout, folder)?;
    let script = check_script(alloc, checked, tables, keys, folder)?;
    Ok(InputFindings {
        layout: laid,
        script,
    })
}

/// Reads the touch layout with a name, if there is one, for a program and its tables.
fn check_layout<F: Folder>(
    alloc: Global,
    checked: &Checked,
    tables: &Tables,
    layout: Option<&Text>,
    folder: &mut F,
) -> Result<LayoutFindings, Stop>
    ensures { Gives itself (layout_check_work checked.now tables.now (option_map (λ name. name.now) layout.entry)) F.Folder folder.old folder.new result }
{
    match layout {
        Some(layout) => check_named_layout(alloc, checked, tables, &FileName::of(layout), folder),
        None => Ok(LayoutFindings::Accepted {
            warnings: Seq::new(alloc),
        }),
    }
}

/// Reads a touch layout by name for a program and its tables, and returns the reason why it is refused, or the rules whose keys it lacks.
fn check_named_layout<F: Folder>(
    alloc: Global,
    checked: &Checked,
    tables: &Tables,
    layout: &FileName<'_>,
    folder: &mut F,
) -> Result<LayoutFindings, Stop>
    ensures { Gives itself (named_layout_work checked.now tables.now layout.now) F.Folder folder.old folder.new result }
{
    layout_findings(alloc, checked, read_ids(alloc, tables, layout, folder))
}

/// Returns what is found in a layout by the result of reading the ids of its keys.
fn layout_findings(
    alloc: Global,
    checked: &Checked,
    read: Result<Seq<Text>, Stop>,
) -> Result<LayoutFindings, Stop>
    ensures { LaysIn checked.now read result }
{
    match read {
        Ok(ids) => match not_laid(alloc, checked, ids.as_slice()) {
            Ok(warnings) => Ok(LayoutFindings::Accepted { warnings }),
            Err(Memory) => Err(Stop::Memory),
        },
        Err(Stop::Refused(why)) => Ok(LayoutFindings::Refused(why)),
        Err(Stop::ReadFault) => Err(Stop::ReadFault),
        Err(Stop::Memory) => Err(Stop::Memory),
    }
}

/// Returns the warnings of the rules whose keys are not among the ids of a layout.
fn not_laid(alloc: Global, checked: &Checked, ids: &[Text]) -> Result<Seq<Warning>, Memory>
    ensures { IfOk result (λ warnings. warnings ≡ keys_not_laid checked.now ids.now) }
{
    let found = keys_not_laid(alloc, checked.program(), ids)?;
    Ok(Seq::from_vec(found))
}

/// Reads the script with a name, if there is one, for a program and its tables.
fn check_script<F: Folder>(
    alloc: Global,
    checked: &Checked,
    tables: &Tables,
    keys: Option<&Text>,
    folder: &mut F,
) -> Result<ScriptFindings, Stop>
    ensures { Gives itself (script_check_work checked.now tables.now (option_map (λ name. name.now) keys.entry)) F.Folder folder.old folder.new result }
{
    match keys {
        Some(keys) => check_named_script(alloc, checked, tables, &FileName::of(keys), folder),
        None => Ok(ScriptFindings::Accepted {
            unknown: Seq::new(alloc),
        }),
    }
}

/// Reads a script by name for a program and its tables, and returns the reason why it is refused, or its unknown options.
fn check_named_script<F: Folder>(
    alloc: Global,
    checked: &Checked,
    tables: &Tables,
    keys: &FileName<'_>,
    folder: &mut F,
) -> Result<ScriptFindings, Stop>
    ensures { Gives itself (named_script_work checked.now tables.now keys.now) F.Folder folder.old folder.new result }
{
    script_findings(
        alloc,
        tables,
        read_entries(alloc, keys, key_names(checked), folder),
    )
}

/// Returns what is found in a script by the result of reading it.
fn script_findings(
    alloc: Global,
    tables: &Tables,
    read: Result<Seq<Entry>, Stop>,
) -> Result<ScriptFindings, Stop>
    ensures { FindsIn tables.now read result }
{
    match read {
        Ok(entries) => match unknown_options(alloc, tables, entries.as_slice()) {
            Ok(unknown) => Ok(ScriptFindings::Accepted { unknown }),
            Err(Memory) => Err(Stop::Memory),
        },
        Err(Stop::Refused(why)) => Ok(ScriptFindings::Refused(why)),
        Err(Stop::ReadFault) => Err(Stop::ReadFault),
        Err(Stop::Memory) => Err(Stop::Memory),
    }
}
