//! Reads a source by name and finds its refusals, or its warnings and what is wrong in its inputs.

ghost use Rattle.std.specs.Prelude.{◌≡◌, option_map, IfOk};
ghost use Rattle.source_warnings.specs.Aside.{aside_words};
ghost use Rattle.source_warnings.specs.Warnings.{warnings};
ghost use Rattle.check_run.specs.Orders.{bytes_check_work, file_check_work, findings_work, program_check_work, text_work, warnings_in};
ghost use Rattle.keyman_run.specs.Steps.{Gives, IsCompiled, itself};

use crate::findings::Findings;
use crate::inputs::read_inputs;
use crate::shown::refused_lines;
use dead_rules::with_dead_rules;
use keyman_run::{Stop, at_line_one, compile_beside, read_stop};
use keyman_words::{FileName, read};
use kmn_base::limits::TEXT_BYTES;
use kmn_base::{Code, Memory, Seq, Text};
use kmn_compiler::{Compiled, front};
use kmn_outside::Folder;
use rule_checker::Checked;
use rule_model::Program;
use source_faults::faults;
use source_warnings::{Warning, aside_words, warnings};
use std::alloc::Global;

/// Reads a source by name and returns what a check finds in it. If no line is refused, reads the bitmap that the source names and checks
/// the limits of the file, then reads and checks the layout and the script with the other names, and finds the warnings.
pub(crate) fn read_findings<F: Folder>(
    alloc: Global,
    source: &FileName<'_>,
    layout: Option<&Text>,
    keys: Option<&Text>,
    folder: &mut F,
) -> Result<Findings, Stop>
    ensures { Gives itself (findings_work source.now (option_map (λ name. name.now) layout.entry) (option_map (λ name. name.now) keys.entry)) F.Folder folder.old folder.new result }
{
    let bytes = read_text(alloc, source, folder)?;
    find(alloc, source, layout, keys, bytes.as_slice(), folder)
}

/// Reads a source by name.
fn read_text<F: Folder>(
    alloc: Global,
    source: &FileName<'_>,
    folder: &mut F,
) -> Result<Seq<u8>, Stop>
    ensures { Gives itself (text_work source.now) F.Folder folder.old folder.new result }
{
    read(alloc, source, TEXT_BYTES, folder).map_err(|error| read_stop(
        error,
        at_line_one(Code::L05),
    ))
}

/// Finds the refusals of the bytes of a source or, if there are none, its warnings and those of its inputs.
fn find<F: Folder>(
    alloc: Global,
    source: &FileName<'_>,
    layout: Option<&Text>,
    keys: Option<&Text>,
    bytes: &[u8],
    folder: &mut F,
) -> Result<Findings, Stop>
    ensures { Gives itself (bytes_check_work source.now (option_map (λ name. name.now) layout.entry) (option_map (λ name. name.now) keys.entry) bytes.now) F.Folder folder.old folder.new result }
{
    let refusals = faults(alloc, bytes)?;
    match refusals.as_slice() {
        [] => check_file(alloc, source, layout, keys, bytes, folder),
        [first, ..] => Ok(refused_lines(alloc, bytes, *first, &refusals)?),
    }
}

/// Compiles the bytes of a source, checks its inputs, and finds its warnings.
fn check_file<F: Folder>(
    alloc: Global,
    source: &FileName<'_>,
    layout: Option<&Text>,
    keys: Option<&Text>,
    bytes: &[u8],
    folder: &mut F,
) -> Result<Findings, Stop>
    ensures { Gives itself (file_check_work source.now (option_map (λ name. name.now) layout.entry) (option_map (λ name. name.now) keys.entry) bytes.now) F.Folder folder.old folder.new result }
{
    let checked = front(alloc, bytes)?;
    check_program(alloc, source, layout, keys, bytes, &checked, folder)
}

/// Compiles a program with the bitmap that it names, checks its inputs, and finds its warnings. The bytes are those of its source.
fn check_program<F: Folder>(
    alloc: Global,
    source: &FileName<'_>,
    layout: Option<&Text>,
    keys: Option<&Text>,
    bytes: &[u8],
    checked: &Checked,
    folder: &mut F,
) -> Result<Findings, Stop>
    ensures { Gives itself (program_check_work source.now (option_map (λ name. name.now) layout.entry) (option_map (λ name. name.now) keys.entry) bytes.now checked.now) F.Folder folder.old folder.new result }
{
    let compiled = compile_beside(alloc, source, checked, folder)?;
    let inputs = read_inputs(alloc, checked, &compiled.tables, layout, keys, folder)?;
    let warnings = find_warnings(alloc, bytes, checked.program(), &compiled)?;
    Ok(Findings::Accepted { warnings, inputs })
}

/// Finds the warnings of a program that compiles to these tables. The bytes are those of its source.
#[tactic(auto, unfolding(crate::specs::Orders::warnings_in))]
fn find_warnings(
    alloc: Global,
    bytes: &[u8],
    program: &Program,
    compiled: &Compiled,
) -> Result<Seq<Warning>, Memory>
    requires { IsCompiled compiled.now }
    ensures { IfOk result (λ found. found ≡ warnings_in bytes.now program.now compiled.now.tables) }
{
    let found = program_warnings(alloc, bytes, program)?;
    let all = with_dead_rules(alloc, &compiled.tables, found)?;
    Ok(all)
}

/// Finds the warnings of a program, except those of its dead rules. The bytes are those of its source.
fn program_warnings(alloc: Global, bytes: &[u8], program: &Program) -> Result<Vec<Warning>, Memory>
    ensures { IfOk result (λ found. found.items ≡ warnings program.now (aside_words bytes.now)) }
{
    let aside = aside_words(alloc, bytes)?;
    warnings(alloc, program, aside.as_slice())
}
