//! The command `shadow`: compiles a source and prints lines of it that never fire.

ghost use Rattle.keyman_run.specs.Inputs.{few_records};
ghost use Rattle.keyman_run.specs.Orders.{shadow_work};
ghost use Rattle.keyman_run.specs.Run.{Does};
ghost use Rattle.keyman_run.specs.Steps.{IsCompiled, PrintsDeadRules};

use crate::preparing::{Stop, read_and_compile};
use crate::running::print_stop;
use keyman_words::{FileName, Reason, Status, print_result};
use kmn_base::limits::SHADOW_RECORDS;
use kmn_compiler::Compiled;
use kmn_outside::{Folder, Sink};
use kmx_format::rule_count;
use shadow_text::dead_text;
use std::alloc::Global;

/// Compiles a source and prints lines of it that never fire.
pub fn shadow_rules<F: Folder, S: Sink>(
    alloc: Global,
    source: &FileName<'_>,
    folder: &mut F,
    out: &mut S,
) -> Status
    ensures { Does (shadow_work source.now) F.Folder folder.old folder.new S.Sink out.old out.new result }
{
    match read_and_compile(alloc, source, folder) {
        Ok(compiled) => print_dead_rules(alloc, &compiled, out),
        Err(stop) => print_stop(alloc, stop, out),
    }
}

/// Prints lines of a compiled source that never fire, or refuses a source with too many records to search.
#[tactic(auto, using(keyman_words::proofs::Printed::tells_made))]
fn print_dead_rules<S: Sink>(alloc: Global, compiled: &Compiled, out: &mut S) -> Status
    requires { IsCompiled compiled.now }
    ensures { PrintsDeadRules (few_records compiled.now.tables) S.Sink out.old out.new result }
{
    let count = rule_count(compiled.tables.groups.as_slice());
    if count > SHADOW_RECORDS as u64 {
        return print_stop(alloc, Stop::Refused(Reason::Records(count)), out);
    }
    print_result(dead_text(alloc, &compiled.tables), Status::Done, out)
}
