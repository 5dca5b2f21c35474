//! The tables of short sources.

ghost use Rattle.kmx_format.specs.Writable.{IsWritable};
ghost use Rattle.std.specs.Prelude.{IfOk};

use kmn_base::{CompileError, Memory};
use kmn_compiler::compile;
use rule_model::Tables;
use std::alloc::Global;

/// The lines that `H` represents.
const HEAD: &str = "begin Unicode > use(main)\ngroup(main) using keys\n";

/// Returns a source of lines separated by `¶`: `H` represents the begin statement and the group, and a line with a key but without
/// an output gets an output.
fn source(alloc: Global, lines: &str) -> Result<String, Memory> {
    let mut text = String::new(alloc);
    for line in lines.split("¶") {
        if line == "H" {
            text.push_str(HEAD)?;
        } else {
            text.push_str(line)?;
            text.push_str(if line.contains("+") && !line.contains(">") {
                " > 'x'\n"
            } else {
                "\n"
            })?;
        }
    }
    Ok(text)
}

/// Returns the tables of such a source.
pub fn tables(alloc: Global, lines: &str) -> Result<Tables, CompileError>
    ensures { IfOk result IsWritable }
{
    let text = source(alloc, lines)?;
    let compiled = compile(alloc, text.as_bytes(), &[])?;
    Ok(compiled.tables)
}
