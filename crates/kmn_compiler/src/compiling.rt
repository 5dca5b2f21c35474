//! Compiles a source in two steps, `front` and `back`, between which the caller reads the bitmap that the program names.

ghost use Rattle.std.specs.Prelude.{◌≡◌, ◌+◌, None, Ok, IfErr, IfOk};
ghost use Rattle.kmn_base.specs.Answers.{Answers};
ghost use Rattle.compile_laws.specs.Compiles.{Compiles};
ghost use Rattle.compile_laws.specs.Ordered.{compiled_tables};
ghost use Rattle.kmx_writer.specs.Excess.{excess, IsExcess};
ghost use Rattle.rule_checker.specs.Refused.{IsRead, checked, refused};
ghost use Rattle.kmn_compiler.specs.Source.{CompilesTo};

use kmn_base::limits::{FILE_BYTES, PICTURE_BYTES};
use kmn_base::{Code, CompileError, Memory, Seq};
use kmn_parser::parse;
use kmx_writer::{places_of, write};
use rule_checker::{Checked, check};
use rule_expand::{expand, outline_of};
use rule_model::Tables;
use rule_order::order;
use std::alloc::Global;

/// The bytes of a compiled keyboard, and the tables from which they were written.
#[derive(Drop)]
pub struct Compiled {
    pub bytes: Seq<u8>,
    pub tables: Tables,
}

/// Reads a source and checks it.
///
/// Errors: `Refused` with the first rule that the source breaks, of its language or of what a keyboard may have; `Memory` if an
/// allocation fails.
pub fn front(alloc: Global, source: &[u8]) -> Result<Checked, CompileError>
    ensures { Answers (checked source.now) result }
{
    let program = parse(alloc, source)?;
    check(alloc, program)
}

/// Returns the compiled keyboard of a checked program with a bitmap, which is empty if the keyboard has none.
///
/// Errors: `TooLarge` with the size in bytes and C24 if the bitmap passes its limit, else C23 if the file would pass its limit;
/// `Memory` if an allocation fails.
pub fn back(alloc: Global, checked: &Checked, picture: &[u8]) -> Result<Compiled, CompileError>
    ensures { CompilesTo (Ok checked.now) picture.now result }
{
    limits(alloc, checked, picture)?;
    let tables = tables_of(alloc, checked)?;
    let bytes = write(alloc, &tables, picture)?;
    Ok(Compiled { bytes, tables })
}

/// Refuses a checked program if its file with this bitmap would pass a limit. The size is counted before the records are built, since
/// the records can need far more memory than the largest file.
#[tactic(auto, using(crate::proofs::Counted::outline_spellable, crate::proofs::Counted::counted_excess))]
fn limits(alloc: Global, checked: &Checked, picture: &[u8]) -> Result<(), CompileError>
    ensures { IfErr result (IsExcess (excess (compiled_tables checked.now) picture.now)) }
{
    let _program = checked.program();
    if PICTURE_BYTES < picture.len() {
        return Err(CompileError::TooLarge {
            code: Code::C24,
            size: picture.len() as u64,
        });
    }
    let outline = outline_of(alloc, checked)?;
    let places = places_of(&outline.tables);
    let tables = sum(places.picture, outline.records)?;
    let size = sum(tables, picture.len() as u64)?;
    if (FILE_BYTES as u64) < size {
        return Err(CompileError::TooLarge {
            code: Code::C23,
            size,
        });
    }
    Ok(())
}

/// Returns a sum.
///
/// Errors: `Memory` if the sum does not fit, since a file of that size does not fit in memory.
fn sum(a: u64, b: u64) -> Result<u64, Memory>
    ensures { IfOk result (λ sum. sum ≡ a + b) }
{
    a.checked_add(b).ok_or(Memory)
}

/// Returns the tables of a checked program, with their records in order.
fn tables_of(alloc: Global, checked: &Checked) -> Result<Tables, Memory>
    ensures compiles { IfOk result (λ tables. Compiles checked.now tables) }
    ensures read { IsRead checked.now }
    ensures unrefused { refused checked.now ≡ None }
{
    let _program = checked.program();
    let mut tables = expand(alloc, checked)?;
    order(&mut tables);
    Ok(tables)
}

/// Returns the compiled keyboard of a source with a bitmap, which is empty if the keyboard has none: `front` and `back`.
pub fn compile(alloc: Global, source: &[u8], picture: &[u8]) -> Result<Compiled, CompileError>
    ensures { CompilesTo (checked source.now) picture.now result }
{
    let checked = front(alloc, source)?;
    back(alloc, &checked, picture)
}
