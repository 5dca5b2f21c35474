//! The export of a file. The file is converted first, as far as the converted file says the same and is exported.

ghost use Rattle.std.specs.Prelude.{◌≡◌, IfOk, MatchOption, MatchResult};
ghost use Rattle.std.specs.Bool.{Decides};
ghost use Rattle.kmx_format.specs.TablesOf.{tables_of};
ghost use Rattle.kmx_verifier.specs.FaultOf.{IsValid};
ghost use Rattle.file_conversions.specs.Conversions.{converted_tables};
ghost use Rattle.core_export.specs.Export.{FindsConverted, HasExport, IsAfter, IsAfterAll, IsExportError, Exports};

use crate::errors::ExportError;
use crate::exporting::export_unconverted;
use crate::same::same_tables;
use file_conversions::{Conversion, convert_tables, converted_bytes};
use kmn_base::{Memory, Seq};
use kmx_verifier::{Verified, VerifyError, verify};
use std::alloc::Global;

/// A file and its export.
#[derive(Drop)]
struct Exported {
    bytes: Seq<u8>,
    out: Seq<u8>,
}

/// Returns the file that Keyman's own engine plays: each offset 0 of a store's content, of a context or of an output points to a
/// zero unit of the file, the version is at most 15.0, and the checksum is right. Each `nul` before the first matched item of a
/// context is before the conditions, if the file with these contexts says the same and is exported. After this, a key that has CTRL
/// or ALT has none of its sides, and then a group without keys has the output of its first rule with an empty context as its nomatch
/// output, each if the file with it says the same and is exported.
///
/// Errors, the first of them that is true: `SavesTwice` if an event may save twice; `Nameless` if a store without a name is set and
/// reset; `Unreadable` if that engine misreads an item; `Overfull` if that engine has not enough space for its tables of the file;
/// `NoZeroUnit` if the file has no string; `Overlapping` if parts of the file overlap so that the result would not say the same.
/// `Memory` if an allocation fails.
#[tactic(auto, using(crate::proofs::ConvertedExports::exports_after))]
pub fn export(alloc: Global, file: &Verified<'_>) -> Result<Seq<u8>, ExportError>
    ensures { Exports file.now result }
{
    let own = with_export(alloc, file)?;
    let last = after_all(alloc, own)?;
    Ok(last.out)
}

/// Returns a file and its export, without a conversion.
#[tactic(auto, using(crate::proofs::ConvertedExports::own_export))]
fn with_export(alloc: Global, file: &Verified<'_>) -> Result<Exported, ExportError>
    ensures { MatchResult result (λ own. (own.bytes ≡ file.now) × HasExport own.bytes own.out) (IsExportError file.now) }
{
    let out = export_unconverted(alloc, file)?;
    let bytes = Seq::from_slice(alloc, file.bytes())?;
    Ok(Exported { bytes, out })
}

/// Returns the file after the three conversions, and its export.
#[tactic(auto, using(crate::proofs::ConvertedExports::after_three))]
fn after_all(alloc: Global, given: Exported) -> Result<Exported, Memory>
    requires { HasExport given.bytes given.out }
    ensures exported { IfOk result (λ after. HasExport after.bytes after.out) }
    ensures after { IfOk result (λ after. IsAfterAll given.bytes after.bytes) }
{
    let first = after_conversion(alloc, Conversion::NulFirst, given)?;
    let second = after_conversion(alloc, Conversion::PlainSides, first)?;
    let third = after_conversion(alloc, Conversion::EmptyAsNomatch, second)?;
    Ok(third)
}

/// Returns the file after a conversion, and its export.
#[tactic(auto, using(crate::proofs::ConvertedExports::valid_slice, crate::proofs::ConvertedExports::after_slice, crate::proofs::ConvertedExports::same_slice))]
fn after_conversion(alloc: Global, how: Conversion, given: Exported) -> Result<Exported, Memory>
    requires { HasExport given.bytes given.out }
    ensures exported { IfOk result (λ after. HasExport after.bytes after.out) }
    ensures after { IfOk result (λ after. IsAfter how given.bytes after.bytes) }
{
    match converted(alloc, how, given.bytes.as_slice())? {
        Some(after) => Ok(after),
        None => Ok(given),
    }
}

/// Returns the converted file of a valid one, and its export. Returns `None` if the conversion changes no byte, or the converted file
/// does not say the same or isn't exported.
#[tactic(auto, using(crate::proofs::ConvertedExports::after_converted, crate::proofs::ConvertedExports::exports_converted, crate::proofs::ConvertedExports::after_unconverted, crate::proofs::ConvertedExports::after_unchanged))]
fn converted(alloc: Global, how: Conversion, bytes: &[u8]) -> Result<Option<Exported>, Memory>
    requires { IsValid bytes.now }
    ensures { IfOk result (λ found. MatchOption found (IsAfter how bytes.now bytes.now) (λ after. HasExport after.bytes after.out × IsAfter how bytes.now after.bytes)) }
{
    let after = converted_bytes(alloc, how, bytes)?;
    if same_bytes(after.as_slice(), bytes) {
        return Ok(None);
    }
    match converted_export(alloc, how, bytes, after.as_slice())? {
        Some(out) => Ok(Some(Exported { bytes: after, out })),
        None => Ok(None),
    }
}

/// Returns whether two files have the same bytes.
fn same_bytes(a: &[u8], b: &[u8]) -> bool
    ensures { Decides result (a.now ≡ b.now) }
{
    a == b
}

/// Returns the export of the converted bytes of a valid file, or `None` if they do not say the same or aren't exported.
#[tactic(auto, using(crate::proofs::ConvertedExports::found_opened, crate::proofs::ConvertedExports::none_invalid))]
fn converted_export(
    alloc: Global,
    how: Conversion,
    bytes: &[u8],
    converted: &[u8],
) -> Result<Option<Seq<u8>>, Memory>
    requires { IsValid bytes.now }
    ensures { IfOk result (λ found. FindsConverted how bytes.now converted.now found) }
{
    match verify(alloc, bytes) {
        Ok(file) => export_if_same(alloc, how, &file, converted),
        Err(VerifyError::Memory) => Err(Memory),
        Err(VerifyError::Refused(_)) => Ok(None),
    }
}

/// Returns the export of converted bytes, or `None` if they do not say the same or aren't exported.
#[tactic(auto, using(crate::proofs::ConvertedExports::none_valid, crate::proofs::ConvertedExports::none_same, crate::proofs::ConvertedExports::none_exported, crate::proofs::ConvertedExports::found))]
fn export_if_same(
    alloc: Global,
    how: Conversion,
    file: &Verified<'_>,
    converted: &[u8],
) -> Result<Option<Seq<u8>>, Memory>
    ensures { IfOk result (λ found. FindsConverted how file.now converted.now found) }
{
    let opened = match verify(alloc, converted) {
        Ok(opened) => opened,
        Err(VerifyError::Memory) => return Err(Memory),
        Err(VerifyError::Refused(_)) => return Ok(None),
    };
    if !has_converted_tables(alloc, how, file, &opened)? {
        return Ok(None);
    }
    match export_unconverted(alloc, &opened) {
        Ok(out) => Ok(Some(out)),
        Err(ExportError::Memory) => Err(Memory),
        Err(_) => Ok(None),
    }
}

/// Returns whether a file has the converted tables of another.
fn has_converted_tables(
    alloc: Global,
    how: Conversion,
    file: &Verified<'_>,
    converted: &Verified<'_>,
) -> Result<bool, Memory>
    ensures { IfOk result (λ same. Decides same (tables_of converted.now ≡ converted_tables how (tables_of file.now))) }
{
    let mut wanted = file.copied_tables(alloc)?;
    convert_tables(alloc, how, &mut wanted)?;
    Ok(same_tables(&converted.copied_tables(alloc)?, &wanted))
}
