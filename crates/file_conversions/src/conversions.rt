//! The three conversions of a file, in its bytes and in its tables.

ghost use Rattle.std.specs.Prelude.{◌≡◌, IfOk, OnOk};
ghost use Rattle.kmx_verifier.specs.FaultOf.{IsValid};
ghost use Rattle.file_conversions.specs.NomatchWords.{nomatch_bytes};
ghost use Rattle.file_conversions.specs.Conversions.{converted_bytes, converted_tables};

use crate::nomatch_words::{all_use_keys, nomatch_bytes};
use crate::nul_words::nul_first_bytes;
use crate::plain_flags::plain_bytes;
use core_conversions::{empty_as_nomatch, nul_first, plain_sides};
use kmn_base::{Memory, Seq};
use kmx_verifier::{VerifyError, verify};
use rule_model::Tables;
use std::alloc::Global;

/// A conversion of a file for Keyman's own engine.
#[derive(Clone, Copy)]
pub enum Conversion {
    /// Each `nul` before the first matched item of a context is moved before the conditions.
    NulFirst,
    /// The sides of each key that CTRL or ALT makes needless are removed.
    PlainSides,
    /// In a group without keys, the output of the first rule with an empty context is also the nomatch output.
    EmptyAsNomatch,
}

/// Returns a converted copy of the bytes of a valid file.
///
/// Errors: `Memory` if an allocation fails.
pub fn converted_bytes(alloc: Global, how: Conversion, bytes: &[u8]) -> Result<Seq<u8>, Memory>
    requires { IsValid bytes.now }
    ensures { IfOk result (λ out. out ≡ converted_bytes how bytes.now) }
{
    match how {
        Conversion::NulFirst => nul_first_bytes(alloc, bytes),
        Conversion::PlainSides => plain_bytes(alloc, bytes),
        Conversion::EmptyAsNomatch => nomatch_copy(alloc, bytes),
    }
}

/// Returns a copy of the bytes of a valid file with the nomatch outputs of its groups converted. Opens the file only if a group does
/// not use keys, since no other group is converted.
#[tactic(auto, using(crate::proofs::NomatchWords::keyed_copy))]
fn nomatch_copy(alloc: Global, bytes: &[u8]) -> Result<Seq<u8>, Memory>
    requires { IsValid bytes.now }
    ensures { IfOk result (λ out. out ≡ nomatch_bytes bytes.now) }
{
    if !all_use_keys(bytes) {
        return opened_nomatch(alloc, bytes);
    }
    let copy = Seq::from_slice(alloc, bytes)?;
    Ok(copy)
}

/// Opens a valid file, and returns a copy of its bytes with the nomatch outputs of its groups converted.
#[tactic(auto, using(crate::proofs::NomatchWords::never_refused))]
fn opened_nomatch(alloc: Global, bytes: &[u8]) -> Result<Seq<u8>, Memory>
    requires { IsValid bytes.now }
    ensures { IfOk result (λ out. out ≡ nomatch_bytes bytes.now) }
{
    match verify(alloc, bytes) {
        Ok(file) => nomatch_bytes(alloc, &file),
        Err(VerifyError::Memory) => Err(Memory),
        Err(VerifyError::Refused(_)) => Seq::from_slice(alloc, bytes),
    }
}

/// Converts tables.
///
/// Errors: `Memory` if an allocation fails; some groups may be converted then.
pub fn convert_tables(alloc: Global, how: Conversion, tables: &mut Tables) -> Result<(), Memory>
    ensures { OnOk result (tables.new ≡ converted_tables how tables.old) }
{
    match how {
        Conversion::NulFirst => nul_first(tables),
        Conversion::PlainSides => plain_sides(tables),
        Conversion::EmptyAsNomatch => empty_as_nomatch(alloc, tables)?,
    }
    Ok(())
}
