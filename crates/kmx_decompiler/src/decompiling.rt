//! Decompiles a file: refuses it for the first reason, or writes its text.

ghost use Rattle.std.specs.Prelude.{◌≡◌, All, IfErr, IfOk, None, OnOk, Some};
ghost use Rattle.std.specs.Str.{IsUtf8};
ghost use Rattle.rule_model.specs.Tab.{tab_dictionary};
ghost use Rattle.kmx_format.specs.Playable.{IsPlayable};
ghost use Rattle.kmx_format.specs.TablesOf.{tables_of};
ghost use Rattle.kmx_verifier.specs.FaultOf.{IsValid};
ghost use Rattle.kmn_parser.specs.Programs.{program_text};
ghost use Rattle.decompile_program.specs.Back.{back, free_stores, names_for};
ghost use Rattle.decompile_program.specs.WrittenOut.{CanBeWrittenOut};
ghost use Rattle.kmx_decompiler.specs.Excess.{excess};
ghost use Rattle.kmx_decompiler.specs.Places.{cause_places, least};
ghost use Rattle.kmx_decompiler.specs.Unspelled.{disorder, unspelled};
ghost use Rattle.decompile_text.specs.Whole.{IsFront};
ghost use Rattle.kmx_decompiler.specs.Refusals.{IsRefusal};

use crate::NoSpelling;
use crate::counts::{count_all, passed};
use crate::options::UsedOptions;
use crate::order::disorder;
use crate::places::least_cause;
use crate::refusals::DecompileError;
use crate::stores::copied_stores;
use decompile_program::{Called, called_by, free_stores};
use decompile_text::{Front, SizedNames, front_count, front_of, text_of, text_size};
use indexed_tables::IndexedTables;
use kmn_base::Text;
use kmn_base::limits::TEXT_BYTES;
use kmn_base::slices::behind;
use kmx_parts::FileTables;
use kmx_verifier::Verified;
use std::alloc::Global;

/// Returns the source of a valid file: the text of the program that its tables decompile to, with one statement on each line. Reads the
/// records in the file, and copies only its stores.
///
/// Errors: `Refused` with the reason exactly when the file has no text that is a source; `Memory` if an allocation fails.
#[tactic(auto, using(crate::proofs::Refusing::unspelled_order))]
pub fn decompile(alloc: Global, file: &Verified<'_>) -> Result<Text, DecompileError>
    ensures text { IfOk result (λ text. text ≡ program_text (back (tables_of file.now))) }
    ensures spelled { OnOk result (unspelled file.now ≡ None) }
    ensures refused { IfErr result (λ error. IsRefusal error (λ why. unspelled file.now ≡ Some why)) }
{
    let parts = file.parts();
    if let Some(why) = disorder(&parts) {
        return Err(DecompileError::Refused(why));
    }
    text_in_order(alloc, file.bytes(), &parts)
}

/// Returns the text of a file whose records are in order.
#[tactic(auto, using(crate::proofs::Refusing::few_keys, crate::proofs::Refusing::unspelled_excess))]
fn text_in_order(alloc: Global, bytes: &[u8], file: &FileTables<'_>) -> Result<Text, DecompileError>
    requires tables { file.now ≡ tables_of bytes.now }
    requires playable { IsPlayable file.now }
    requires valid { IsValid bytes.now }
    requires order { disorder 0 file.now.groups ≡ None }
    ensures text { IfOk result (λ text. text ≡ program_text (back file.now)) }
    ensures spelled { OnOk result (unspelled bytes.now ≡ None) }
    ensures refused { IfErr result (λ error. IsRefusal error (λ why. unspelled bytes.now ≡ Some why)) }
{
    let free = free_stores(alloc, file)?;
    let copy = copied_stores(alloc, file)?;
    let indexed = IndexedTables::new(alloc, &copy)?;
    let front = front_of(alloc, &indexed, file)?;
    let left = behind(free.as_slice(), front_count(&front, file));
    let names = called_by(alloc, &indexed, copy.stores.as_slice(), file, left)?;
    let options = UsedOptions::new(alloc, file)?;
    match least_cause(alloc, bytes, &options, &names, file)? {
        Some(at) => Err(DecompileError::Refused(NoSpelling::Unspelled { at })),
        None => text_within(alloc, &front, &names, file, free.as_slice()),
    }
}

/// Returns the text of a file, unless the text or what it compiles to is too large.
#[tactic(auto, using(crate::proofs::Refusing::larger_text, crate::proofs::Refusing::text_within))]
fn text_within(
    alloc: Global,
    front: &Front,
    names: &Called<'_>,
    file: &FileTables<'_>,
    free: &[Text],
) -> Result<Text, DecompileError>
    requires playable { IsPlayable file.now }
    requires front { IsFront file.now front.now }
    requires free { free.now ≡ free_stores file.now }
    requires names { names.now ≡ names_for file.now }
    requires written { CanBeWrittenOut file.now }
    requires keys { All IsUtf8 (tab_dictionary file.now.stores) }
    ensures text { IfOk result (λ text. text ≡ program_text (back file.now)) }
    ensures within { OnOk result (excess (back file.now) ≡ None) }
    ensures refused { IfErr result (λ error. IsRefusal error (λ why. excess (back file.now) ≡ Some why)) }
{
    let sized = SizedNames::new(alloc, names)?;
    let size = text_size(alloc, front, &sized, file, free)?;
    if (TEXT_BYTES as u64) < size {
        return Err(DecompileError::Refused(NoSpelling::TooLarge { size }));
    }
    let counts = count_all(alloc, front, names, file)?;
    match passed(counts) {
        Some(why) => Err(DecompileError::Refused(why)),
        None => Ok(text_of(alloc, front, &sized, file, free)?),
    }
}
