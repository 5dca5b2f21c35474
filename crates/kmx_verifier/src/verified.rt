//! A valid compiled keyboard. Only `verify` creates one, so each value is a file without a fault.

ghost use Rattle.std.specs.Prelude.{◌≡◌, ◌≤◌, length, IfOk, MatchResult, None, Some};
ghost use Rattle.kmn_base.specs.declared.limits.TheConstants.{FILE_BYTES};
ghost use Rattle.kmx_verifier.specs.FaultOf.{fault_of, IsRefusal};

use crate::counts::rule_count;
use crate::faults::VerifyError;
use crate::options::is_option;
use crate::tables::copied;
use crate::whole::check_file;
use kmn_base::Memory;
use kmx_parts::FileTables;
use kmx_view::KmxView;
use rule_model::Tables;
use std::alloc::Global;
use std::marker::Model;

/// A valid compiled keyboard. It borrows the bytes and copies nothing. Contracts model it as its bytes.
#[derive(Drop)]
pub struct Verified<'a> {
    bytes: &'a [u8],
}

impl<'a> Model for Verified<'a> {
    ghost use Rattle.std.specs.Prelude.{◌≤◌, ℕ, List, length};
    ghost use Rattle.kmn_base.specs.declared.limits.TheConstants.{FILE_BYTES};
    ghost use Rattle.kmx_format.specs.TablesOf.{tables_of};
    ghost use Rattle.kmx_format.specs.Playable.{IsPlayable};
    ghost use Rattle.kmx_verifier.specs.FaultOf.{IsValid};

    ghost Value = { List ℕ };

    ghost view = { λ file. file.bytes.now };

    ghost invariant = { λ file. (length file.bytes.now ≤ FILE_BYTES) × IsPlayable (tables_of file.bytes.now) × IsValid file.bytes.now };
}

impl<'a> Verified<'a> {
    ghost use Rattle.std.specs.Prelude.{nat_eq};
    ghost use Rattle.std.specs.List.{list_any};
    ghost use Rattle.rule_model.specs.Tab.{tab_options};
    ghost use Rattle.kmx_format.specs.File.{all_rules};
    ghost use Rattle.kmx_format.specs.TablesOf.{tables_of};
    ghost use Rattle.kmx_format.specs.Playable.{IsPlayable};
    ghost use Rattle.kmx_verifier.specs.FaultOf.{IsValid};

    /// Returns the bytes of the file.
    pub fn bytes(&self) -> &'a [u8]
        ensures value { result.now ≡ self.now }
        ensures valid { IsValid self.now }
    {
        self.bytes
    }

    /// Returns a view that reads the parts of the file by byte offset.
    pub fn view(&self) -> KmxView<'a>
        ensures value { result.bytes.now ≡ self.now }
        ensures few { length self.now ≤ FILE_BYTES }
    {
        KmxView::of(self.bytes)
    }

    /// Returns the tables of the file, which are read in place.
    pub fn parts(&self) -> FileTables<'a>
        ensures value { result ≡ tables_of self.now }
        ensures playable { IsPlayable result }
    {
        FileTables::of(self.bytes)
    }

    /// Copies the tables of the file.
    ///
    /// Errors: `Memory` if an allocation fails.
    pub fn copied_tables(&self, alloc: Global) -> Result<Tables, Memory>
        ensures value { IfOk result (λ tables. tables ≡ tables_of self.now) }
        ensures playable { IsPlayable (tables_of self.now) }
    {
        copied(alloc, &self.parts())
    }

    /// Returns the version of the file's format.
    pub fn version(&self) -> u16
        ensures { result ≡ (tables_of self.now).version }
    {
        self.parts().version()
    }

    /// Returns the number of stores of the file.
    pub fn store_count(&self) -> u32
        ensures { result ≡ length (tables_of self.now).stores }
    {
        self.parts().store_count()
    }

    /// Returns the number of groups of the file.
    pub fn group_count(&self) -> u32
        ensures { result ≡ length (tables_of self.now).groups }
    {
        self.parts().group_count()
    }

    /// Returns the number of key records in all groups of the file.
    pub fn rule_count(&self) -> u32
        ensures { result ≡ length (all_rules (tables_of self.now)) }
    {
        rule_count(&self.parts())
    }

    /// Returns whether a condition, `set`, `save` or `reset` names a store.
    pub fn is_option(&self, store: u32) -> bool
        ensures { result ≡ list_any (nat_eq store) (tab_options (tables_of self.now)) }
    {
        is_option(&self.parts(), store)
    }
}

/// Verifies an untrusted file.
///
/// Errors: `Refused` with the first fault of the file; `Memory` if an allocation fails.
pub fn verify<'a>(alloc: Global, bytes: &'a [u8]) -> Result<Verified<'a>, VerifyError>
    ensures { MatchResult result
        (λ file. (fault_of bytes.now ≡ None) × (file ≡ bytes.now))
        (λ error. IsRefusal error (λ fault. fault_of bytes.now ≡ Some fault)) }
{
    check_file(alloc, bytes)?;
    Ok(Verified { bytes })
}
