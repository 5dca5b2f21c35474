//! Writes elements, contexts and outputs as strings of a file.

ghost use Rattle.std.specs.Prelude.{◌≡◌, ◌+◌, ◌<◌, ◌^◌, ◌++◌, length, map, OnOk};
ghost use Rattle.std.specs.List.{All};
ghost use Rattle.kmn_base.specs.Spelling.{IsSpellable, unit_bytes};
ghost use Rattle.kmx_format.specs.File.{string};
ghost use Rattle.kmx_format.specs.FileUnits.{item_units};

use crate::units::{put_units, size_of_units};
use item_codec::{spell, unit_count};
use kmn_base::{Memory, Seq};
use kmx_format::Spelled;

/// Returns the number of bytes of the string of these items.
#[tactic(auto, using(crate::proofs::Strings::length_string, crate::proofs::Strings::units_within))]
pub(crate) fn string_size<T: Spelled>(items: &[T]) -> u64
    requires spellable { All (λ item. IsSpellable (T.spelled item)) items.now }
    requires fits { length (string (item_units (map T.spelled items.now))) < 2 ^ 63 }
    ensures { result ≡ length (string (item_units (map T.spelled items.now))) }
{
    size_of_units(item_unit_count(items))
}

/// Returns the number of units of the items.
#[tactic(auto, unfolding(kmx_format::specs::FileUnits::item_units))]
fn item_unit_count<T: Spelled>(items: &[T]) -> u64
    requires spellable { All (λ item. IsSpellable (T.spelled item)) items.now }
    requires fits { length (item_units (map T.spelled items.now)) < 2 ^ 64 }
    ensures { result ≡ length (item_units (map T.spelled items.now)) }
{
    let mut count = 0;
    for item in items {
        count += u64::from(unit_count(item.unit_item()));
    }
    count
}

/// Appends the string of these items.
pub(crate) fn put_string<T: Spelled>(out: &mut Seq<u8>, items: &[T]) -> Result<(), Memory>
    requires { All (λ item. IsSpellable (T.spelled item)) items.now }
    ensures { OnOk result (out.new ≡ out.old ++ string (item_units (map T.spelled items.now))) }
{
    if items.is_empty() {
        return Ok(());
    }
    put_items(out, items)?;
    put_units(out, &[0])
}

/// Appends the units of items.
#[tactic(auto, unfolding(kmx_format::specs::FileUnits::item_units))]
fn put_items<T: Spelled>(out: &mut Seq<u8>, items: &[T]) -> Result<(), Memory>
    requires { All (λ item. IsSpellable (T.spelled item)) items.now }
    ensures { OnOk result (out.new ≡ out.old ++ unit_bytes (item_units (map T.spelled items.now))) }
{
    for item in items {
        spell(out, item.unit_item())?;
    }
    Ok(())
}
