//! Appends numbers and units to a list of bytes, and computes the sizes and offsets of strings.

ghost use Rattle.std.specs.Prelude.{◌≡◌, ◌<◌, ◌^◌, ◌++◌, nat_eq, if◌then◌else◌, OnOk};
ghost use Rattle.kmn_base.specs.Spelling.{unit_bytes};
ghost use Rattle.kmx_format.specs.File.{half, words};
ghost use Rattle.kmx_writer.specs.Sizes.{string_size};

use kmn_base::{Memory, Seq};

#[tactic(auto, unfolding(kmx_format::specs::File::half))]
pub(crate) fn put_half(out: &mut Seq<u8>, number: u16) -> Result<(), Memory>
    ensures { OnOk result (out.new ≡ out.old ++ half number) }
{
    out.extend_from_slice(&number.to_le_bytes())
}

#[tactic(auto, unfolding(kmx_format::specs::File::word))]
pub(crate) fn put_words(out: &mut Seq<u8>, numbers: &[u32]) -> Result<(), Memory>
    ensures { OnOk result (out.new ≡ out.old ++ words numbers.now) }
{
    for number in numbers {
        out.extend_from_slice(&number.to_le_bytes())?;
    }
    Ok(())
}

pub(crate) fn put_units(out: &mut Seq<u8>, units: &[u16]) -> Result<(), Memory>
    ensures { OnOk result (out.new ≡ out.old ++ unit_bytes units.now) }
{
    for unit in units {
        out.extend_from_slice(&unit.to_le_bytes())?;
    }
    Ok(())
}

/// Returns the number of bytes of a string of `count` units.
pub(crate) fn size_of_units(count: u64) -> u64
    requires { count < 2 ^ 62 }
    ensures { result ≡ string_size count }
{
    if count == 0 { 0 } else { 2 * count + 2 }
}

/// Returns the offset that a file has for a string or an array at `place`: 0 if its size is 0.
pub(crate) fn offset_of(bytes: u32, place: u32) -> u32
    ensures { result ≡ (if nat_eq bytes 0 then 0 else place) }
{
    if bytes == 0 { 0 } else { place }
}
