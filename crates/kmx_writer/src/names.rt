//! Writes names, which are UTF-8 in tables, as strings of a file.

ghost use Rattle.std.specs.Prelude.{◌≡◌, ◌<◌, ◌^◌, ◌++◌, length, OnOk};
ghost use Rattle.std.specs.Str.{IsUtf8};
ghost use Rattle.kmn_base.specs.Spelling.{unit_bytes};
ghost use Rattle.kmx_format.specs.File.{string};
ghost use Rattle.kmx_format.specs.FileUnits.{name_units};

use crate::units::{put_units, size_of_units};
use item_codec::{char_unit_count, put_char};
use kmn_base::{Memory, Seq};
use std::str;

/// Returns the number of bytes of the string of a name.
#[tactic(auto, using(crate::proofs::Strings::length_string, crate::proofs::Strings::units_within))]
pub(crate) fn name_size(name: &[u8]) -> u64
    requires utf8 { IsUtf8 name.now }
    requires fits { length (string (name_units name.now)) < 2 ^ 62 }
    ensures { result ≡ length (string (name_units name.now)) }
{
    size_of_units(name_unit_count(name))
}

/// Returns the number of units of a name.
#[tactic(auto, unfolding(kmx_format::specs::FileUnits::name_units))]
fn name_unit_count(name: &[u8]) -> u64
    requires utf8 { IsUtf8 name.now }
    requires fits { length (name_units name.now) < 2 ^ 64 }
    ensures { result ≡ length (name_units name.now) }
{
    let mut count = 0;
    for c in text_of(name).chars() {
        count += u64::from(char_unit_count(c));
    }
    count
}

fn text_of(name: &[u8]) -> &str
    requires { IsUtf8 name.now }
    ensures { result.now ≡ name.now }
{
    match str::from_utf8(name) {
        Ok(text) => text,
        Err(_) => unreachable!(),
    }
}

/// Appends the string of a name.
pub(crate) fn put_name(out: &mut Seq<u8>, name: &[u8]) -> Result<(), Memory>
    requires { IsUtf8 name.now }
    ensures { OnOk result (out.new ≡ out.old ++ string (name_units name.now)) }
{
    if name.is_empty() {
        return Ok(());
    }
    put_name_units(out, name)?;
    put_units(out, &[0])
}

/// Appends the units of a name.
#[tactic(auto, unfolding(kmx_format::specs::FileUnits::name_units))]
fn put_name_units(out: &mut Seq<u8>, name: &[u8]) -> Result<(), Memory>
    requires { IsUtf8 name.now }
    ensures { OnOk result (out.new ≡ out.old ++ unit_bytes (name_units name.now)) }
{
    for c in text_of(name).chars() {
        put_char(out, c)?;
    }
    Ok(())
}
