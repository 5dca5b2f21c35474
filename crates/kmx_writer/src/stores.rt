//! Writes the store array of a file, and the strings of stores.

ghost use Rattle.std.specs.Prelude.{◌≡◌, ◌+◌, ◌<◌, ◌^◌, ◌++◌, length, IfOk, OnOk};
ghost use Rattle.std.specs.List.{All, flat_map};
ghost use Rattle.kmx_format.specs.File.{store_strings, store_record, store_records};
ghost use Rattle.kmx_format.specs.Writable.{IsWritableStore};

use crate::names::{name_size, put_name};
use crate::spelled::{put_string, string_size};
use crate::units::{offset_of, put_words};
use kmn_base::{Memory, Seq};
use rule_model::Store;

/// Returns the number of bytes of the strings of all stores.
pub(crate) fn all_strings_size(stores: &[Store]) -> u64
    requires writable { All IsWritableStore stores.now }
    requires fits { length (flat_map store_strings stores.now) < 2 ^ 62 }
    ensures { result ≡ length (flat_map store_strings stores.now) }
{
    let mut size = 0;
    for store in stores {
        size += strings_size(store);
    }
    size
}

/// Returns the number of bytes of the strings of a store.
fn strings_size(store: &Store) -> u64
    requires writable { IsWritableStore store.now }
    requires fits { length (store_strings store.now) < 2 ^ 62 }
    ensures { result ≡ length (store_strings store.now) }
{
    name_size(store.name.as_slice()) + string_size(store.elements.as_slice())
}

/// Appends the store array. The strings of the stores begin at `place`.
pub(crate) fn put_records(out: &mut Seq<u8>, place: u32, stores: &[Store]) -> Result<(), Memory>
    requires writable { All IsWritableStore stores.now }
    requires fits { place + length (flat_map store_strings stores.now) < 2 ^ 32 }
    ensures { OnOk result (out.new ≡ out.old ++ store_records place stores.now) }
{
    let mut place = place;
    for store in stores {
        place = put_record(out, place, store)?;
    }
    Ok(())
}

/// Appends the record of a store whose strings begin at `place`, and returns the offset after them.
#[tactic(auto, using(crate::proofs::Strings::offset_of_string))]
fn put_record(out: &mut Seq<u8>, place: u32, store: &Store) -> Result<u32, Memory>
    requires writable { IsWritableStore store.now }
    requires fits { place + length (store_strings store.now) < 2 ^ 32 }
    ensures next { IfOk result (λ next. next ≡ place + length (store_strings store.now)) }
    ensures bytes { OnOk result (out.new ≡ out.old ++ store_record place store.now) }
{
    let name_bytes = name_size(store.name.as_slice()) as u32;
    let element_bytes = string_size(store.elements.as_slice()) as u32;
    let name = offset_of(name_bytes, place);
    let elements = offset_of(element_bytes, place + name_bytes);
    put_words(out, &[store.system, name, elements])?;
    Ok(place + name_bytes + element_bytes)
}

/// Appends the strings of stores.
pub(crate) fn put_strings(out: &mut Seq<u8>, stores: &[Store]) -> Result<(), Memory>
    requires { All IsWritableStore stores.now }
    ensures { OnOk result (out.new ≡ out.old ++ flat_map store_strings stores.now) }
{
    for store in stores {
        put_name(out, store.name.as_slice())?;
        put_string(out, store.elements.as_slice())?;
    }
    Ok(())
}
