//! Writes a whole file: the header, the parts in their order, and the bitmap.

ghost use Rattle.std.specs.Prelude.{◌≡◌, ◌+◌, ◌≤◌, ◌<◌, ◌++◌, length, IfOk, IfErr, OnOk};
ghost use Rattle.kmx_format.specs.File.{header, file_of, picture_place};
ghost use Rattle.kmx_format.specs.Writable.{IsWritable, IsFile};
ghost use Rattle.kmx_writer.specs.Excess.{excess, IsExcess};
ghost use Rattle.kmx_writer.specs.Places.{ArePlaces};
ghost use Rattle.kmx_writer.specs.Spellings.{AreSpellable};

use crate::places::{Places, places_of};
use crate::units::{offset_of, put_words};
use crate::{groups, stores};
use kmn_base::limits::{FILE_BYTES, PICTURE_BYTES};
use kmn_base::{Code, CompileError, Memory, Seq};
use kmx_format::places::IDENTIFIER;
use kmx_format::sizes::HEADER_BYTES;
use rule_model::Tables;
use std::alloc::Global;

/// Writes the compiled keyboard of the tables and a bitmap. The sizes are checked before a byte is written.
///
/// Errors: `TooLarge` with C24 if the bitmap is too large, or else with C23 if the file is; `Memory` if an allocation fails.
pub fn write(alloc: Global, tables: &Tables, picture: &[u8]) -> Result<Seq<u8>, CompileError>
    requires { IsWritable tables.now }
    ensures written { IfOk result (λ bytes. bytes ≡ file_of tables.now picture.now) }
    ensures file { IfOk result IsFile }

    // The limit of the bitmap is checked before the limit of the file.
    ensures within { OnOk result (excess tables.now picture.now ≡ None) }
    ensures refused { IfErr result (IsExcess (excess tables.now picture.now)) }
{
    if PICTURE_BYTES < picture.len() {
        return Err(CompileError::TooLarge {
            code: Code::C24,
            size: picture.len() as u64,
        });
    }
    let places = places_of(tables);
    let size = places.picture + picture.len() as u64;
    if (FILE_BYTES as u64) < size {
        return Err(CompileError::TooLarge {
            code: Code::C23,
            size,
        });
    }
    Ok(file(alloc, tables, &places, picture)?)
}

/// Returns the file of the tables and a bitmap.
#[tactic(auto, unfolding(kmx_format::specs::File::file_of))]
fn file(alloc: Global, tables: &Tables, places: &Places, picture: &[u8]) -> Result<Seq<u8>, Memory>
    requires spellable { AreSpellable tables.now }
    requires places { ArePlaces tables.now places.now }
    requires fits { picture_place tables.now + length picture.now ≤ FILE_BYTES }
    ensures { IfOk result (λ bytes. bytes ≡ file_of tables.now picture.now) }
{
    let room = Vec::with_capacity(alloc, places.picture as usize + picture.len())?;
    let mut out = Seq::from_vec(room);
    put_header(&mut out, tables, places, picture)?;
    stores::put_records(
        &mut out,
        places.store_strings as u32,
        tables.stores.as_slice(),
    )?;
    groups::put_records(
        &mut out,
        places.rules as u32,
        places.group_strings as u32,
        tables.groups.as_slice(),
    )?;
    groups::put_rule_records(
        &mut out,
        places.rule_strings as u32,
        tables.groups.as_slice(),
    )?;
    stores::put_strings(&mut out, tables.stores.as_slice())?;
    groups::put_strings(&mut out, tables.groups.as_slice())?;
    groups::put_rule_strings(&mut out, tables.groups.as_slice())?;
    out.extend_from_slice(picture)?;
    Ok(out)
}

/// Appends the header of the file of the tables and a bitmap.
#[tactic(auto, using(crate::proofs::Strings::offset_of_list))]
fn put_header(
    out: &mut Seq<u8>,
    tables: &Tables,
    places: &Places,
    picture: &[u8],
) -> Result<(), Memory>
    requires spellable { AreSpellable tables.now }
    requires places { ArePlaces tables.now places.now }
    requires fits { picture_place tables.now + length picture.now ≤ FILE_BYTES }
    ensures { OnOk result (out.new ≡ out.old ++ header tables.now picture.now) }
{
    let stores = tables.stores.len() as u32;
    let groups = tables.groups.len() as u32;
    let stores_place = offset_of(stores, HEADER_BYTES as u32);
    let groups_place = offset_of(groups, places.groups as u32);
    let picture_bytes = picture.len() as u32;
    let picture_place = offset_of(picture_bytes, places.picture as u32);
    let version = u32::from(tables.version);
    put_words(out, &[IDENTIFIER, version, 0, 0, 0, 0, stores, groups])?;
    put_words(
        out,
        &[
            stores_place,
            groups_place,
            tables.start_ansi,
            tables.start_unicode,
        ],
    )?;
    put_words(out, &[0, 0, picture_place, picture_bytes])
}
