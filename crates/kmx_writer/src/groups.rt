//! Writes the group array of a file, the strings of groups, and the key arrays group by group.

ghost use Rattle.std.specs.Prelude.{◌≡◌, ◌+◌, ◌*◌, ◌<◌, ◌^◌, ◌++◌, length, IfOk, OnOk};
ghost use Rattle.std.specs.List.{All, flat_map};
ghost use Rattle.kmx_format.specs.declared.sizes.TheConstants.{RULE_BYTES};
ghost use Rattle.kmx_format.specs.File.{rules_of, rule_strings, group_strings, group_record, group_records, rule_records};
ghost use Rattle.kmx_writer.specs.Spellings.{IsSpellableGroup};

use crate::names::{name_size, put_name};
use crate::rules;
use crate::spelled::{put_string, string_size};
use crate::units::{offset_of, put_words};
use kmn_base::{Memory, Seq};
use kmx_format::sizes::RULE_BYTES;
use rule_model::Group;

/// Returns the number of bytes of the strings of all groups.
pub(crate) fn all_strings_size(groups: &[Group]) -> u64
    requires spellable { All IsSpellableGroup groups.now }
    requires fits { length (flat_map group_strings groups.now) < 2 ^ 62 }
    ensures { result ≡ length (flat_map group_strings groups.now) }
{
    let mut size = 0;
    for group in groups {
        size += strings_size(group);
    }
    size
}

/// Returns the number of bytes of the strings of a group.
fn strings_size(group: &Group) -> u64
    requires spellable { IsSpellableGroup group.now }
    requires fits { length (group_strings group.now) < 2 ^ 62 }
    ensures { result ≡ length (group_strings group.now) }
{
    name_size(group.name.as_slice())
        + string_size(group.on_match.as_slice())
        + string_size(group.on_nomatch.as_slice())
}

/// Returns the number of bytes of the strings of the key records of all groups.
pub(crate) fn rule_strings_size(groups: &[Group]) -> u64
    requires spellable { All IsSpellableGroup groups.now }
    requires fits { length (flat_map rule_strings (flat_map rules_of groups.now)) < 2 ^ 62 }
    ensures { result ≡ length (flat_map rule_strings (flat_map rules_of groups.now)) }
{
    let mut size = 0;
    for group in groups {
        size += rules::all_strings_size(group.rules.as_slice());
    }
    size
}

/// Appends the group array. The key records of the groups begin at `rules_place`, and their strings at `place`.
pub(crate) fn put_records(
    out: &mut Seq<u8>,
    rules_place: u32,
    place: u32,
    groups: &[Group],
) -> Result<(), Memory>
    requires spellable { All IsSpellableGroup groups.now }
    requires rules_fit { rules_place + RULE_BYTES * length (flat_map rules_of groups.now) < 2 ^ 32 }
    requires fits { place + length (flat_map group_strings groups.now) < 2 ^ 32 }
    ensures { OnOk result (out.new ≡ out.old ++ group_records rules_place place groups.now) }
{
    let mut rules_place = rules_place;
    let mut place = place;
    for group in groups {
        place = put_record(out, rules_place, place, group)?;
        rules_place += (RULE_BYTES * group.rules.len()) as u32;
    }
    Ok(())
}

/// Appends the record of a group whose key records begin at `rules_place` and whose strings begin at `place`. Returns the
/// offset after its strings.
#[tactic(auto, using(crate::proofs::Strings::offset_of_string, crate::proofs::Strings::offset_of_list))]
fn put_record(out: &mut Seq<u8>, rules_place: u32, place: u32, group: &Group) -> Result<u32, Memory>
    requires spellable { IsSpellableGroup group.now }
    requires rules_fit { length group.now.rules < 2 ^ 32 }
    requires fits { place + length (group_strings group.now) < 2 ^ 32 }
    ensures next { IfOk result (λ next. next ≡ place + length (group_strings group.now)) }
    ensures bytes { OnOk result (out.new ≡ out.old ++ group_record rules_place place group.now) }
{
    let name_bytes = name_size(group.name.as_slice()) as u32;
    let match_bytes = string_size(group.on_match.as_slice()) as u32;
    let nomatch_bytes = string_size(group.on_nomatch.as_slice()) as u32;
    let count = group.rules.len() as u32;
    let name = offset_of(name_bytes, place);
    let rules = offset_of(count, rules_place);
    let on_match = offset_of(match_bytes, place + name_bytes);
    let on_nomatch = offset_of(nomatch_bytes, place + name_bytes + match_bytes);
    put_words(
        out,
        &[
            name,
            rules,
            on_match,
            on_nomatch,
            count,
            u32::from(group.using_keys),
        ],
    )?;
    Ok(place + name_bytes + match_bytes + nomatch_bytes)
}

/// Appends the strings of groups.
pub(crate) fn put_strings(out: &mut Seq<u8>, groups: &[Group]) -> Result<(), Memory>
    requires { All IsSpellableGroup groups.now }
    ensures { OnOk result (out.new ≡ out.old ++ flat_map group_strings groups.now) }
{
    for group in groups {
        put_group_strings(out, group)?;
    }
    Ok(())
}

/// Appends the strings of a group.
fn put_group_strings(out: &mut Seq<u8>, group: &Group) -> Result<(), Memory>
    requires { IsSpellableGroup group.now }
    ensures { OnOk result (out.new ≡ out.old ++ group_strings group.now) }
{
    put_name(out, group.name.as_slice())?;
    put_string(out, group.on_match.as_slice())?;
    put_string(out, group.on_nomatch.as_slice())
}

/// Appends the key arrays of groups. The strings of the key records begin at `place`.
pub(crate) fn put_rule_records(
    out: &mut Seq<u8>,
    place: u32,
    groups: &[Group],
) -> Result<(), Memory>
    requires spellable { All IsSpellableGroup groups.now }
    requires fits { place + length (flat_map rule_strings (flat_map rules_of groups.now)) < 2 ^ 32 }
    ensures { OnOk result (out.new ≡ out.old ++ rule_records place (flat_map rules_of groups.now)) }
{
    let mut place = place;
    for group in groups {
        place = rules::put_records(out, place, group.rules.as_slice())?;
    }
    Ok(())
}

/// Appends the strings of the key records of groups.
pub(crate) fn put_rule_strings(out: &mut Seq<u8>, groups: &[Group]) -> Result<(), Memory>
    requires { All IsSpellableGroup groups.now }
    ensures { OnOk result (out.new ≡ out.old ++ flat_map rule_strings (flat_map rules_of groups.now)) }
{
    for group in groups {
        rules::put_strings(out, group.rules.as_slice())?;
    }
    Ok(())
}
