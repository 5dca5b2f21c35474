//! Sets the nomatch output of groups without keys to the output of a rule, in place.

ghost use Rattle.std.specs.Prelude.{◌≡◌, ◌≤◌, ◌<◌, ◌^◌, length, IfOk};
ghost use Rattle.kmn_base.specs.declared.limits.TheConstants.{GROUPS};
ghost use Rattle.file_conversions.specs.NomatchWords.{output_word, nomatch_from, nomatch_groups, nomatch_bytes, groups_use_keys, all_use_keys};

use crate::words::put_word;
use core_conversions::nomatch_rule;
use kmn_base::{Memory, Seq};
use kmx_format::places::{
    GROUP_COUNT_AT, GROUP_NOMATCH_AT, GROUP_RULE_COUNT_AT, GROUP_RULES_AT, GROUP_USING_KEYS_AT,
    GROUPS_AT, RULE_OUTPUT_AT,
};
use kmx_format::sizes::{GROUP_BYTES, RULE_BYTES};
use kmx_verifier::Verified;
use kmx_view::word_at;
use rule_model::Group;
use std::alloc::Global;

/// Returns a copy of the bytes of a file in which the nomatch output of a group is the output of its first rule with an empty context,
/// if this means the same.
#[tactic(auto, using(crate::proofs::NomatchWords::few_groups), unfolding(crate::specs::NomatchWords::nomatch_bytes))]
pub(crate) fn nomatch_bytes(alloc: Global, file: &Verified<'_>) -> Result<Seq<u8>, Memory>
    ensures { IfOk result (λ out. out ≡ nomatch_bytes file.now) }
{
    let tables = file.copied_tables(alloc)?;
    let bytes = file.view().bytes;
    let mut out = Seq::from_slice(alloc, bytes)?;
    set_groups(
        bytes,
        word_at(bytes, GROUPS_AT),
        tables.groups.as_slice(),
        out.as_mut_slice(),
    );
    Ok(out)
}

/// Sets the nomatch outputs of groups. Their records in the file follow one another from a position on.
#[tactic(auto, using(crate::proofs::NomatchWords::group_passed))]
fn set_groups(bytes: &[u8], place: u32, groups: &[Group], out: &mut [u8])
    requires { length groups.now ≤ GROUPS }
    ensures { out.new ≡ nomatch_groups bytes.now place groups.now out.old }
{
    for i in 0..groups.len() {
        set_nomatch(
            bytes,
            place as usize + GROUP_BYTES * i,
            nomatch_rule(&groups[i]),
            out,
        );
    }
}

/// Sets the nomatch output of the group at a position to the output of the key record with a number, if there is a number.
fn set_nomatch(bytes: &[u8], place: usize, rule: Option<usize>, out: &mut [u8])
    requires { place < 2 ^ 61 }
    ensures { out.new ≡ nomatch_from bytes.now place rule out.old }
{
    if let Some(rule) = rule {
        if rule < word_at(bytes, place + GROUP_RULE_COUNT_AT) as usize {
            put_word(
                out,
                place + GROUP_NOMATCH_AT,
                output_word(bytes, place, rule),
            );
        }
    }
}

/// Returns the offset of the output of the key record with a number, in the group at a position.
fn output_word(bytes: &[u8], place: usize, rule: usize) -> u32
    requires near { place < 2 ^ 61 }
    requires few { rule < 2 ^ 32 }
    ensures { result ≡ output_word bytes.now place rule }
{
    let records = word_at(bytes, place + GROUP_RULES_AT) as usize;
    word_at(bytes, records + RULE_BYTES * rule + RULE_OUTPUT_AT)
}

/// Returns whether all groups of a file use keys. No nomatch output is set then.
pub(crate) fn all_use_keys(bytes: &[u8]) -> bool
    ensures { result ≡ all_use_keys bytes.now }
{
    groups_use_keys(
        bytes,
        word_at(bytes, GROUPS_AT),
        word_at(bytes, GROUP_COUNT_AT),
    )
}

/// Returns whether all of `count` groups use keys.
fn groups_use_keys(bytes: &[u8], place: u32, count: u32) -> bool
    ensures { result ≡ groups_use_keys bytes.now place count }
{
    for i in 0..count as usize {
        if word_at(
            bytes,
            place as usize + GROUP_BYTES * i + GROUP_USING_KEYS_AT,
        ) == 0
        {
            return false;
        }
    }
    true
}
