//! Moves each `nul` of a context before its conditions, in place.

ghost use Rattle.std.specs.Prelude.{◌≡◌, ◌+◌, ◌<◌, ◌≤◌, ◌^◌, true, length, IfOk};
ghost use Rattle.kmn_base.specs.declared.limits.TheConstants.{CONTEXT_ITEMS};
ghost use Rattle.file_conversions.specs.NulWords.{is_nul_at, is_condition_at, word_first, nuls_first, nul_first_context, nul_first_record, nul_first_records, nul_first_groups, nul_first_bytes};

use kmn_base::limits::CONTEXT_ITEMS;
use kmn_base::{Memory, Seq};
use kmx_format::places::{
    GROUP_COUNT_AT, GROUP_RULE_COUNT_AT, GROUP_RULES_AT, GROUPS_AT, RULE_CONTEXT_AT,
};
use kmx_format::sizes::{GROUP_BYTES, RULE_BYTES};
use kmx_view::word_at;
use std::alloc::Global;

/// The word of `nul`: the sentinel and its code.
const NUL: u32 = 0x0004_FFFF;
/// The first word of a condition on a store.
const TEST: u32 = 0x0014_FFFF;
/// The first word of a condition on a system option.
const SYSTEM_TEST: u32 = 0x0017_FFFF;
/// The bytes of `nul`.
const NUL_BYTES: usize = 4;
/// The bytes of a condition: its first word and three operands.
const CONDITION_BYTES: usize = 10;

/// Returns a copy of the bytes of a file in which each `nul` before the first matched item of a context is before the conditions.
#[tactic(auto, unfolding(crate::specs::NulWords::nul_first_bytes))]
pub(crate) fn nul_first_bytes(alloc: Global, bytes: &[u8]) -> Result<Seq<u8>, Memory>
    ensures { IfOk result (λ out. out ≡ nul_first_bytes bytes.now) }
{
    let mut out = Seq::from_slice(alloc, bytes)?;
    convert_groups(
        bytes,
        word_at(bytes, GROUPS_AT),
        word_at(bytes, GROUP_COUNT_AT),
        out.as_mut_slice(),
    );
    Ok(out)
}

/// Converts the contexts of all key records of `count` groups.
fn convert_groups(bytes: &[u8], place: u32, count: u32, out: &mut [u8])
    ensures { out.new ≡ nul_first_groups bytes.now place count out.old }
{
    for i in 0..count as usize {
        let group = place as usize + GROUP_BYTES * i;
        let records = word_at(bytes, group + GROUP_RULES_AT);
        convert_records(
            bytes,
            records,
            word_at(bytes, group + GROUP_RULE_COUNT_AT),
            out,
        );
    }
}

/// Converts the contexts of `count` key records.
fn convert_records(bytes: &[u8], place: u32, count: u32, out: &mut [u8])
    ensures { out.new ≡ nul_first_records bytes.now place count out.old }
{
    for i in 0..count as usize {
        convert_record(bytes, place as usize + RULE_BYTES * i, out);
    }
}

/// Converts the context of a key record.
fn convert_record(bytes: &[u8], place: usize, out: &mut [u8])
    requires { place < 2 ^ 61 }
    ensures { out.new ≡ nul_first_record bytes.now place out.old }
{
    convert_context(word_at(bytes, place + RULE_CONTEXT_AT), out);
}

/// Converts the context at an offset.
#[tactic(auto, unfolding(crate::specs::NulWords::nul_first_context))]
fn convert_context(offset: u32, out: &mut [u8])
    ensures { out.new ≡ nul_first_context offset out.old }
{
    move_nuls(offset as usize, CONTEXT_ITEMS, out);
}

/// Moves each `nul` of the first `count` items of the context at a position before the conditions.
fn move_nuls(start: usize, count: usize, out: &mut [u8])
    requires near { start < 2 ^ 32 }
    requires few { count ≤ CONTEXT_ITEMS }
    ensures { out.new ≡ nuls_first count start 0 out.old }
{
    let mut place = start;
    let mut size = 0;
    for _item in 0..count {
        if is_nul_at(out, place + size) {
            move_word(place, size, out);
            place += NUL_BYTES;
        } else if is_condition_at(out, place + size) {
            size += CONDITION_BYTES;
        } else {
            return;
        }
    }
}

/// Returns whether `nul` is at a position.
#[tactic(auto, using(crate::proofs::NulWords::nul_within))]
fn is_nul_at(bytes: &[u8], place: usize) -> bool
    requires { place < 2 ^ 62 }
    ensures nul { result ≡ is_nul_at bytes.now place }
    ensures within { result ≡ true → place + 4 ≤ length bytes.now }
{
    word_at(bytes, place) == NUL
}

/// Returns whether a condition is at a position.
fn is_condition_at(bytes: &[u8], place: usize) -> bool
    requires { place < 2 ^ 62 }
    ensures { result ≡ is_condition_at bytes.now place }
{
    let word = word_at(bytes, place);
    word == TEST || word == SYSTEM_TEST
}

/// Moves the word after `size` bytes from a position on before these bytes.
#[tactic(auto, using(crate::proofs::NulWords::rotated))]
fn move_word(place: usize, size: usize, out: &mut [u8])
    requires { place + size + 4 ≤ length out.old }
    ensures { out.new ≡ word_first place size out.old }
{
    out[place..place + size + NUL_BYTES].rotate_right(NUL_BYTES);
}
