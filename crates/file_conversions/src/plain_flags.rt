//! Clears the side flags of keys that CTRL or ALT makes needless.

ghost use Rattle.std.specs.Prelude.{◌≡◌, ◌<◌, ◌^◌, IfOk};
ghost use Rattle.file_conversions.specs.PlainFlags.{plain_record, plain_records, plain_group, plain_groups, plain_bytes};

use crate::words::put_word;
use core_conversions::plain_flags;
use kmn_base::{Memory, Seq};
use kmx_format::places::{
    GROUP_COUNT_AT, GROUP_RULE_COUNT_AT, GROUP_RULES_AT, GROUP_USING_KEYS_AT, GROUPS_AT,
    RULE_FLAGS_AT,
};
use kmx_format::sizes::{GROUP_BYTES, RULE_BYTES};
use kmx_view::word_at;
use std::alloc::Global;

/// Returns a copy of the bytes of a file in which no key has CTRL with a side of control, or ALT with a side of alt.
#[tactic(auto, unfolding(crate::specs::PlainFlags::plain_bytes))]
pub(crate) fn plain_bytes(alloc: Global, bytes: &[u8]) -> Result<Seq<u8>, Memory>
    ensures { IfOk result (λ out. out ≡ plain_bytes bytes.now) }
{
    let mut out = Seq::from_slice(alloc, bytes)?;
    plain_groups(
        bytes,
        word_at(bytes, GROUPS_AT),
        word_at(bytes, GROUP_COUNT_AT),
        out.as_mut_slice(),
    );
    Ok(out)
}

/// Clears the needless flags of all key records of `count` groups.
fn plain_groups(bytes: &[u8], place: u32, count: u32, out: &mut [u8])
    ensures { out.new ≡ plain_groups bytes.now place count out.old }
{
    for i in 0..count as usize {
        plain_group(bytes, place as usize + GROUP_BYTES * i, out);
    }
}

/// Clears the needless flags of all key records of a group, if the group uses keys.
fn plain_group(bytes: &[u8], place: usize, out: &mut [u8])
    requires { place < 2 ^ 61 }
    ensures { out.new ≡ plain_group bytes.now place out.old }
{
    if word_at(bytes, place + GROUP_USING_KEYS_AT) == 0 {
        return;
    }
    let records = word_at(bytes, place + GROUP_RULES_AT);
    let count = word_at(bytes, place + GROUP_RULE_COUNT_AT);
    plain_records(bytes, records, count, out);
}

/// Clears the needless flags of `count` key records.
fn plain_records(bytes: &[u8], place: u32, count: u32, out: &mut [u8])
    ensures { out.new ≡ plain_records bytes.now place count out.old }
{
    for i in 0..count as usize {
        plain_record(bytes, place as usize + RULE_BYTES * i, out);
    }
}

/// Clears the needless flags of a key record.
fn plain_record(bytes: &[u8], place: usize, out: &mut [u8])
    requires { place < 2 ^ 61 }
    ensures { out.new ≡ plain_record bytes.now place out.old }
{
    let flags = word_at(bytes, place + RULE_FLAGS_AT);
    put_word(out, place + RULE_FLAGS_AT, plain_flags(flags));
}
