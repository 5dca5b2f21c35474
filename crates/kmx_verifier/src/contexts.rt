//! Checks the key records of a file and their contexts.

ghost use Rattle.std.specs.Prelude.{◌≡◌, ◌+◌, ◌*◌, ◌⊎◌, ◌≤◌, ◌<◌, [], ◌∷◌, ◌++◌, List, map, length, None, Some, MatchResult};
ghost use Rattle.kmn_base.specs.declared.limits.TheConstants.{FILE_BYTES};
ghost use Rattle.kmx_format.specs.declared.places.TheConstants.{RULE_CONTEXT_AT};
ghost use Rattle.kmx_format.specs.declared.sizes.TheConstants.{RULE_BYTES};
ghost use Rattle.kmx_format.specs.TablesOf.{word_at};
ghost use Rattle.item_codec.specs.Walk.{results_of, items_given};
ghost use Rattle.kmx_verifier.specs.declared.contexts.TheConstants.{OFFSET_REACH};
ghost use Rattle.kmx_verifier.specs.declared.faults.Target.{Target};
ghost use Rattle.kmx_verifier.specs.declared.faults.StringKind.TheVariants.{Context};
ghost use Rattle.kmx_verifier.specs.Items.{target_of, reached};
ghost use Rattle.kmx_verifier.specs.FaultOf.{item_fault, context_fault, read_context_fault, context_string_fault, context_targets, flags_fault, record_fault, records_fault, Tells, ReportsFault};

use crate::faults::{Fault, StringKind, Target, VerifyError};
use crate::items::{check_item, offset_is_unit, spelled_size, spelling_fault, target_of};
use crate::strings::check_output;
use item_codec::item_codes::KEY;
use item_codec::items_of;
use kmn_base::limits::CONTEXT_ITEMS;
use kmn_base::{Code, SHIFT_FLAGS, UnitItem};
use kmx_format::places::{RULE_CONTEXT_AT, RULE_FLAGS_AT, RULE_OUTPUT_AT};
use kmx_format::sizes::RULE_BYTES;
use kmx_view::{ended_string, word_at};

/// The number of context items that offsets can reach: an offset is one unit and counts from 1.
const OFFSET_REACH: usize = 65_535;

/// Checks the items of a context whose first unit is at byte offset `at`, and sets `targets` to what offsets can point at in it.
pub(crate) fn walk_context(
    bytes: &[u8],
    at: u32,
    string: &[u8],
    targets: &mut Vec<Target>,
) -> Result<(), VerifyError>
    requires within { at + length string.now ≤ FILE_BYTES }
    ensures { ReportsFault (context_fault bytes.now [] at (results_of string.now)) (targets.new.items ≡ reached (map target_of (items_given (results_of string.now)))) result }
{
    targets.clear();
    let mut place = at;
    for read in items_of(string) {
        match read {
            Ok(item) => {
                check_context_item(bytes, targets, item, place)?;
                place += spelled_size(item);
                add_target(targets, item)?;
            }
            Err(bad) => {
                let fault = spelling_fault(place, bad.kind, bad.code);
                return Err(VerifyError::Refused(fault));
            }
        }
    }
    Ok(())
}

/// Checks an item of a context at a place. `targets` has the targets of the items before it, as far as offsets reach.
fn check_context_item(
    bytes: &[u8],
    targets: &[Target],
    item: UnitItem,
    at: u32,
) -> Result<(), VerifyError>
    ensures { (before : List Target) → targets.now ≡ reached before → ReportsFault (item_fault bytes.now Context before item at) (Unit {0}) result }
{
    offset_is_unit(item);
    Ok(check_item(bytes, StringKind::Context, targets, item, at)?)
}

/// Appends the target of an item, unless offsets do not reach it.
///
/// Errors: `Memory` if an allocation fails.
#[tactic(auto, using(crate::proofs::Reach::reached_all, crate::proofs::Reach::reached_full))]
fn add_target(targets: &mut Vec<Target>, item: UnitItem) -> Result<(), VerifyError>
    requires { length targets.old.items ≤ OFFSET_REACH }
    ensures { MatchResult result
        (λ _. targets.new.items ≡ reached (targets.old.items ++ target_of item ∷ []))
        (λ error. error ≡ VerifyError.Memory) }
{
    if targets.len() == OFFSET_REACH {
        return Ok(());
    }
    targets
        .push(target_of(item))
        .map_err(|_| VerifyError::Memory)
}

/// Checks the key record at `place`, and sets `targets` to what offsets can point at in its context.
pub(crate) fn check_record(
    bytes: &[u8],
    using_keys: bool,
    place: usize,
    targets: &mut Vec<Target>,
) -> Result<(), VerifyError>
    requires fits { length bytes.now ≤ FILE_BYTES }
    requires place { place + RULE_BYTES ≤ FILE_BYTES }
    ensures { ReportsFault (record_fault bytes.now using_keys place) (targets.new.items ≡ context_targets bytes.now (word_at bytes.now (place + RULE_CONTEXT_AT))) result }
{
    check_flags(bytes, using_keys, place + RULE_FLAGS_AT)?;
    check_context(bytes, place + RULE_CONTEXT_AT, targets)?;
    Ok(check_output(bytes, StringKind::Output, targets, place + RULE_OUTPUT_AT)?)
}

/// Checks the shift flags of a key record.
fn check_flags(bytes: &[u8], using_keys: bool, place: usize) -> Result<(), Fault>
    requires place { place < FILE_BYTES }
    ensures { Tells (flags_fault bytes.now using_keys place) result }
{
    let flags = word_at(bytes, place);
    if using_keys && flags & u32::from(SHIFT_FLAGS) != flags {
        return Err(Fault {
            code: Code::V14,
            at: place as u32,
            unit: KEY,
        });
    }
    Ok(())
}

/// Checks the context whose offset is stored at `place` and its number of items, and sets `targets` to the targets of its items.
#[tactic(auto, using(crate::proofs::Reach::few_reached, crate::proofs::Reach::many_reached))]
fn check_context(bytes: &[u8], place: usize, targets: &mut Vec<Target>) -> Result<(), VerifyError>
    requires fits { length bytes.now ≤ FILE_BYTES }
    requires place { place < FILE_BYTES }
    ensures { ReportsFault (context_string_fault bytes.now place) (targets.new.items ≡ context_targets bytes.now (word_at bytes.now place)) result }
{
    read_context(bytes, place, targets)?;
    if targets.len() > CONTEXT_ITEMS {
        return Err(VerifyError::Refused(Fault::of(Code::V15, place as u32)));
    }
    Ok(())
}

/// Checks the items of the context whose offset is stored at `place`, and sets `targets` to what offsets can point at in it.
#[tactic(auto, unfolding(kmx_format::specs::TablesOf::items_of))]
fn read_context(bytes: &[u8], place: usize, targets: &mut Vec<Target>) -> Result<(), VerifyError>
    requires fits { length bytes.now ≤ FILE_BYTES }
    requires place { place < FILE_BYTES }
    ensures { ReportsFault (read_context_fault bytes.now place) (targets.new.items ≡ reached (context_targets bytes.now (word_at bytes.now place))) result }
{
    let offset = word_at(bytes, place);
    match ended_string(bytes, offset) {
        None => Err(VerifyError::Refused(Fault::of(Code::V10, place as u32))),
        Some(string) => walk_context(bytes, offset, string, targets),
    }
}

/// Checks the key records of a group. `targets` is scratch space: its previous content is not read, and callers ignore what it
/// contains afterwards.
pub(crate) fn check_records(
    bytes: &[u8],
    using_keys: bool,
    place: u32,
    count: u32,
    targets: &mut Vec<Target>,
) -> Result<(), VerifyError>
    requires fits { length bytes.now ≤ FILE_BYTES }
    requires stand { (count ≡ 0) ⊎ (place + RULE_BYTES * count ≤ FILE_BYTES) }
    ensures { ReportsFault (records_fault bytes.now using_keys place count) (Unit {0}) result }
{
    for i in 0..count as usize {
        check_record(bytes, using_keys, place as usize + RULE_BYTES * i, targets)?;
    }
    Ok(())
}
