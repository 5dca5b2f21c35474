//! Checks strings and names.

ghost use Rattle.std.specs.Prelude.{◌≡◌, ◌+◌, ◌≤◌, ◌<◌, [], length, true, not, nat_lt, None, Some, MatchResult, MatchOption, false};
ghost use Rattle.kmn_base.specs.declared.limits.TheConstants.{FILE_BYTES, OUTPUT_ITEMS, ALL_ELEMENTS};
ghost use Rattle.kmx_format.specs.TablesOf.{word_at, string_at};
ghost use Rattle.kmx_verifier.specs.declared.faults.StringKind.TheVariants.{Store};
ghost use Rattle.kmx_view.specs.View.{is_ended};
ghost use Rattle.item_codec.specs.Walk.{results_of, items_given};
ghost use Rattle.kmx_verifier.specs.FaultOf.{walk_fault, read_fault, read_at, item_count, name_fault, string_fault, too_many_elements, Tells};

use crate::faults::{Fault, StringKind, Target};
use crate::items::{check_item, spelled_size, spelling_fault};
use item_codec::items_of;
use kmn_base::Code;
use kmn_base::limits::{ALL_ELEMENTS, FILE_NAME_UNITS, OUTPUT_ITEMS, STORE_ELEMENTS};
use kmx_view::{ended_string, word_at};

/// Checks the items of a string whose first unit is at byte offset `at`, and returns their number.
pub(crate) fn walk(
    bytes: &[u8],
    kind: StringKind,
    targets: &[Target],
    at: u32,
    string: &[u8],
) -> Result<usize, Fault>
    requires within { at + length string.now ≤ FILE_BYTES }
    ensures { MatchResult result
        (λ count. (walk_fault bytes.now kind targets.now at (results_of string.now) ≡ None) × (count ≡ length (items_given (results_of string.now))))
        (λ fault. walk_fault bytes.now kind targets.now at (results_of string.now) ≡ Some fault) }
{
    let mut place = at;
    let mut count = 0;
    for read in items_of(string) {
        match read {
            Ok(item) => {
                check_item(bytes, kind, targets, item, place)?;
                place += spelled_size(item);
                count += 1;
            }
            Err(bad) => {
                return Err(spelling_fault(place, bad.kind, bad.code));
            }
        }
    }
    Ok(count)
}

/// Checks the name whose offset is stored at `place`.
pub(crate) fn check_name(bytes: &[u8], place: usize) -> Result<(), Fault>
    requires place { place < FILE_BYTES }
    ensures { Tells (name_fault bytes.now place) result }
{
    match unit_count(bytes, word_at(bytes, place)) {
        None => Err(Fault::of(Code::V10, place as u32)),
        Some(count) => {
            if count > FILE_NAME_UNITS {
                return Err(Fault::of(Code::V15, place as u32));
            }
            Ok(())
        }
    }
}

#[tactic(auto, using(crate::proofs::Walking::string_halved))]
/// Returns the number of units of the string at an offset, or `None` if the string is outside the file or has no zero unit.
fn unit_count(bytes: &[u8], offset: u32) -> Option<usize>
    ensures { MatchOption result
        (is_ended bytes.now offset ≡ false)
        (λ count. (is_ended bytes.now offset ≡ true) × (count ≡ length (string_at bytes.now offset))) }
{
    match ended_string(bytes, offset) {
        None => None,
        Some(string) => Some(string.len() / 2),
    }
}

/// Checks the output whose offset is stored at `place`. Its offsets point into the context that has these `targets`.
pub(crate) fn check_output(
    bytes: &[u8],
    kind: StringKind,
    targets: &[Target],
    place: usize,
) -> Result<(), Fault>
    requires fits { length bytes.now ≤ FILE_BYTES }
    requires place { place < FILE_BYTES }
    ensures { Tells (string_fault bytes.now kind targets.now place (nat_lt OUTPUT_ITEMS)) result }
{
    let count = read_string(bytes, kind, targets, place)?;
    if count > OUTPUT_ITEMS {
        return Err(Fault::of(Code::V15, place as u32));
    }
    Ok(())
}

#[tactic(auto, unfolding(kmx_format::specs::TablesOf::items_of))]
/// Checks the items of the string whose offset is stored at `place`, and returns their number.
fn read_string(
    bytes: &[u8],
    kind: StringKind,
    targets: &[Target],
    place: usize,
) -> Result<usize, Fault>
    requires fits { length bytes.now ≤ FILE_BYTES }
    requires place { place < FILE_BYTES }
    ensures { MatchResult result
        (λ count. (read_fault bytes.now kind targets.now place ≡ None) × (count ≡ item_count bytes.now (word_at bytes.now place)))
        (λ fault. read_fault bytes.now kind targets.now place ≡ Some fault) }
{
    let offset = word_at(bytes, place);
    match ended_string(bytes, offset) {
        None => Err(Fault::of(Code::V10, place as u32)),
        Some(string) => walk(bytes, kind, targets, offset, string),
    }
}

/// Checks the content of a store after `before` elements of earlier stores, and returns the number of elements so far.
pub(crate) fn check_content(bytes: &[u8], before: usize, place: usize) -> Result<usize, Fault>
    requires fits { length bytes.now ≤ FILE_BYTES }
    requires place { place < FILE_BYTES }
    requires before { before ≤ ALL_ELEMENTS }
    ensures { MatchResult result
        (λ count. (string_fault bytes.now Store [] place (too_many_elements before) ≡ None) × (count ≡ before + item_count bytes.now (word_at bytes.now place)) × (count ≤ ALL_ELEMENTS))
        (λ fault. string_fault bytes.now Store [] place (too_many_elements before) ≡ Some fault) }
{
    let count = read_string(bytes, StringKind::Store, &[], place)?;
    if count > STORE_ELEMENTS || count > ALL_ELEMENTS - before {
        return Err(Fault::of(Code::V15, place as u32));
    }
    Ok(before + count)
}
