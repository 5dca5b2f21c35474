//! The number of a line that has a fault.

ghost use Rattle.std.specs.Prelude.{◌≡◌, ◌≤◌, length};
ghost use Rattle.kmn_base.specs.declared.limits.TheConstants.{TEXT_BYTES};
ghost use Rattle.kmn_lines.specs.Lines.{parts_in};
ghost use Rattle.kmn_lines.specs.Places.{IsPlaced};
ghost use Rattle.refusal_details.specs.Faulty.{fault_text, number_text, spot_text};

use kmn_base::slices::{before, behind};
use kmn_lines::{Logical, parts};
use kmn_tokens::word_size;
use refusal_places::{Spot, faulty_spot};

/// Returns the text of the first token of a logical line that has a fault, if it is a number. The text is empty if no token has one.
#[tactic(auto, unfolding(crate::specs::Faulty::fault_text))]
pub(crate) fn fault_text(source: &str, logical: Logical) -> &[u8]
    requires few { length source.now ≤ TEXT_BYTES }
    requires placed { IsPlaced source.now logical }
    ensures { result.now ≡ fault_text source.now logical }
{
    match faulty_spot(source, logical) {
        Some(spot) => spot_text(source, logical, spot),
        None => &[],
    }
}

/// Returns the text of the number at a spot of a logical line.
fn spot_text(source: &str, logical: Logical, spot: Spot) -> &[u8]
    requires few { length source.now ≤ TEXT_BYTES }
    requires placed { IsPlaced source.now logical }
    ensures { result.now ≡ spot_text source.now spot (parts_in source.now logical) }
{
    let source_bytes = source.as_bytes();
    for part in parts(source, logical) {
        let bytes = before(source_bytes, part.to as usize);
        if part.line == spot.line {
            return number_text(behind(bytes, spot.at));
        }
    }
    &[]
}

/// Returns the text of the number at the beginning of bytes: two bytes, and the word after them.
#[tactic(auto, unfolding(crate::specs::Faulty::number_text))]
fn number_text(bytes: &[u8]) -> &[u8]
    ensures { result.now ≡ number_text bytes.now }
{
    before(bytes, 2 + word_size(behind(bytes, 2)))
}
