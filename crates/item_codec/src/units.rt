//! Units at the beginning of bytes, and at the end of a list of bytes.

ghost use Rattle.std.specs.Prelude.{◌≡◌, ◌<◌, ◌≤◌, ◌∷◌, [], ◌++◌, length, MatchOption, MatchResult};
ghost use Rattle.kmn_base.specs.Spelling.{unit_bytes};

use kmn_base::{Memory, Seq};

/// The last operand of a virtual key.
pub(crate) const KEY_END: u16 = 0x10;

/// The greatest number of units of an item.
pub(crate) const MOST_UNITS: usize = 5;

/// Returns the first unit and the bytes after it, or None if there are fewer than two bytes.
#[tactic(auto, using(kmn_base::proofs::UnitBytes::unit_bytes_joined))]
pub(crate) fn first_unit(bytes: &[u8]) -> Option<(u16, &[u8])>
    ensures { MatchOption result (length bytes.now < 2) (λ first. bytes.now ≡ unit_bytes (first.0 ∷ []) ++ first.1.now) }
{
    let [low, high, behind @ ..] = bytes else {
        return None;
    };
    Some((u16::from_le_bytes([*low, *high]), behind))
}

/// Returns the first two units and the bytes after them, or None if there are fewer than four bytes.
#[tactic(auto, using(kmn_base::proofs::UnitBytes::unit_bytes_joined))]
pub(crate) fn first_two_units(bytes: &[u8]) -> Option<((u16, u16), &[u8])>
    ensures { MatchOption result (length bytes.now < 4) (λ first. bytes.now ≡ unit_bytes (first.0.0 ∷ first.0.1 ∷ []) ++ first.1.now) }
{
    let (first, behind) = first_unit(bytes)?;
    let (second, behind) = first_unit(behind)?;
    Some(((first, second), behind))
}

/// Appends units. Errors: `Memory` if an allocation fails; the list is then unchanged.
pub(crate) fn put_units(out: &mut Seq<u8>, units: &[u16]) -> Result<(), Memory>
    requires { length units.now ≤ MOST_UNITS }
    ensures { MatchResult result (λ _. out.new ≡ out.old ++ unit_bytes units.now) (λ _. out.new ≡ out.old) }
{
    let mut bytes = [0; 2 * MOST_UNITS];
    for i in 0..units.len() {
        let [low, high] = units[i].to_le_bytes();
        bytes[2 * i] = low;
        bytes[2 * i + 1] = high;
    }
    out.extend_from_slice(&bytes[..2 * units.len()])
}
