//! The strings of a file, each with bytes up to a zero unit.

ghost use Rattle.std.specs.Prelude.{◌≡◌, ◌≤◌, ◌+◌, ◌⊎◌, length, true, false, MatchOption};
ghost use Rattle.kmn_base.specs.Spelling.{unit_bytes, whole_units};
ghost use Rattle.kmx_format.specs.TablesOf.{before_zero, string_at};
ghost use Rattle.kmx_view.specs.View.{is_ended};

use kmn_base::slices::behind;

/// Returns the bytes of the string at an offset, without its zero unit. Offset 0 is the empty string. A string without a zero
/// unit ends at the last whole unit.
#[tactic(auto, unfolding(kmx_format::specs::TablesOf::string_at))]
pub fn string_bytes(bytes: &[u8], offset: u32) -> &[u8]
    ensures units { result.now ≡ unit_bytes (string_at bytes.now offset) }
    ensures within { length result.now ≤ length bytes.now }
    ensures place { (length result.now ≡ 0) ⊎ (offset + length result.now ≤ length bytes.now) }
{
    if offset == 0 {
        return &[];
    }
    bytes_before_zero(behind(bytes, offset as usize))
}

/// Returns the bytes before the first zero unit.
fn bytes_before_zero(bytes: &[u8]) -> &[u8]
    ensures units { result.now ≡ unit_bytes (before_zero (whole_units bytes.now)) }
    ensures within { length result.now ≤ length bytes.now }
{
    let mut rest = bytes;
    while let [low, high, behind @ ..] = rest {
        if u16::from_le_bytes([*low, *high]) == 0 {
            break;
        }
        rest = behind;
    }
    &bytes[..bytes.len() - rest.len()]
}

/// Returns the bytes of the string at an offset, without its zero unit. Offset 0 is the empty string. Returns None exactly when
/// no zero unit ends the string in the file.
#[tactic(auto, using(crate::proofs::Ends::ended_where_it_fits, crate::proofs::Ends::unended), unfolding(kmx_format::specs::TablesOf::string_at))]
pub fn ended_string(bytes: &[u8], offset: u32) -> Option<&[u8]>
    ensures { MatchOption result
        (is_ended bytes.now offset ≡ false)
        (λ string. (is_ended bytes.now offset ≡ true) × (string.now ≡ unit_bytes (string_at bytes.now offset)) × (offset + length string.now ≤ length bytes.now)) }
{
    if offset == 0 {
        return Some(&[]);
    }
    let string = string_bytes(bytes, offset);
    if offset as usize + string.len() + 2 > bytes.len() {
        return None;
    }
    Some(string)
}
