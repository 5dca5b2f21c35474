//! Whether new bytes can replace a line: as many lines end in them, and they begin and end with the same ones.

ghost use Rattle.std.specs.Prelude.{◌≡◌, ◌≤◌, length};
ghost use Rattle.kmn_base.specs.declared.limits.TheConstants.{TEXT_BYTES};
ghost use Rattle.kmn_lines.specs.Laws.{last_or};
ghost use Rattle.kmn_lines.specs.Lines.{ends_line, physical_lines_at};
ghost use Rattle.kmn_lines.specs.Places.{IsPlaced};
ghost use Rattle.kmn_lines.specs.Walks.{physical_lines_left};
ghost use Rattle.import_lines.specs.Written.{begins_lf, ends_cr, inner_ends, ends_whole, ends_joined, is_empty, has_same_ends, has_same_line_ends, can_replace, line_bytes};

use kmn_base::limits::TEXT_BYTES;
use kmn_base::slices::{before, behind};
use kmn_lines::{Logical, PhysicalLines, physical_lines};
use std::str;

/// Returns whether new bytes can replace a logical line of this source.
pub(crate) fn can_replace(source: &str, logical: Logical, new: &[u8]) -> bool
    requires few { length source.now ≤ TEXT_BYTES }
    requires placed { IsPlaced source.now logical }
    ensures { result ≡ can_replace (line_bytes source.now logical) new.now }
{
    if new.len() > TEXT_BYTES {
        return false;
    }
    match str::from_utf8(new) {
        Ok(text) => has_same_line_ends(source, logical, text),
        Err(_) => false,
    }
}

/// Returns the bytes of a logical line.
pub(crate) fn line_bytes(source: &[u8], logical: Logical) -> &[u8]
    ensures { result.now ≡ line_bytes source.now logical }
{
    behind(before(source, logical.to as usize), logical.from as usize)
}

/// Returns whether as many lines end in a text as in a logical line of this source, and both begin and end with the same ones.
fn has_same_line_ends(source: &str, logical: Logical, new: &str) -> bool
    requires few { length source.now ≤ TEXT_BYTES }
    requires placed { IsPlaced source.now logical }
    requires new { length new.now ≤ TEXT_BYTES }
    ensures { result ≡ has_same_line_ends (line_bytes source.now logical) new.now }
{
    has_same_ends(
        line_bytes(source.as_bytes(), logical),
        new.as_bytes(),
        is_line_joined(source, logical),
        is_text_joined(new),
    )
}

/// Returns whether as many lines end in bytes as in others, and both begin and end with the same ones, given whether a backslash
/// joins each with the next line.
fn has_same_ends(old: &[u8], new: &[u8], old_joined: bool, new_joined: bool) -> bool
    ensures { result ≡ has_same_ends old.now new.now old_joined new_joined }
{
    if inner_ends(new) != inner_ends(old) {
        return false;
    }
    if begins_lf(new) != begins_lf(old) {
        return false;
    }
    if ends_cr(new) != ends_cr(old) {
        return false;
    }
    if is_empty(new) != is_empty(old) {
        return false;
    }
    if ends_whole(new) != ends_whole(old) {
        return false;
    }
    new_joined == old_joined
}

/// Returns whether there is no byte.
fn is_empty(bytes: &[u8]) -> bool
    ensures { result ≡ is_empty bytes.now }
{
    match bytes {
        [] => true,
        _ => false,
    }
}

/// Returns whether bytes begin with an LF.
fn begins_lf(bytes: &[u8]) -> bool
    ensures { result ≡ begins_lf bytes.now }
{
    match bytes {
        [first, ..] => *first == b'\n',
        [] => false,
    }
}

/// Returns whether bytes end with a CR.
fn ends_cr(bytes: &[u8]) -> bool
    ensures { result ≡ ends_cr bytes.now }
{
    let mut is_cr = false;
    for byte in bytes {
        is_cr = *byte == b'\r';
    }
    is_cr
}

/// Returns whether bytes end with a line end.
fn ends_whole(bytes: &[u8]) -> bool
    ensures { result ≡ ends_whole bytes.now }
{
    ends_cr(bytes) || last_byte(bytes) == b'\n'
}

/// Returns the last of bytes, or 0 if there is none.
fn last_byte(bytes: &[u8]) -> u8
    ensures { result ≡ last_or 0 bytes.now }
{
    let mut last = 0;
    for byte in bytes {
        last = *byte;
    }
    last
}

/// Returns the number of lines that end in bytes, without a CR at their end.
fn inner_ends(bytes: &[u8]) -> usize
    ensures { result ≡ inner_ends bytes.now }
{
    let mut count = 0;
    let mut rest = bytes;
    while let [first, second, ..] = rest {
        count += usize::from(ends_line(*first, *second));
        rest = behind(rest, 1);
    }
    match rest {
        [b'\n', ..] => count + 1,
        _ => count,
    }
}

/// Returns whether a byte ends its line, given the next byte.
fn ends_line(byte: u8, next: u8) -> bool
    ensures { result ≡ ends_line byte next }
{
    byte == b'\n' || (byte == b'\r' && next != b'\n')
}

/// Returns whether a backslash joins a text with the next line.
fn is_text_joined(text: &str) -> bool
    requires { length text.now ≤ TEXT_BYTES }
    ensures { result ≡ ends_joined (physical_lines_at 1 0 text.now) }
{
    let all = Logical {
        first_line: 1,
        from: 0,
        to: text.len() as u32,
    };
    ends_joined(physical_lines(text, all))
}

/// Returns whether a backslash joins a logical line of this source with the next line.
#[tactic(auto, using(crate::proofs::LineEnds::joined_alone))]
fn is_line_joined(source: &str, logical: Logical) -> bool
    requires few { length source.now ≤ TEXT_BYTES }
    requires placed { IsPlaced source.now logical }
    ensures { result ≡ ends_joined (physical_lines_at 1 0 (line_bytes source.now logical)) }
{
    ends_joined(physical_lines(source, logical))
}

/// Returns whether a backslash joins physical lines with the next line.
fn ends_joined(walk: PhysicalLines<'_>) -> bool
    ensures { result ≡ ends_joined (physical_lines_left walk.entry) }
{
    let mut joined = false;
    for physical in walk {
        joined = physical.joined;
    }
    joined
}
