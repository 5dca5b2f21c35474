//! The place of a refusal of bytes that are not UTF-8.

ghost use Rattle.std.specs.Prelude.{◌≡◌, ◌+◌, ◌≤◌, length};
ghost use Rattle.kmn_base.specs.declared.limits.TheConstants.{TEXT_BYTES};
ghost use Rattle.refusal_places.specs.Bytes.{behind_bytes, ends_another, line_after, line_behind};

use crate::columns::column_behind;
use crate::placed_refusal::Placed;
use kmn_base::Refusal;
use kmn_base::slices::before;

/// Returns a refusal of a source with its place: the byte after this many bytes, which are UTF-8.
pub fn behind_bytes(source: &[u8], size: usize, refusal: Refusal) -> Placed
    requires { length source.now ≤ TEXT_BYTES }
    ensures { result ≡ behind_bytes source.now size refusal }
{
    let text = before(source, size);
    Placed {
        line: line_behind(text),
        column: column_behind(text),
        code: refusal.code,
    }
}

/// Returns the number of the line after a text.
fn line_behind(text: &[u8]) -> u32
    requires { length text.now ≤ TEXT_BYTES }
    ensures { result ≡ line_behind text.now }
{
    let mut line = 1;
    let mut previous = 0;
    for byte in text {
        line = line_after(line, previous, *byte);
        previous = *byte;
    }
    line
}

/// Returns the number of the line after a byte, given the number of the line before it and the byte before it.
fn line_after(line: u32, previous: u8, byte: u8) -> u32
    requires { line ≤ TEXT_BYTES }
    ensures is { result ≡ line_after line previous byte }
    ensures within { result ≤ line + 1 }
{
    if ends_another(previous, byte) {
        line + 1
    } else {
        line
    }
}

/// Returns whether a byte after another one ends a line.
#[tactic(auto, unfolding(crate::specs::Bytes::ends_another))]
fn ends_another(previous: u8, byte: u8) -> bool
    ensures { result ≡ ends_another previous byte }
{
    byte == b'\r' || (byte == b'\n' && !(previous == b'\r'))
}
