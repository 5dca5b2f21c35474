//! The columns of a line, which count characters.

ghost use Rattle.std.specs.Prelude.{◌≡◌, ◌+◌, ◌≤◌, length};
ghost use Rattle.kmn_base.specs.declared.limits.TheConstants.{TEXT_BYTES};
ghost use Rattle.refusal_places.specs.Columns.{column_after, column_behind, continues, ends_line};

/// Returns the column behind a text in UTF-8 that begins a line.
pub(crate) fn column_behind(text: &[u8]) -> usize
    requires { length text.now ≤ TEXT_BYTES }
    ensures { result ≡ column_behind text.now }
{
    let mut column = 1;
    for byte in text {
        column = column_after(column, *byte);
    }
    column
}

/// Returns the column after a byte, given the column before it.
fn column_after(column: usize, byte: u8) -> usize
    requires { column ≤ TEXT_BYTES }
    ensures is { result ≡ column_after column byte }
    ensures within { result ≤ column + 1 }
{
    if ends_line(byte) {
        1
    } else if continues(byte) {
        column
    } else {
        column + 1
    }
}

/// Returns whether a byte is a line end, or one of its two bytes.
fn ends_line(byte: u8) -> bool
    ensures { result ≡ ends_line byte }
{
    byte == b'\n' || byte == b'\r'
}

/// Returns whether a byte continues a character.
fn continues(byte: u8) -> bool
    ensures { result ≡ continues byte }
{
    0x80 <= byte && byte <= 0xBF
}
