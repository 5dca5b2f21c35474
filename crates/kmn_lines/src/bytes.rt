//! Bytes of a text by position, and blank texts.

ghost use Rattle.std.specs.Prelude.{◌≡◌, drop};
ghost use Rattle.std.specs.List.{list_all};
ghost use Rattle.kmn_base.specs.Bytes.{is_blank};
ghost use Rattle.kmn_lines.specs.Bytes.{first_or_end};

use kmn_base::bytes::is_blank;

/// Returns the byte at a position. At and past the end it returns LF, which ends a line as the text's end does.
pub fn byte_or_end(text: &[u8], at: usize) -> u8
    ensures { result ≡ first_or_end (drop at text.now) }
{
    text.get(at).copied().unwrap_or(b'\n')
}

/// Returns whether a text has only blanks.
pub(crate) fn is_all_blank(text: &[u8]) -> bool
    ensures { result ≡ list_all is_blank text.now }
{
    text.iter().all(|byte| is_blank(*byte))
}
