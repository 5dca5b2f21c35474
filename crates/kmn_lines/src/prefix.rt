//! The words before the text of a logical line that are dropped, or with which the line is skipped.

ghost use Rattle.std.specs.Prelude.{◌≡◌, ◌+◌, ◌≤◌, length};
ghost use Rattle.kmn_lines.specs.Lines.{blanks, begins_with, begins_other, is_skipped, dropped};

use kmn_base::bytes::is_blank;
use kmn_base::names::same_name;
use kmn_base::slices::{before, behind};

/// Returns whether a line with this text is skipped.
#[tactic(auto, unfolding(crate::specs::Lines::is_skipped))]
pub(crate) fn is_skipped(text: &[u8]) -> bool
    ensures { result ≡ is_skipped text.now }
{
    begins_other(behind(text, blanks(text)))
}

/// Returns whether the words at the beginning of a line are skipped.
fn begins_other(words: &[u8]) -> bool
    ensures { result ≡ begins_other words.now }
{
    begins_with(words, b"$keymanweb:") || begins_with(words, b"$kmfl:")
}

/// Returns whether a text begins with a word, without ASCII case.
fn begins_with(text: &[u8], word: &[u8]) -> bool
    ensures { result ≡ begins_with text.now word.now }
{
    same_name(before(text, word.len()), word)
}

/// Returns the number of blanks at the beginning of a text.
fn blanks(text: &[u8]) -> usize
    ensures is { result ≡ blanks text.now }
    ensures within { result ≤ length text.now }
{
    let mut count = 0;
    while count < text.len() && is_blank(text[count]) {
        count += 1;
    }
    count
}

/// Returns the number of bytes of a text that are dropped before it is read: its blanks and a `$keyman:` or `$keymanonly:` after
/// them, or 0.
#[tactic(auto, unfolding(crate::specs::Lines::dropped))]
pub fn dropped(text: &[u8]) -> usize
    ensures is { result ≡ dropped text.now }
    ensures few { result ≤ length text.now + 12 }
{
    let count = blanks(text);
    let words = behind(text, count);
    if begins_with(words, b"$keyman:") {
        count + 8
    } else if begins_with(words, b"$keymanonly:") {
        count + 12
    } else {
        0
    }
}
