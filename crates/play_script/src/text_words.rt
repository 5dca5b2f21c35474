//! Iterates over the words of a text.

ghost use Rattle.std.specs.Prelude.{◌≡◌};
ghost use Rattle.std.specs.Iterator.{YieldsFirstBy, item_count};
ghost use Rattle.play_script.specs.Words.{words};
ghost use Rattle.play_script.specs.WordsLeft.{words_left};

use crate::words::{without_blanks, word_length};
use kmn_base::slices::behind;

/// An iterator over the words of a text.
#[derive(Clone, Copy)]
pub struct TextWords<'a> {
    rest: &'a [u8],
}

/// Returns an iterator over the words of a text.
pub fn words(text: &[u8]) -> TextWords<'_>
    ensures { words_left result ≡ words text.now }
{
    TextWords { rest: text }
}

impl<'a> Iterator for TextWords<'a> {
    type Item = &'a [u8];

    ghost next_gives = { YieldsFirstBy (λ word. word.now) words_left };

    ghost remaining = { item_count words_left };

    #[tactic(auto, using(crate::proofs::SplitLaws::word_steps))]
    fn next(&mut self) -> Option<&'a [u8]> {
        let text = without_blanks(self.rest);
        if text.is_empty() {
            return None;
        }
        let end = word_length(text);
        self.rest = behind(text, end);
        Some(&text[..end])
    }
}
