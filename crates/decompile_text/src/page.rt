//! A page: the text that is being written, or only its size.

ghost use Rattle.std.specs.Prelude.{◌≡◌, ◌+◌, List, ℕ, false, length, IfOk, OnOk};
ghost use Rattle.std.specs.Fmt.{decimal};
ghost use Rattle.decompile_text.specs.Pages.{with_text, IsEmptyPage};

use kmn_base::{Memory, Seq, Text};
use std::alloc::Global;

/// A text and its size in bytes. A page that does not keep its text only counts the size, and its text stays empty.
#[derive(Drop)]
pub(crate) struct Page {
    pub(crate) alloc: Global,
    pub(crate) keeps_text: bool,
    pub(crate) text: Text,
    pub(crate) size: u64,
}

/// Returns the sum of a size and `more` bytes. Fails with `Memory` if the sum does not fit in the type.
fn larger(size: u64, more: u64) -> Result<u64, Memory>
    ensures { IfOk result (λ sum. sum ≡ size + more) }
{
    size.checked_add(more).ok_or(Memory)
}

/// Returns the number of decimal digits of a number.
fn digit_count(number: u32) -> u64
    ensures { result ≡ length (decimal number) }
{
    let mut rest = number;
    let mut count = 1;
    while 10 <= rest {
        rest /= 10;
        count += 1;
    }
    count
}

impl Page {
    /// Creates a page with an empty text. It keeps what is appended, or only counts it.
    pub(crate) fn new(alloc: Global, keeps_text: bool) -> Page
        ensures empty { IsEmptyPage result }
        ensures kept { result.keeps_text ≡ keeps_text }
    {
        Page {
            alloc,
            keeps_text,
            text: Seq::new(alloc),
            size: 0,
        }
    }

    /// Appends bytes.
    #[tactic(auto, unfolding(crate::specs::Pages::with_text))]
    pub(crate) fn put(&mut self, bytes: &[u8]) -> Result<(), Memory>
        ensures { OnOk result (self.new ≡ with_text self.old bytes.now) }
    {
        if bytes.is_empty() {
            return Ok(());
        }
        self.size = larger(self.size, bytes.len() as u64)?;
        if self.keeps_text {
            self.text.extend_from_slice(bytes)
        } else {
            Ok(())
        }
    }

    /// Appends a text of this size to a page that does not keep its text.
    #[tactic(auto, using(crate::proofs::MoreText::counted))]
    pub(crate) fn count(&mut self, size: u64) -> Result<(), Memory>
        requires { self.old.keeps_text ≡ false }
        ensures { OnOk result ((text : List ℕ) → length text ≡ size → self.new ≡ with_text self.old text) }
    {
        self.size = larger(self.size, size)?;
        Ok(())
    }

    /// Appends a number in decimal digits.
    pub(crate) fn put_number(&mut self, number: u32) -> Result<(), Memory>
        ensures { OnOk result (self.new ≡ with_text self.old (decimal number)) }
    {
        if !self.keeps_text {
            return self.count(digit_count(number));
        }
        let digits = format!(in self.alloc; "{number}")?;
        self.put(digits.as_bytes())
    }
}
