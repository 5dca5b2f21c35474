//! Replacement of words in place.

ghost use Rattle.std.specs.Prelude.{◌≡◌, ◌<◌, ◌^◌};
ghost use Rattle.file_conversions.specs.Words.{with_word};

/// Writes a number into the four bytes at a place. If the bytes do not contain all four, does not change them.
#[tactic(auto, unfolding(crate::specs::Words::with_word, kmx_format::specs::File::word))]
pub fn put_word(out: &mut [u8], place: usize, number: u32)
    requires { place < 2 ^ 62 }
    ensures { out.new ≡ with_word place number out.old }
{
    if place + 4 <= out.len() {
        out[place..place + 4].copy_from_slice(&number.to_le_bytes());
    }
}
