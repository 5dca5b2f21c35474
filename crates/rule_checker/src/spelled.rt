//! Counts the characters of a UTF-8 text in 32 bits. The first byte of each character determines how many bytes follow it.

ghost use Rattle.std.specs.Prelude.{◌≡◌, length};
ghost use Rattle.std.specs.Str.{chars, continuation_len};
ghost use Rattle.rule_checker.specs.Counting.{capped, character_ends, to_come};

/// Returns the number of characters of a text, or the maximum of `u32` if there are more.
#[tactic(auto, using(crate::proofs::SpelledTexts::spelled_next))]
pub fn character_count(text: &[u8]) -> u32
    ensures { result ≡ capped (length (chars text.now)) }
{
    let mut count: u32 = 0;
    let mut coming = 0;
    for byte in text {
        coming = to_come(coming, *byte);
        count = count.saturating_add(character_ends(coming));
    }
    count
}

/// Returns the number of bytes of a character that follow this byte, if `coming` bytes were expected before it.
fn to_come(coming: u8, byte: u8) -> u8
    ensures { result ≡ to_come coming byte }
{
    match coming {
        0 => continuation_len(byte),
        more => more - 1,
    }
}

/// Returns the number of bytes of a character that follow this first byte.
fn continuation_len(byte: u8) -> u8
    ensures { result ≡ continuation_len byte }
{
    match byte {
        0..128 => 0,
        128..224 => 1,
        224..240 => 2,
        240.. => 3,
    }
}

/// Returns 1 if a character ends here, else 0.
fn character_ends(coming: u8) -> u32
    ensures { result ≡ character_ends coming }
{
    if coming == 0 { 1 } else { 0 }
}
