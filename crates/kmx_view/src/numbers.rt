//! Numbers at a position of a file, little-endian, and 0 if they are not wholly in it.

ghost use Rattle.std.specs.Prelude.{◌≡◌, ◌<◌, ◌^◌};
ghost use Rattle.kmx_format.specs.TablesOf.{half_at, word_at};

/// Returns the number in the two bytes at a position.
#[tactic(auto, unfolding(kmx_format::specs::TablesOf::half_at))]
pub fn half_at(bytes: &[u8], place: usize) -> u16
    requires { place < 2 ^ 63 }
    ensures { result ≡ half_at bytes.now place }
{
    if place + 2 <= bytes.len() {
        u16::from_le_bytes([bytes[place], bytes[place + 1]])
    } else {
        0
    }
}

/// Returns the number in the four bytes at a position.
#[tactic(auto, unfolding(kmx_format::specs::TablesOf::word_at))]
pub fn word_at(bytes: &[u8], place: usize) -> u32
    requires { place < 2 ^ 63 }
    ensures { result ≡ word_at bytes.now place }
{
    if place + 4 <= bytes.len() {
        u32::from_le_bytes([
            bytes[place],
            bytes[place + 1],
            bytes[place + 2],
            bytes[place + 3],
        ])
    } else {
        0
    }
}
