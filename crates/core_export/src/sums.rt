//! The checksum of a file.

ghost use Rattle.std.specs.Prelude.{◌≡◌};
ghost use Rattle.core_export.specs.Checksum.{bit_behind, byte_behind, checksum};

/// The polynomial, its lowest power in the highest bit.
const POLYNOMIAL: u32 = 0xEDB8_8320;

/// Returns the checksum of bytes: CRC-32 without its final inversion.
#[tactic(auto, unfolding(crate::specs::Checksum::checksum))]
pub fn checksum(bytes: &[u8]) -> u32
    ensures { result ≡ checksum bytes.now }
{
    let mut sum = 0xFFFF_FFFF;
    for byte in bytes {
        sum = byte_behind(sum, *byte);
    }
    sum
}

/// Returns a sum after one more byte.
fn byte_behind(sum: u32, byte: u8) -> u32
    ensures { result ≡ byte_behind sum byte }
{
    let mut sum = sum ^ u32::from(byte);
    for _bit in 0..8_u32 {
        sum = bit_behind(sum);
    }
    sum
}

/// Returns a sum after one more bit.
fn bit_behind(sum: u32) -> u32
    ensures { result ≡ bit_behind sum }
{
    if sum % 2 == 1 {
        sum / 2 ^ POLYNOMIAL
    } else {
        sum / 2
    }
}
