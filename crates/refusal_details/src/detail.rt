//! What a refusal is about.

ghost use Rattle.std.specs.Prelude.{◌≡◌};
ghost use Rattle.refusal_details.specs.Explained.{unexplained};

use kmn_base::{Refusal, Seq, Text};
use refusal_places::{Placed, at_start};

/// What a refusal is about, beyond the meaning of its code.
#[derive(Drop)]
pub enum Detail {
    /// The meaning of the code says enough.
    Nothing,
    /// A word or another token as it is in the source, and the known names that it may mean, at most three.
    Word { word: Text, near: Seq<Text> },
    /// A name, and the number of the line that defines it first, from 1.
    Defined { name: Text, line: u32 },
}

/// A refusal with its place and its detail.
#[derive(Drop)]
pub struct Explained {
    pub placed: Placed,
    pub detail: Detail,
}

/// Returns a refusal at the start of its line, without a detail.
pub fn unexplained(refusal: Refusal) -> Explained
    ensures { result ≡ unexplained refusal }
{
    Explained {
        placed: at_start(refusal),
        detail: Detail::Nothing,
    }
}
