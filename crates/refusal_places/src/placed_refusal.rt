//! A refusal with its place.

ghost use Rattle.std.specs.Prelude.{◌≡◌};
ghost use Rattle.refusal_places.specs.Placed.{at_start};

use kmn_base::{Code, Refusal};

/// A refusal with its place. `line` is the number of a physical line and `column` counts its characters, both from 1.
#[derive(Clone, Copy)]
pub struct Placed {
    pub line: u32,
    pub column: usize,
    pub code: Code,
}

/// Returns a refusal at the start of its line.
pub fn at_start(refusal: Refusal) -> Placed
    ensures { result ≡ at_start refusal }
{
    Placed {
        line: refusal.line,
        column: 1,
        code: refusal.code,
    }
}
