//! The faults of a layout, each with its place.

ghost use Rattle.std.specs.Prelude.{◌≡◌};
ghost use Rattle.touch_layout.specs.Faults.{whole_layout};

use kmn_base::{Code, Memory};
use thiserror::Error;

/// A place in a layout. Each number counts from 1; 0 means that the place has no number of this kind. Platforms 1 to 3 are
/// phone, tablet and desktop.
#[derive(Clone, Copy, Debug, PartialEq, Eq)]
pub struct LayoutPlace {
    pub platform: u32,
    pub layer: usize,
    pub row: usize,
    pub key: usize,
}

/// A rule that a layout breaks, and its place. A subkey has the number of its top key.
#[derive(Clone, Copy, Debug, PartialEq, Eq)]
pub struct LayoutFault {
    pub code: Code,
    pub place: LayoutPlace,
}

/// The error of a layout that is not accepted.
#[derive(Debug, Drop, Error)]
pub enum LayoutError {
    #[error("refused {} platform {} layer {} row {} key {}", .0.code, .0.place.platform, .0.place.layer, .0.place.row, .0.place.key)]
    Refused(LayoutFault),
    #[error("out of memory")]
    Memory,
}

impl From<Memory> for LayoutError {
    ghost use Rattle.std.specs.Prelude.{◌≡◌};
    ghost use Rattle.touch_layout.specs.declared.faults.LayoutError.TheVariants as error;

    ghost from_gives = { λ _ given. given ≡ error.Memory };

    fn from(_memory: Memory) -> LayoutError {
        LayoutError::Memory
    }
}

/// Returns the place of a layout as a whole.
pub(crate) fn whole_layout() -> LayoutPlace
    ensures { result ≡ whole_layout }
{
    LayoutPlace {
        platform: 0,
        layer: 0,
        row: 0,
        key: 0,
    }
}
