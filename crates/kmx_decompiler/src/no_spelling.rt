//! The reasons why a file has no text that is a source.

use std::fmt;

/// The reason why a file has no text. Groups and records are counted from 0, and positions are byte offsets in the file.
#[derive(Clone, Copy, Debug)]
pub enum NoSpelling {
    /// X1: the record of this number in this group has a longer context than the record before it.
    Order { group: u32, rule: u32 },
    /// X2: the key of the record at this byte offset, or the string whose offset is stored there, has no spelling.
    Unspelled { at: u32 },
    /// X3: the text would have this number of bytes.
    TooLarge { size: u64 },
    /// X3: the text would compile to this number of stores.
    TooManyStores { stores: u32 },
    /// X3: the text would compile to stores with this number of elements in total.
    TooManyElements { elements: u32 },
}

impl fmt::Display for NoSpelling {
    ghost use Rattle.std.specs.Prelude.{Some};
    ghost use Rattle.kmx_decompiler.specs.Reasons.{reason_text};

    ghost output = { λ why. Some (reason_text why) };

    #[tactic(auto, unfolding(crate::specs::Reasons::reason_text))]
    fn fmt<W: fmt::Write>(&self, f: &mut fmt::Formatter<W>) -> fmt::Result {
        match *self {
            NoSpelling::Order { group, rule } => write!(f, "X1 group {group} rule {rule}"),
            NoSpelling::Unspelled { at } => write!(f, "X2 at {at}"),
            NoSpelling::TooLarge { size } => write!(f, "X3 size {size}"),
            NoSpelling::TooManyStores { stores } => write!(f, "X3 stores {stores}"),
            NoSpelling::TooManyElements { elements } => write!(f, "X3 elements {elements}"),
        }
    }
}
