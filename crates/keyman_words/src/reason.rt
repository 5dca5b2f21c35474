//! The reasons for which a run refuses an input.

use kmn_base::{Code, Refusal};
use kmx_decompiler::NoSpelling;
use kmx_verifier::Fault;
use touch_layout::LayoutFault;

/// The fault of a `.kmx` file that is longer than the limit.
pub const LONG_FILE: Fault = Fault {
    code: Code::V15,
    at: 0,
    unit: 0,
};

/// The reason why a source, a script, a file or a layout is refused before anything is written.
#[derive(Clone, Copy)]
pub enum Reason {
    /// A line breaks a rule.
    Line(Refusal),
    /// The file would exceed a limit; the size is in bytes.
    Size { code: Code, size: u64 },
    /// A `.kmx` file breaks a rule at a byte offset.
    File(Fault),
    /// A touch layout breaks a rule at a place.
    Layout(LayoutFault),
    /// A compiled keyboard can't be decompiled.
    Text(NoSpelling),
    /// The number of a load is out of range.
    Number,
    /// A source has this many records, too many for a search for rules that can never fire.
    Records(u64),
    /// An event of a load is refused; events count from 1.
    Event { number: u32, code: Code },
}
