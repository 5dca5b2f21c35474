//! Splits a source into lines, and defines the types of its tokens.
//!
//! Depends on `kmn_base`. `specs/Lines` defines how a source is split, and `specs/Tokens` defines the tokens of a line and
//! their first fault; `laws` proves the properties of both without describing how a text is read. The layers above iterate over
//! `lines` and, for the tokens, over the `parts` of each line.
#![tactic(auto)]

ghost use Rattle.std.specs.Prelude.{◌≡◌, ◌≤◌, length, All};
ghost use Rattle.kmn_base.specs.declared.limits.TheConstants.{TEXT_BYTES};
ghost use Rattle.kmn_lines.specs.Lines.{logicals, physical_lines_in, parts_in};
ghost use Rattle.kmn_lines.specs.Places.{IsPlaced};
ghost use Rattle.kmn_lines.specs.Walks.{lines_left, physical_lines_left, parts_left};

pub mod bytes;
pub mod laws;
mod line_state;
mod line_walk;
mod logical;
mod part_walk;
mod physical_line;
mod physical_walk;
mod prefix;
mod token;

use kmn_base::slices::before;
use kmn_base::texts::bom_size;
pub use line_state::{LineState, PhysicalLine};
pub use line_walk::Lines;
pub use logical::{Logical, Part};
pub use part_walk::Parts;
pub use physical_walk::PhysicalLines;
pub use prefix::dropped;
pub use token::{Token, TokenKind};

/// Returns the logical lines of a source in order. A byte order mark at its start is not part of a line. A line includes its
/// comments, its joining backslashes and its line end.
#[tactic(auto, using(crate::proofs::Placed::lines_placed), unfolding(crate::specs::Lines::logicals))]
pub fn lines(source: &str) -> Lines<'_>
    requires { length source.now ≤ TEXT_BYTES }
    ensures gives { lines_left result ≡ logicals source.now }
    ensures placed { All (IsPlaced source.now) (lines_left result) }
{
    let bytes = source.as_bytes();
    Lines {
        bytes,
        at: bom_size(bytes),
        line: 1,
    }
}

/// Returns the physical lines of a logical line of this source, in order.
pub fn physical_lines(source: &str, logical: Logical) -> PhysicalLines<'_>
    requires few { length source.now ≤ TEXT_BYTES }
    requires placed { IsPlaced source.now logical }
    ensures { physical_lines_left result ≡ physical_lines_in source.now logical }
{
    PhysicalLines {
        bytes: before(source.as_bytes(), logical.to as usize),
        at: logical.from as usize,
        line: logical.first_line,
    }
}

/// Returns the parts of a logical line of this source that are tokenized: its physical lines without line end, comment and
/// joining backslash, and without a `$keyman:` or `$keymanonly:` before the first text. A line that begins with `$keymanweb:`
/// or `$kmfl:` has no parts.
#[tactic(auto, unfolding(crate::specs::Lines::parts_in))]
pub fn parts(source: &str, logical: Logical) -> Parts<'_>
    requires few { length source.now ≤ TEXT_BYTES }
    requires placed { IsPlaced source.now logical }
    ensures { parts_left result ≡ parts_in source.now logical }
{
    Parts {
        bytes: before(source.as_bytes(), logical.to as usize),
        at: logical.from as usize,
        line: logical.first_line,
        begun: false,
    }
}
