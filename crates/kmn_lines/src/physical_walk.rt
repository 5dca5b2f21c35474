//! The physical lines of a logical line, one by one.

ghost use Rattle.std.specs.Prelude.{◌≡◌, ◌+◌, ◌≤◌, length};
ghost use Rattle.kmn_base.specs.declared.limits.TheConstants.{TEXT_BYTES};

use crate::line_state::PhysicalLine;
use crate::physical_line::physical_line_at;

/// An iterator over the physical lines of a logical line.
#[derive(Clone, Copy)]
pub struct PhysicalLines<'a> {
    /// The source up to the end of the logical line.
    pub(crate) bytes: &'a [u8],
    /// The beginning of the next physical line.
    pub(crate) at: usize,
    /// The number of the next physical line.
    pub(crate) line: u32,
    ghost few: { length bytes.now ≤ TEXT_BYTES },
    ghost within: { at ≤ length bytes.now },
    ghost counted: { line ≤ at + 1 },
}

impl Iterator for PhysicalLines<'_> {
    type Item = PhysicalLine;

    ghost use Rattle.std.specs.Iterator.{YieldsFirst, item_count};
    ghost use Rattle.kmn_lines.specs.Walks.{physical_lines_left};

    ghost next_gives = { YieldsFirst physical_lines_left };

    ghost remaining = { item_count physical_lines_left };

    fn next(&mut self) -> Option<PhysicalLine> {
        if self.at == self.bytes.len() {
            return None;
        }
        let physical = physical_line_at(self.bytes, self.line, self.at);
        self.at = physical.next;
        self.line += 1;
        Some(physical)
    }
}
