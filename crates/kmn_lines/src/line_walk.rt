//! The logical lines of a source, one by one.

ghost use Rattle.std.specs.Prelude.{◌≡◌, ◌+◌, ◌≤◌, length, Some};
ghost use Rattle.kmn_base.specs.declared.limits.TheConstants.{TEXT_BYTES};

use crate::line_state::PhysicalLine;
use crate::logical::Logical;
use crate::physical_line::physical_line_at;

/// An iterator over the logical lines of a source.
#[derive(Clone, Copy)]
pub struct Lines<'a> {
    pub(crate) bytes: &'a [u8],
    /// The beginning of the next physical line.
    pub(crate) at: usize,
    /// The number of the next physical line.
    pub(crate) line: u32,
    ghost few: { length bytes.now ≤ TEXT_BYTES },
    ghost within: { at ≤ length bytes.now },
    ghost counted: { line ≤ at + 1 },
}

impl<'a> Lines<'a> {
    ghost use Rattle.kmn_lines.specs.Lines.{extended};

    /// Returns a logical line that a physical line begins or continues.
    fn extended(begun: Option<Logical>, physical: PhysicalLine) -> Logical
        requires from { physical.from ≤ TEXT_BYTES }
        requires to { physical.next ≤ TEXT_BYTES }
        ensures { result ≡ extended begun physical }
    {
        let to = physical.next as u32;
        match begun {
            None => Logical {
                first_line: physical.line,
                from: physical.from as u32,
                to,
            },
            Some(logical) => Logical { to, ..logical },
        }
    }
}

impl Iterator for Lines<'_> {
    type Item = Logical;

    ghost use Rattle.std.specs.Iterator.{YieldsFirst, item_count};
    ghost use Rattle.kmn_lines.specs.Walks.{lines_left};

    ghost next_gives = { YieldsFirst lines_left };

    ghost remaining = { item_count lines_left };

    fn next(&mut self) -> Option<Logical> {
        let mut begun = None;
        while self.at < self.bytes.len() {
            let physical = physical_line_at(self.bytes, self.line, self.at);
            self.at = physical.next;
            self.line += 1;
            let logical = Lines::extended(begun, physical);
            if !physical.joined {
                return Some(logical);
            }
            begun = Some(logical);
        }
        begun
    }
}
