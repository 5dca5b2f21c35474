//! The parts of a logical line, one by one.

ghost use Rattle.std.specs.Prelude.{◌≡◌, ◌+◌, ◌^◌, ◌<◌, ◌≤◌, length};
ghost use Rattle.kmn_base.specs.declared.limits.TheConstants.{TEXT_BYTES};

use crate::bytes::is_all_blank;
use crate::line_state::PhysicalLine;
use crate::logical::Part;
use crate::physical_line::physical_line_at;
use crate::prefix::{dropped, is_skipped};
use kmn_base::slices::{before, behind};

/// An iterator over the parts of a logical line.
#[derive(Clone, Copy)]
pub struct Parts<'a> {
    /// The source up to the end of the logical line.
    pub(crate) bytes: &'a [u8],
    /// The beginning of the next physical line.
    pub(crate) at: usize,
    /// The number of the next physical line.
    pub(crate) line: u32,
    /// Whether a text that is not blank has been read. A prefix is allowed only before it.
    pub(crate) begun: bool,
    ghost few: { length bytes.now ≤ TEXT_BYTES },
    ghost within: { at ≤ length bytes.now },
    ghost counted: { line ≤ at + 1 },
}

impl Parts<'_> {
    ghost use Rattle.kmn_lines.specs.Lines.{part_after, physical_text};

    /// Returns a physical line as a part, without its first `count` bytes.
    fn part_after(count: usize, physical: PhysicalLine) -> Part
        requires from { physical.from + count < 2 ^ 32 }
        requires to { physical.to < 2 ^ 32 }
        ensures { result ≡ part_after count physical }
    {
        Part {
            line: physical.line,
            from: (physical.from + count) as u32,
            to: physical.to as u32,
        }
    }

    /// Returns the text of a physical line.
    fn text<'b>(bytes: &'b [u8], physical: &PhysicalLine) -> &'b [u8]
        ensures is { result.now ≡ physical_text bytes.now physical.now }
        ensures within { length result.now ≤ length bytes.now }
    {
        behind(before(bytes, physical.to), physical.from)
    }
}

impl Iterator for Parts<'_> {
    type Item = Part;

    ghost use Rattle.std.specs.Iterator.{YieldsFirst, item_count};
    ghost use Rattle.kmn_lines.specs.Walks.{parts_left};

    ghost next_gives = { YieldsFirst parts_left };

    ghost remaining = { item_count parts_left };

    fn next(&mut self) -> Option<Part> {
        if self.at == self.bytes.len() {
            return None;
        }
        let physical = physical_line_at(self.bytes, self.line, self.at);
        self.at = physical.next;
        self.line += 1;
        if self.begun {
            return Some(Parts::part_after(0, physical));
        }
        let text = Parts::text(self.bytes, &physical);
        if is_skipped(text) {
            self.at = self.bytes.len();
            return None;
        }
        self.begun = !is_all_blank(text);
        Some(Parts::part_after(dropped(text), physical))
    }
}
