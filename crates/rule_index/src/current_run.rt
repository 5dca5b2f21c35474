//! The run that the merge in `candidates` is reading. Below its limit, no other run has a record, so the other cursors are not
//! compared.

ghost use Rattle.std.specs.Prelude.{◌≤◌};
ghost use Rattle.rule_index.specs.declared.row.TheConstants.{NO_ROW};

use crate::cursor::Cursor;

/// The cursor of the last candidate's class, after the candidate's row, and a number below which no other matching class has a record.
#[derive(Clone, Copy, Drop)]
pub struct CurrentRun {
    pub head: Cursor,
    pub limit: u32,
    ghost small: { limit ≤ NO_ROW },
}
