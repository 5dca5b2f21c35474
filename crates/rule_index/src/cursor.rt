//! A cursor into the run of one class, for the merge in `candidates`. It only moves forward.

ghost use Rattle.std.specs.Prelude.{◌≡◌, ◌<◌, ◌≤◌, ℕ, List, length, slice_get, unwrap_or};
ghost use Rattle.rule_index.specs.declared.row.TheConstants.{NO_ROW};
ghost use Rattle.rule_index.specs.Rows.{ranked, number_if, IsIndexOf, StartsAt};
ghost use Rattle.rule_index.specs.Walk.{CursorIsValid};

use crate::class::Class;
use crate::row::{NO_ROW, Row};
use crate::rows::{place_behind, place_from, rank_of};

/// A cursor: a matching class, and an index before which no row of the class is left.
#[derive(Clone, Copy, Drop)]
pub struct Cursor {
    pub class: Class,
    /// An index in the rows of the group.
    pub place: usize,
}

impl Cursor {
    /// Returns the cursor of a class, at its first row.
    pub fn of(rows: &[Row], class: Class) -> Cursor
        ensures class { result.class ≡ class }
        ensures stands { CursorIsValid rows.now 0 result }
    {
        Cursor {
            class,
            place: place_from(rows, rank_of(class, 0)),
        }
    }

    /// Returns the cursor at the first row of its class whose number is at least `from`.
    pub fn behind(&self, rows: &[Row], from: u32) -> Cursor
        requires { from ≤ NO_ROW }
        ensures class { result.class ≡ self.now.class }
        ensures starts { (classes : List ℕ) → IsIndexOf classes rows.now → CursorIsValid rows.now from self.now
            → StartsAt (ranked self.now.class from) rows.now result.place }
    {
        Cursor {
            class: self.class,
            place: place_behind(rows, self.place, rank_of(self.class, from)),
        }
    }

    /// Returns the number of the row at the cursor, or `NO_ROW` if no row of the class is there.
    #[inline(always)]
    pub fn number(&self, rows: &[Row]) -> u32
        ensures value { result ≡ unwrap_or (number_if self.now.class (slice_get rows.now self.now.place)) NO_ROW }
        ensures small { result ≤ NO_ROW }
        ensures within { result < NO_ROW → self.now.place < length rows.now }
    {
        match rows.get(self.place) {
            Some(row) if row.class.number() == self.class.number() => row.number,
            _ => NO_ROW,
        }
    }
}
