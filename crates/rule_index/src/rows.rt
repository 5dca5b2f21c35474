//! Rows sorted by class and then by number, and the searches in them.
//!
//! A class and a number are compared as one number, the rank. So the rows of a class are an interval, and a search for a rank
//! finds its start. Sorting n rows costs O(n log n) and does not allocate. `place_from` is a binary search. `place_behind`
//! moves row by row from a known index, since a cursor usually skips few rows.

ghost use Rattle.std.specs.Prelude.{◌≡◌, ◌≤◌, ◌+◌, ◌*◌, ℕ, List, IfOk, length, nat_lt};
ghost use Rattle.std.specs.List.Sorted.{IsNonDecreasingBy};
ghost use Rattle.kmn_base.specs.declared.limits.TheConstants.{RECORDS};
ghost use Rattle.rule_index.specs.declared.row.TheConstants.{NO_ROW};
ghost use Rattle.rule_index.specs.Rows.{rank, ranked, AreNumbered, AreBefore, IsIndexOf, StartsAt};

use crate::class::Class;
use crate::row::{NO_ROW, Row};
use kmn_base::Memory;
use std::alloc::Global;

/// Returns a class and a number as one number, by which rows are sorted.
pub fn rank_of(class: Class, number: u32) -> u64
    requires { number ≤ NO_ROW }
    ensures { result ≡ ranked class number }
{
    class.number() * u64::from(NO_ROW) + u64::from(number)
}

/// Creates the rows of these classes, sorted by class and then by number.
pub fn rows_of(alloc: Global, classes: &[Class]) -> Result<Vec<Row>, Memory>
    requires { length classes.now ≤ RECORDS }
    ensures { IfOk result (λ rows. IsIndexOf classes.now rows.items) }
{
    let mut rows = numbered(alloc, classes)?;
    rows.sort_unstable_by_key(
        |row: &Row| -> u64
            ensures { result ≡ rank row.now }
        { rank(row) },
    );
    Ok(rows)
}

/// Creates a row for each of these classes, in their order.
fn numbered(alloc: Global, classes: &[Class]) -> Result<Vec<Row>, Memory>
    requires { length classes.now ≤ RECORDS }
    ensures { IfOk result (λ rows. AreNumbered classes.now rows.items) }
{
    let mut rows = Vec::new(alloc);
    for number in 0..classes.len() {
        rows.push(Row {
            class: classes[number],
            number: number as u32,
        })?;
    }
    Ok(rows)
}

/// Returns the rank of a row.
fn rank(row: &Row) -> u64
    ensures { result ≡ rank row.now }
{
    rank_of(row.class, row.number)
}

/// Returns the index of the first row whose rank is at least `start`.
pub fn place_from(rows: &[Row], start: u64) -> usize
    ensures { (sorted : IsNonDecreasingBy rank rows.now) → StartsAt start rows.now result }
{
    rows.partition_point(
        |row: &Row| -> bool
            ensures { result ≡ nat_lt (rank row.now) start }
        { rank(row) < start },
    )
}

/// Returns the index of the first row whose rank is at least `start`. It moves row by row from `passed`, and all earlier ranks are less.
pub fn place_behind(rows: &[Row], passed: usize, start: u64) -> usize
    ensures { (sorted : IsNonDecreasingBy rank rows.now) → AreBefore start rows.now passed → StartsAt start rows.now result }
{
    let mut place = passed;
    while let Some(row) = rows.get(place) {
        if start <= rank(row) {
            break;
        }
        place += 1;
    }
    place
}
