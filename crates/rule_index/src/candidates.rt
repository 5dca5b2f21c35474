//! Merges six sorted runs: the rows of a group's index that have one of the six classes of a key press, in file order.
//!
//! The rows are sorted by class and then by record number, so the rows of one class are a run with rising numbers. Each of the
//! six classes has a cursor (`Cursor`). The next candidate is the lowest number at a cursor, so candidates come in file order,
//! and a cursor never skips a row that can still be returned. After each result all cursors skip the numbers up to it, so a
//! record is returned once even if two of the six classes are equal. While one class has the next numbers, only its cursor is
//! read (`CurrentRun`).
//!
//! Creating the iterator costs six binary searches. Since no cursor moves back, a walk then costs a constant number of steps
//! for each candidate on average.

ghost use Rattle.std.specs.Prelude.{◌≡◌, ◌<◌, ◌≤◌, ℕ, List, IfSome, length, map};
ghost use Rattle.kmn_base.specs.declared.limits.TheConstants.{RECORDS};
ghost use Rattle.rule_index.specs.declared.row.TheConstants.{NO_ROW};
ghost use Rattle.rule_index.specs.Rows.{IsIndexOf};
ghost use Rattle.rule_index.specs.Next.{IsNext};
ghost use Rattle.rule_index.specs.Walk.{behind, CursorsAreValid, RunIsValid};

use crate::class::Class;
use crate::current_run::CurrentRun;
use crate::cursor::Cursor;
use crate::row::{NO_ROW, Row};
use std::marker::Model;

/// Iterates, in file order, over the records of a group that can match a key press and the last item before the caret.
///
/// This is a merge of six sorted runs: the index rows are sorted by class and then by record number, and a press has six classes. Each
/// class has a cursor (`heads`). While one class has the next record, `next` reads only that class (`lead`).
#[derive(Drop)]
pub struct Candidates<'i> {
    rows: &'i [Row],
    heads: [Cursor; 6],
    lead: CurrentRun,
    from: u32,
}

impl<'i> Model for Candidates<'i> {
    ghost use Rattle.std.specs.Prelude.{◌≤◌, map};
    ghost use Rattle.rule_index.specs.declared.row.TheConstants.{NO_ROW};
    ghost use Rattle.rule_index.specs.Walk.{CandidatesValue, CursorsAreValid, RunIsValid};

    ghost Value = { CandidatesValue };

    ghost view = { λ candidates. record {
      rows = candidates.rows.now;
      wanted = map (λ head. head.class) candidates.heads;
      from = candidates.from;
    } };

    ghost invariant = { λ candidates. (candidates.from ≤ NO_ROW) × CursorsAreValid candidates.rows.now candidates.from candidates.heads
        × RunIsValid candidates.rows.now (map (λ head. head.class) candidates.heads) candidates.from candidates.lead };
}

/// Returns the lowest record number, from `from` on, that has one of the classes of `heads`, or `None` if there is none. Moves each
/// cursor to the first row of its class from `from` on. If there is a record, sets `lead` to the cursor after it and to the limit below
/// which no other class has a record.
#[inline(never)]
fn next_of(rows: &[Row], heads: &mut [Cursor], lead: &mut CurrentRun, from: u32) -> Option<u32>
    requires { from ≤ NO_ROW }
    ensures wanted { map (λ head. head.class) heads.new ≡ map (λ head. head.class) heads.old }
    ensures stand { CursorsAreValid rows.now from heads.old → CursorsAreValid rows.now from heads.new }
    ensures next { (classes : List ℕ) → IsIndexOf classes rows.now → CursorsAreValid rows.now from heads.old
        → IsNext (map (λ head. head.class) heads.old) (length heads.old) classes from result }
    ensures lead { let wanted = map (λ head. head.class) heads.old in CursorsAreValid rows.now from heads.old
        → RunIsValid rows.now wanted from lead.old → RunIsValid rows.now wanted (behind from result) lead.new }
    ensures small { IfSome result (λ number. number < NO_ROW) }
{
    let (mut first, mut least, mut limit) = (lead.head, NO_ROW, NO_ROW);
    for k in 0..heads.len() {
        let head = heads[k].behind(rows, from);
        heads[k] = head;
        let number = head.number(rows);
        if number < least {
            limit = least;
            least = number;
            first = head;
        } else if least < number && number < limit {
            limit = number;
        }
    }
    if least == NO_ROW {
        return None;
    }
    first.place += 1;
    *lead = CurrentRun { head: first, limit };
    Some(least)
}

impl<'i> Candidates<'i> {
    ghost use Rattle.rule_index.specs.Walk.{CandidatesValue};

    /// Creates an iterator over the records among `rows` that have one of these classes.
    pub fn of(rows: &'i [Row], wanted: &[Class; 6]) -> Candidates<'i>
        ensures { result ≡ record { rows = rows.now; wanted = wanted.now; from = 0 } }
    {
        let heads = [
            Cursor::of(rows, wanted[0]),
            Cursor::of(rows, wanted[1]),
            Cursor::of(rows, wanted[2]),
            Cursor::of(rows, wanted[3]),
            Cursor::of(rows, wanted[4]),
            Cursor::of(rows, wanted[5]),
        ];
        let head = Cursor {
            class: wanted[0],
            place: 0,
        };
        Candidates {
            rows,
            heads,
            lead: CurrentRun { head, limit: 0 },
            from: 0,
        }
    }

    /// Returns the next candidate, or `None` if there are no more. Does not move the cursors while the class of the last candidate
    /// continues.
    #[inline(always)]
    pub fn next(&mut self) -> Option<u32>
        ensures next { (classes : List ℕ) → IsIndexOf classes self.old.rows
            → IsNext self.old.wanted (length self.old.wanted) classes self.old.from result }
        ensures rest { self.new ≡ record self.old { from = behind self.old.from result } }
    {
        let number = self.lead.head.number(self.rows);
        if self.from <= number && number < self.lead.limit {
            self.lead.head.place += 1;
            self.from = number + 1;
            return Some(number);
        }
        let number = next_of(self.rows, &mut self.heads, &mut self.lead, self.from)?;
        self.from = number + 1;
        Some(number)
    }
}
