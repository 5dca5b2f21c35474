//! Sets of source lines, which list each line once and sorted.

ghost use Rattle.std.specs.Prelude.{◌≡◌, [], slice_get, OnOk, IfOk};
ghost use Rattle.std.specs.List.{fold};
ghost use Rattle.std.specs.Ordering.{nat_cmp};
ghost use Rattle.std.specs.BTreeSet.{insert_key};
ghost use Rattle.kmn_base.specs.Rising.{is_among, rising};

use crate::{Memory, Seq};
use std::alloc::Global;
use std::collections::BTreeSet;
use std::marker::Model;

/// A set of source lines. Contracts model it as the sorted list of its lines.
#[derive(Drop)]
pub struct LineSet {
    lines: BTreeSet<u32>,
}

impl Model for LineSet {
    ghost use Rattle.std.specs.Prelude.{List, ℕ};

    ghost Value = { List ℕ };

    ghost view = { λ set. set.lines.keys };
}

impl LineSet {
    /// Creates an empty set.
    pub fn new(alloc: Global) -> LineSet
        ensures { result ≡ [] }
    {
        LineSet {
            lines: BTreeSet::new(alloc),
        }
    }

    /// Adds a line. If the set already contains it, the set is unchanged. Errors: `Memory` if an allocation fails.
    pub fn add(&mut self, line: u32) -> Result<(), Memory>
        ensures { OnOk result (self.new ≡ insert_key nat_cmp self.old line) }
    {
        self.lines.insert(line)?;
        Ok(())
    }

    /// Adds the lines of another set. Errors: `Memory` if an allocation fails.
    pub fn add_all(&mut self, other: &LineSet) -> Result<(), Memory>
        ensures { OnOk result (self.new ≡ fold (insert_key nat_cmp) self.old other.now) }
    {
        for line in other.lines.iter() {
            self.lines.insert(*line)?;
        }
        Ok(())
    }

    /// Returns whether the set contains a line.
    #[tactic(auto, using(crate::proofs::RisingLines::among_is))]
    pub fn has(&self, line: u32) -> bool
        ensures { result ≡ is_among line self.now }
    {
        self.lines.contains(&line)
    }

    /// Returns the lowest line.
    pub fn first(&self) -> Option<u32>
        ensures { result ≡ slice_get self.now 0 }
    {
        self.lines.first().copied()
    }

    /// Returns all lines, sorted. Errors: `Memory` if an allocation fails.
    pub fn listed(&self, alloc: Global) -> Result<Seq<u32>, Memory>
        ensures { IfOk result (λ list. list ≡ self.now) }
    {
        let mut list = Seq::new(alloc);
        for line in self.lines.iter() {
            list.add(*line)?;
        }
        Ok(list)
    }
}

/// Returns the distinct lines of a list, sorted. Errors: `Memory` if an allocation fails.
pub fn rising_lines(alloc: Global, lines: &[u32]) -> Result<Seq<u32>, Memory>
    ensures { IfOk result (λ list. list ≡ rising lines.now) }
{
    let mut set = LineSet::new(alloc);
    for line in lines {
        set.add(*line)?;
    }
    set.listed(alloc)
}
