//! What a choice remembers about the items before the caret: looked-up positions and marks of stores.

ghost use Rattle.std.specs.Prelude.{◌≡◌, ◌+◌, ◌≤◌, IfOk};
ghost use Rattle.kmn_base.specs.declared.limits.TheConstants.{STORES};
ghost use Rattle.rule_matching.specs.PlaceMemory.{rooms, KnowsNothing};

use crate::known_places::KnownPlaces;
use crate::store_marks::StoreMarks;
use kmn_base::Memory;
use std::alloc::Global;

/// What is known about the items before the caret during the choice of a record: their positions in stores that were looked up,
/// and which stores contain each of them.
#[derive(Drop)]
pub struct PlaceMemory {
    pub(crate) found: KnownPlaces,
    pub(crate) marks: StoreMarks,
}

impl PlaceMemory {
    /// Creates space for `stores` stores, about which nothing is known.
    /// Errors: `Memory` if an allocation fails.
    pub fn new(alloc: Global, stores: usize) -> Result<PlaceMemory, Memory>
        requires { stores ≤ STORES + 2 }
        ensures unknown { IfOk result (λ memory. KnowsNothing memory) }
        ensures rooms { IfOk result (λ memory. rooms memory ≡ (stores, stores)) }
    {
        Ok(PlaceMemory {
            found: KnownPlaces::new(alloc, stores)?,
            marks: StoreMarks::new(alloc, stores)?,
        })
    }

    /// Creates a memory without space for any store. Does not allocate.
    pub fn without_capacity(alloc: Global) -> PlaceMemory
        ensures unknown { KnowsNothing result }
        ensures rooms { rooms result ≡ (0, 0) }
    {
        PlaceMemory {
            found: KnownPlaces::without_capacity(alloc),
            marks: StoreMarks::without_capacity(alloc),
        }
    }

    /// Begins the next choice, at which nothing is known.
    pub fn forget(&mut self)
        ensures unknown { KnowsNothing self.new }
        ensures rooms { rooms self.new ≡ rooms self.old }
    {
        self.found.forget();
        self.marks.forget();
    }
}
