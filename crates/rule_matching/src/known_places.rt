//! Remembers, for one choice, the positions of items in stores.
//!
//! Forgetting takes constant time: the cells of a store have the number of the choice at which they were written, and cells of
//! another choice count as unknown. They are cleared when the store is next written. All cells are cleared only when the choice
//! numbers are used up.

ghost use Rattle.std.specs.Prelude.{◌≡◌, ◌+◌, ◌≢◌, ◌⊎◌, ◌≤◌, ◌<◌, ℕ, Option, IfOk};
ghost use Rattle.kmn_base.specs.declared.limits.TheConstants.{STORES, WINDOW_ITEMS};
ghost use Rattle.rule_matching.specs.KnownPlaces.{known_place, room, memorable, said, known_of, IsBlank};

use kmn_base::Memory;
use kmn_base::limits::{STORE_ELEMENTS, WINDOW_ITEMS};
use std::alloc::Global;
use std::marker::Model;

/// What is known about one store: the choice at which a cell was last written, and a cell for each distance from the caret. A
/// cell is 0 if nothing is known, 1 if the item is not in the store, and `place + 2` if its position is known.
#[derive(Clone, Copy, Drop)]
pub struct StorePlaces {
    asked: u64,
    cells: [u32; WINDOW_ITEMS],
}

impl StorePlaces {
    /// Returns the cells of a store about which nothing is known at a choice.
    fn blank(choice: u64) -> StorePlaces
        ensures asked { result.asked ≡ choice }
        ensures blank { IsBlank result }
    {
        StorePlaces {
            asked: choice,
            cells: [0; WINDOW_ITEMS],
        }
    }

    /// Forgets what was known at another choice.
    #[tactic(auto, using(crate::proofs::Remembering::blank_is_unknown, crate::proofs::Remembering::other_choice_is_unknown))]
    fn ask(&mut self, choice: u64)
        ensures asked { self.new.asked ≡ choice }
        ensures kept { (d : ℕ) → known_of choice (Some self.new) d ≡ known_of choice (Some self.old) d }
    {
        if self.asked == choice {
            return;
        }
        *self = StorePlaces::blank(choice);
    }

    /// Writes the cell of a distance at a choice.
    fn write(&mut self, choice: u64, distance: usize, cell: u32)
        requires { distance < WINDOW_ITEMS }
        ensures asked { self.new.asked ≡ choice }
        ensures written { known_of choice (Some self.new) distance ≡ said cell }
        ensures others { (d : ℕ) → d ≢ distance → known_of choice (Some self.new) d ≡ known_of choice (Some self.old) d }
    {
        self.ask(choice);
        self.cells[distance] = cell;
    }
}

/// Returns the cell that stores a position, or 0 if the position is too large for a cell.
fn cell_of(place: Option<usize>) -> u32
    ensures { said result ≡ memorable place }
{
    match place {
        None => 1,
        Some(place) if place < STORE_ELEMENTS => place as u32 + 2,
        Some(_) => 0,
    }
}

/// What is known about the items of the window: for a store and an item's distance from the caret, the first position of that
/// item in the content of the store. A choice lasts while the window and the stores are unchanged. Nothing is known after it.
#[derive(Drop)]
pub struct KnownPlaces {
    choice: u64,
    stores: Vec<StorePlaces>,
}

impl Model for KnownPlaces {
    ghost use Rattle.rule_matching.specs.KnownPlaces.{Remembered, AreAskedUntil};

    ghost Value = { Remembered };

    ghost view = { λ memory. record { choice = memory.choice; stores = memory.stores.items } };

    ghost invariant = { λ memory. AreAskedUntil memory.choice memory.stores.items };
}

impl KnownPlaces {
    /// Creates space for `stores` stores, about which nothing is known.
    /// Errors: `Memory` if an allocation fails.
    pub fn new(alloc: Global, stores: usize) -> Result<KnownPlaces, Memory>
        requires { stores ≤ STORES + 2 }
        ensures unknown { IfOk result (λ memory. (store distance : ℕ) → known_place memory store distance ≡ None) }
        ensures room { IfOk result (λ memory. room memory ≡ stores) }
    {
        Ok(KnownPlaces {
            choice: 0,
            stores: vec![in alloc; StorePlaces::blank(0); stores]?,
        })
    }

    /// Creates a memory without space for any store. Does not allocate.
    pub fn without_capacity(alloc: Global) -> KnownPlaces
        ensures unknown { (store distance : ℕ) → known_place result store distance ≡ None }
        ensures room { room result ≡ 0 }
    {
        KnownPlaces {
            choice: 0,
            stores: Vec::new(alloc),
        }
    }

    /// Resets to the first choice, at which nothing is known about any store.
    fn begin_anew(&mut self)
        ensures unknown { (store distance : ℕ) → known_place self.new store distance ≡ None }
        ensures room { room self.new ≡ room self.old }
    {
        self.choice = 0;
        self.stores.as_mut_slice().fill(StorePlaces::blank(0));
    }

    /// Begins the next choice, at which nothing is known. After the last choice number, begins again with the first.
    pub fn forget(&mut self)
        ensures unknown { (store distance : ℕ) → known_place self.new store distance ≡ None }
        ensures room { room self.new ≡ room self.old }
    {
        match self.choice.checked_add(1) {
            Some(choice) => self.choice = choice,
            None => self.begin_anew(),
        }
    }

    /// Returns what is known about the position in a store of the item at a distance from the caret: nothing, that the store
    /// does not contain the item, or its position.
    pub fn known(&self, store: u32, distance: usize) -> Option<Option<usize>>
        ensures { result ≡ known_place self.now store distance }
    {
        let places = self.stores.get(store as usize)?;
        if places.asked != self.choice {
            return None;
        }
        match *places.cells.get(distance)? {
            0 => None,
            1 => Some(None),
            cell => Some(Some(cell as usize - 2)),
        }
    }

    /// Remembers until the next choice the position in a store of the item at a distance from the caret, or that the store does
    /// not contain it. Has no effect if there is no space for it. A position of `STORE_ELEMENTS` or more, which only a text of the
    /// host can have, becomes unknown.
    pub fn remember(&mut self, store: u32, distance: usize, place: Option<usize>)
        ensures only { (s d : ℕ) (p : Option ℕ) → known_place self.new s d ≡ Some p
            → (known_place self.old s d ≡ Some p) ⊎ ((s ≡ store) × (d ≡ distance) × (p ≡ place)) }
        ensures known { store < room self.old → distance < WINDOW_ITEMS → known_place self.new store distance ≡ memorable place }
        ensures others { (s d : ℕ) → (s ≢ store) ⊎ (d ≢ distance) → known_place self.new s d ≡ known_place self.old s d }
        ensures room { room self.new ≡ room self.old }
    {
        let store = store as usize;
        if store < self.stores.len() && distance < WINDOW_ITEMS {
            self.stores[store].write(self.choice, distance, cell_of(place));
        }
    }
}
