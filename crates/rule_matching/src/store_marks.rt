//! Remembers, for one choice, which stores contain each of the last items: one word for each store, with one bit for each item.
//!
//! The stores of an item are marked once, from their rows in the index. Each later test is one bit. As in `known_places`, the
//! words have the number of their choice, so that forgetting takes constant time.

ghost use Rattle.std.specs.Prelude.{◌≡◌, ◌+◌, ◌≢◌, ◌⊎◌, ◌≤◌, ◌<◌, ◌||◌, ℕ, true, false, length, IfOk, nat_lt};
ghost use Rattle.kmn_base.specs.declared.limits.TheConstants.{STORES, WINDOW_ITEMS};
ghost use Rattle.rule_matching.specs.StoreMarks.{has_distance, has_holder, is_known, is_marked, is_marked_among, is_marked_by, marked_len, AreMarkedUntil};

use kmn_base::Memory;
use kmn_base::limits::WINDOW_ITEMS;
use rule_index::Holding;
use std::alloc::Global;
use std::marker::Model;

/// The marks of one store: the choice at which they were last set, and a bit for each distance from the caret.
#[derive(Clone, Copy, Drop)]
pub struct Marks {
    choice: u64,
    distances: u64,
}

/// Returns whether a word has the bit of a distance.
#[tactic(auto, using(crate::proofs::Marking::has_no_bit))]
fn has_distance(distances: u64, distance: usize) -> bool
    ensures { result ≡ has_distance distances distance }
{
    distance < WINDOW_ITEMS && (distances >> distance) & 1 == 1
}

/// Returns a word with the bit of a distance also set.
fn with_distance(distances: u64, distance: usize) -> u64
    requires { distance < WINDOW_ITEMS }
    ensures set { has_distance result distance ≡ true }
    ensures others { (d : ℕ) → d ≢ distance → has_distance result d ≡ has_distance distances d }
{
    distances | (1u64 << distance)
}

impl Marks {
    /// Returns empty marks for a choice.
    fn none(choice: u64) -> Marks
        ensures { result ≡ record { choice = choice; distances = 0 } }
    {
        Marks {
            choice,
            distances: 0,
        }
    }

    /// Removes the marks of another choice.
    #[tactic(auto, using(crate::proofs::Marking::no_marks, crate::proofs::Marking::other_choice))]
    fn renew(&mut self, choice: u64)
        ensures choice { self.new.choice ≡ choice }
        ensures kept { (d : ℕ) → is_marked_by choice (Some self.new) d ≡ is_marked_by choice (Some self.old) d }
    {
        if self.choice == choice {
            return;
        }
        *self = Marks::none(choice);
    }

    /// Sets the mark of a distance at a choice.
    fn set(&mut self, choice: u64, distance: usize)
        requires { distance < WINDOW_ITEMS }
        ensures choice { self.new.choice ≡ choice }
        ensures set { is_marked_by choice (Some self.new) distance ≡ true }
        ensures others { (d : ℕ) → d ≢ distance → is_marked_by choice (Some self.new) d ≡ is_marked_by choice (Some self.old) d }
    {
        self.renew(choice);
        self.distances = with_distance(self.distances, distance);
    }
}

/// Sets the mark of a store at a distance, if there are marks for the store.
fn mark_store(marks: &mut [Marks], choice: u64, distance: usize, store: usize)
    requires { distance < WINDOW_ITEMS }
    ensures set { store < length marks.old → is_marked_among choice marks.new store distance ≡ true }
    ensures others { (s d : ℕ) → (s ≢ store) ⊎ (d ≢ distance) → is_marked_among choice marks.new s d ≡ is_marked_among choice marks.old s d }
    ensures until { AreMarkedUntil choice marks.old → AreMarkedUntil choice marks.new }
{
    if store < marks.len() {
        marks[store].set(choice, distance);
    }
}

/// Sets the mark of each store that contains an item.
fn mark_holders(marks: &mut [Marks], choice: u64, distance: usize, holders: &[Holding])
    requires { distance < WINDOW_ITEMS }
    ensures set { (s : ℕ) → s < length marks.old → is_marked_among choice marks.new s distance
        ≡ (is_marked_among choice marks.old s distance || has_holder holders.now s) }
    ensures others { (s d : ℕ) → d ≢ distance → is_marked_among choice marks.new s d ≡ is_marked_among choice marks.old s d }
    ensures until { AreMarkedUntil choice marks.old → AreMarkedUntil choice marks.new }
{
    for holding in holders {
        mark_store(marks, choice, distance, holding.store as usize);
    }
}

/// The stores that contain the items before the caret, by the distance of the item from the caret. A choice lasts while the
/// window is unchanged. Nothing is known after it.
#[derive(Drop)]
pub struct StoreMarks {
    choice: u64,
    known: u64,
    marks: Vec<Marks>,
}

impl Model for StoreMarks {
    ghost use Rattle.rule_matching.specs.StoreMarks.{Marking, IsMarking};

    ghost Value = { Marking };

    ghost view = { λ marks. record { choice = marks.choice; known = marks.known; marks = marks.marks.items } };

    ghost invariant = { λ marks. IsMarking (record { choice = marks.choice; known = marks.known; marks = marks.marks.items }) };
}

impl StoreMarks {
    /// Creates space for `stores` stores, about which nothing is known.
    /// Errors: `Memory` if an allocation fails.
    pub fn new(alloc: Global, stores: usize) -> Result<StoreMarks, Memory>
        requires { stores ≤ STORES + 2 }
        ensures unknown { IfOk result (λ marks. (distance : ℕ) → is_known marks distance ≡ false) }
        ensures room { IfOk result (λ marks. marked_len marks ≡ stores) }
    {
        Ok(StoreMarks {
            choice: 0,
            known: 0,
            marks: vec![in alloc; Marks::none(0); stores]?,
        })
    }

    /// Creates marks without space for any store. Does not allocate.
    pub fn without_capacity(alloc: Global) -> StoreMarks
        ensures unknown { (distance : ℕ) → is_known result distance ≡ false }
        ensures room { marked_len result ≡ 0 }
    {
        StoreMarks {
            choice: 0,
            known: 0,
            marks: Vec::new(alloc),
        }
    }

    /// Resets to the first choice, at which no store has a mark.
    fn begin_anew(&mut self)
        ensures unknown { (distance : ℕ) → is_known self.new distance ≡ false }
        ensures room { marked_len self.new ≡ marked_len self.old }
    {
        self.known = 0;
        self.choice = 0;
        self.marks.as_mut_slice().fill(Marks::none(0));
    }

    /// Begins the next choice, at which nothing is known. After the last choice number, begins again with the first.
    pub fn forget(&mut self)
        ensures unknown { (distance : ℕ) → is_known self.new distance ≡ false }
        ensures room { marked_len self.new ≡ marked_len self.old }
    {
        match self.choice.checked_add(1) {
            Some(choice) => {
                self.known = 0;
                self.choice = choice;
            }
            None => self.begin_anew(),
        }
    }

    /// Returns whether there are marks for a store.
    pub fn has_room(&self, store: u32) -> bool
        ensures { result ≡ nat_lt store (marked_len self.now) }
    {
        (store as usize) < self.marks.len()
    }

    /// Returns whether it is known which stores contain the item at a distance.
    pub fn is_known(&self, distance: usize) -> bool
        ensures { result ≡ is_known self.now distance }
    {
        has_distance(self.known, distance)
    }

    /// Returns whether a store is marked as containing the item at a distance.
    pub fn is_marked(&self, store: u32, distance: usize) -> bool
        ensures { result ≡ is_marked self.now store distance }
    {
        match self.marks.get(store as usize) {
            Some(marks) => {
                marks.choice == self.choice && has_distance(marks.distances, distance)
            }
            None => false,
        }
    }

    /// Marks each store that contains the item at a distance. The stores of this item must not be known yet.
    #[inline(never)]
    pub fn mark(&mut self, distance: usize, holders: &[Holding])
        requires within { distance < WINDOW_ITEMS }
        requires unknown { is_known self.old distance ≡ false }
        ensures known { is_known self.new distance ≡ true }
        ensures others_known { (d : ℕ) → d ≢ distance → is_known self.new d ≡ is_known self.old d }
        ensures marked { (store : ℕ) → store < marked_len self.old → is_marked self.new store distance ≡ has_holder holders.now store }
        ensures others_marked { (store d : ℕ) → d ≢ distance → is_marked self.new store d ≡ is_marked self.old store d }
        ensures room { marked_len self.new ≡ marked_len self.old }
    {
        mark_holders(self.marks.as_mut_slice(), self.choice, distance, holders);
        self.known = with_distance(self.known, distance);
    }
}
