//! A growing list. Contracts see only its items, so no contract depends on its capacity.

ghost use Rattle.std.specs.Prelude.{◌≡◌, ◌<◌, ◌==◌, List, [], ◌∷◌, ◌++◌, length, MatchResult, MatchOption, IfOk, slice_set};

use crate::Memory;
use std::alloc::Global;
use std::marker::Model;

/// A growing list on the heap. Contracts model it as the list of its items and promise no spare room.
#[derive(Drop)]
pub struct Seq<T> {
    items: Vec<T>,
}

/// UTF-8 text, as its bytes.
pub type Text = Seq<u8>;

impl<T> Model for Seq<T> {
    ghost use Rattle.std.specs.Prelude.{List};

    ghost Value = { List T };

    ghost view = { λ s. s.items.items };
}

impl<T> Seq<T> {
    ghost use Rattle.std.specs.Borrow.{sem};
    ghost use Rattle.kmn_base.specs.Lending.{LendsItems};

    /// Creates an empty list. Does not allocate.
    pub fn new(alloc: Global) -> Seq<T>
        ensures { result ≡ [] }
    {
        Seq {
            items: Vec::new(alloc),
        }
    }

    /// Creates a list from the items of a vector.
    pub fn from_vec(items: Vec<T>) -> Seq<T>
        ensures { result ≡ items.items }
    {
        Seq { items }
    }

    /// Appends an item. Errors: returns the item if an allocation fails.
    pub fn push(&mut self, item: T) -> Result<(), T>
        ensures { MatchResult result (λ _. self.new ≡ self.old ++ item ∷ []) (λ back. (back ≡ item) × (self.new ≡ self.old)) }
    {
        match self.items.push(item) {
            Ok(()) => Ok(()),
            Err(failed) => Err(failed.value),
        }
    }

    /// Removes the last item and returns it.
    pub fn pop(&mut self) -> Option<T>
        ensures { MatchOption result ((self.old ≡ []) × (self.new ≡ [])) (λ last. self.old ≡ self.new ++ last ∷ []) }
    {
        self.items.pop()
    }

    /// Returns the number of items.
    pub fn len(&self) -> usize
        ensures { result ≡ length self.now }
    {
        self.items.len()
    }

    /// Returns whether the list is empty.
    pub fn is_empty(&self) -> bool
        ensures { result ≡ (length self.now == 0) }
    {
        self.items.is_empty()
    }

    /// Returns the items as a slice.
    pub fn as_slice(&self) -> &[T]
        ensures { result.now ≡ self.now }
    {
        self.items.as_slice()
    }

    /// Returns the items as a mutable slice. The list then has the items that the slice has when the borrow ends.
    pub fn as_mut_slice(&mut self) -> &mut [T]
        ensures* writes_back { sem 𝓛 (LendsItems T.row self.entry result) }
        ensures value { result.now ≡ self.old }
    {
        self.items.as_mut_slice()
    }
}

impl Seq<u8> {
    ghost use Rattle.std.specs.String.{string_bytes};

    /// Creates a text from the bytes of a string.
    pub fn from_string(string: String) -> Text
        ensures { result ≡ string_bytes string }
    {
        Seq::from_vec(string.into_bytes())
    }
}

impl<T: Drop> Seq<T> {
    /// Appends an item. Errors: `Memory` if an allocation fails; the item is then dropped.
    pub fn add(&mut self, item: T) -> Result<(), Memory>
        ensures { MatchResult result (λ _. self.new ≡ self.old ++ item ∷ []) (λ _. self.new ≡ self.old) }
    {
        self.items.push(item)?;
        Ok(())
    }

    /// Appends the items of another list. Errors: `Memory` if an allocation fails; the list is then unchanged.
    pub fn append(&mut self, other: Seq<T>) -> Result<(), Memory>
        ensures { MatchResult result (λ _. self.new ≡ self.old ++ other) (λ _. self.new ≡ self.old) }
    {
        let mut items = other.items;
        self.items.append(&mut items)?;
        Ok(())
    }

    /// Replaces the item at an index and drops the old item.
    pub fn set(&mut self, index: usize, item: T)
        requires { index < length self.old }
        ensures { self.new ≡ slice_set self.old index item }
    {
        self.items[index] = item;
    }
}

impl<T: Copy> Seq<T> {
    /// Returns a copy of the list. Errors: `Memory` if an allocation fails.
    pub fn copy(&self, alloc: Global) -> Result<Seq<T>, Memory>
        ensures { IfOk result (λ copy. copy ≡ self.now) }
    {
        Seq::from_slice(alloc, self.as_slice())
    }

    /// Creates a list with the items of a slice. Errors: `Memory` if an allocation fails.
    pub fn from_slice(alloc: Global, items: &[T]) -> Result<Seq<T>, Memory>
        ensures { IfOk result (λ copy. copy ≡ items.now) }
    {
        Ok(Seq {
            items: Vec::from_slice(alloc, items)?,
        })
    }

    /// Appends the items of a slice. Errors: `Memory` if an allocation fails; the list is then unchanged.
    pub fn extend_from_slice(&mut self, items: &[T]) -> Result<(), Memory>
        ensures { MatchResult result (λ _. self.new ≡ self.old ++ items.now) (λ _. self.new ≡ self.old) }
    {
        self.items.extend_from_slice(items)?;
        Ok(())
    }
}
