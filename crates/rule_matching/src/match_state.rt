//! A keyboard in one state, as the tests of records read it.

ghost use Rattle.std.specs.Prelude.{◌≡◌, None, Some, IfSome, length, slice_get};
ghost use Rattle.option_store.specs.Meaning.{option_values};
ghost use Rattle.rule_model.specs.Content.{elements_at, option_number};
ghost use Rattle.rule_model.specs.Keyboard.{Numbered, Platform};
ghost use Rattle.rule_model.specs.Match.{element_at, place_of, same_value};
ghost use Rattle.rule_model.specs.System.{has_words, is_equal, system_ref};
ghost use Rattle.rule_model.specs.Tab.{elements_of, tab};
ghost use Rattle.rule_index.specs.Holdings.{AreHoldersOf};
ghost use Rattle.rule_matching.specs.MatchState.{AreApart, content_at, truths_at};

use crate::contents::held_now;
use crate::host_text::{element_in_text, place_in_text};
use kmn_base::{Element, Item};
use option_store::{Held, Options};
use rule_index::{Holding, IndexedKeyboard};
use rule_model::system::PLATFORM;
use std::marker::Model;

/// A keyboard in one state: the file with its indexes, the content of its stores, and for each store whether each word of its
/// elements is a word of the platform.
#[derive(Drop)]
pub struct MatchState<'a> {
    indexed: &'a IndexedKeyboard<'a>,
    options: &'a Options,
    truths: &'a [bool],
}

impl<'a> Model for MatchState<'a> {
    ghost use Rattle.std.specs.Prelude.{◌≡◌, length};
    ghost use Rattle.option_store.specs.Meaning.{option_values};
    ghost use Rattle.rule_model.specs.Tab.{tab};
    ghost use Rattle.rule_matching.specs.MatchState.{AreApart, MatchStateValue, truths_at};

    ghost Value = { MatchStateValue };

    ghost view = { λ moment. record {
      tables = moment.indexed.now;
      current = option_values (tab moment.indexed.now).stores moment.options.now;
    } };

    ghost invariant = { λ moment. (length moment.options.now ≡ length (tab moment.indexed.now).stores)
        × (moment.truths.now ≡ truths_at (record {
          tables = moment.indexed.now;
          current = option_values (tab moment.indexed.now).stores moment.options.now;
        }))
        × AreApart (tab moment.indexed.now).stores moment.options.now };
}

impl<'a> MatchState<'a> {
    /// Creates the state of a keyboard from the values of its options and from what is known about the platform.
    pub fn of(
        indexed: &'a IndexedKeyboard<'a>,
        options: &'a Options,
        truths: &'a [bool],
    ) -> MatchState<'a>
        requires options { length options.now ≡ length (tab indexed.now).stores }
        requires truths { truths.now ≡ truths_at (record {
          tables = indexed.now;
          current = option_values (tab indexed.now).stores options.now;
        }) }
        requires apart { AreApart (tab indexed.now).stores options.now }
        ensures { result ≡ record {
          tables = indexed.now;
          current = option_values (tab indexed.now).stores options.now;
        } }
    {
        MatchState {
            indexed,
            options,
            truths,
        }
    }

    /// Returns the store whose defined elements a store has now, or `None` if it has a text of the host. A store that is not an
    /// option has its own elements. Contracts model the content of an option and not whether the host set it, so they leave
    /// open which of the two is returned for an option.
    #[inline(always)]
    pub(crate) fn held_store(&self, store: u32) -> Option<u32>
        ensures itself { option_number (tab self.now.tables).stores (Numbered store) ≡ None → result ≡ Some store }
        ensures value { IfSome result (λ held. content_at self.now (Numbered store) ≡ elements_at (tab self.now.tables).stores (Some held)) }
    {
        match held_now(self.indexed, self.options, store) {
            Held::Store(value) => Some(value),
            Held::Host => None,
        }
    }

    /// Returns the stores that are defined with an item.
    #[inline(never)]
    pub(crate) fn holders(&self, item: Item) -> &[Holding]
        ensures { AreHoldersOf item (λ store. elements_at (tab self.now.tables).stores (Some store)) result.now }
    {
        self.indexed.holders(item)
    }

    /// Returns the first position of an item in the content of a store.
    pub fn place_of(&self, store: u32, item: Item) -> Option<usize>
        ensures { result ≡ place_of item (content_at self.now (Numbered store)) }
    {
        match held_now(self.indexed, self.options, store) {
            Held::Store(value) => self.indexed.place_of(value, item),
            Held::Host => place_in_text(item, self.options.host_text(store)),
        }
    }

    /// Returns the element at an optional position of the content of a store.
    pub fn element_at(&self, store: u32, place: Option<usize>) -> Option<Element>
        ensures { result ≡ element_at (content_at self.now (Numbered store)) place }
    {
        self.get(store, place?)
    }

    /// Returns the element at a position of the content of a store.
    fn get(&self, store: u32, place: usize) -> Option<Element>
        ensures { result ≡ slice_get (content_at self.now (Numbered store)) place }
    {
        match held_now(self.indexed, self.options, store) {
            Held::Store(value) => self.indexed.element_at(value, place),
            Held::Host => element_in_text(self.options.host_text(store), place),
        }
    }

    /// Returns the number of a value store of the file. If the file has no store with this number, returns a number without a
    /// store, which has no elements.
    #[tactic(auto, using(crate::proofs::StoreContents::own_value, crate::proofs::StoreContents::no_value))]
    fn value_store(&self, value: u32) -> u32
        ensures { elements_at (tab self.now.tables).stores (Some result) ≡ elements_of self.now.tables.stores value }
    {
        if value < self.indexed.layer() {
            value
        } else {
            self.indexed.store_count()
        }
    }

    /// Returns whether the content of a store equals the elements of a value store.
    pub fn is_same(&self, store: u32, value: u32) -> bool
        ensures { result ≡ same_value (content_at self.now (Numbered store)) (elements_of self.now.tables.stores value) }
    {
        let value = self.value_store(value);
        match held_now(self.indexed, self.options, store) {
            Held::Store(held) => self.indexed.same_elements(held, value),
            // No store is defined with a text that is held as a text of the host.
            Held::Host => false,
        }
    }

    /// Returns whether the platform has each word of a value store.
    #[tactic(auto, using(crate::proofs::StoreContents::told_of, crate::proofs::StoreContents::untold))]
    fn has_platform(&self, value: u32) -> bool
        ensures { result ≡ has_words (content_at self.now Platform) (elements_of self.now.tables.stores value) }
    {
        match self.truths.get(self.value_store(value) as usize) {
            Some(is_true) => *is_true,
            None => true,
        }
    }

    /// Returns whether the system option with an id has the value of a value store: the platform is compared by words, the
    /// layer by its elements.
    pub fn is_system_equal(&self, id: u32, value: u32) -> bool
        ensures { result ≡ is_equal (system_ref id) (content_at self.now (system_ref id)) (elements_of self.now.tables.stores value) }
    {
        if id == PLATFORM {
            self.has_platform(value)
        } else {
            self.is_same(self.indexed.layer(), value)
        }
    }
}
