//! What a record caught, which its output uses.

ghost use Rattle.std.specs.Prelude.{◌≡◌, ◌≤◌, ◌<◌, [], ◌∷◌, ◌++◌, None, length};
ghost use Rattle.kmn_base.specs.declared.limits.TheConstants.{CONTEXT_ITEMS};
ghost use Rattle.rule_model.specs.Act.{items_caught, place_for_index};

use crate::elements::place_caught;
use arrayvec::ArrayVec;
use kmn_base::Item;
use kmn_base::limits::CONTEXT_ITEMS;
use std::marker::Model;

/// What one item of a rule context caught. A pattern catches an item of the text. An `any` also catches the first position of
/// that item in its store.
#[derive(Clone, Copy, Default, Drop)]
pub struct MatchedItem {
    /// `None` for a condition or `nul`.
    pub item: Option<Item>,
    /// From 0. `None` for all items except `any`.
    pub place: Option<usize>,
}

impl Model for MatchedItem {
    ghost use Rattle.rule_model.specs.declared.event_state.Catch.{Catch};

    ghost Value = { Catch };

    ghost view = { λ found. record { item = found.item; place = found.place } };

    ghost inverse = { λ catch. record { item = catch.item; place = catch.place } };
}

/// What a record caught when it matched, by the items of its context. It is unchanged while the output acts.
#[derive(Drop)]
pub struct MatchedItems {
    found: ArrayVec<MatchedItem, CONTEXT_ITEMS>,
}

impl Model for MatchedItems {
    ghost use Rattle.std.specs.Prelude.{◌≤◌, length, None};
    ghost use Rattle.kmn_base.specs.declared.limits.TheConstants.{CONTEXT_ITEMS};
    ghost use Rattle.rule_model.specs.declared.event_state.Caught.{Caught};

    ghost Value = { Caught };

    ghost view = { λ caught. record { catches = caught.found.items; key_place = None } };

    ghost invariant = { λ caught. length caught.found.items ≤ CONTEXT_ITEMS };
}

impl MatchedItems {
    /// Returns empty catches, for an output that does not belong to a record.
    pub fn nothing() -> MatchedItems
        ensures { result ≡ record { catches = []; key_place = None } }
    {
        MatchedItems {
            found: ArrayVec::new(),
        }
    }

    /// Removes all catches.
    pub fn clear(&mut self)
        ensures { self.new ≡ record { catches = []; key_place = None } }
    {
        self.found.clear();
    }

    /// Appends what the next item of a context caught.
    pub(crate) fn push(&mut self, found: MatchedItem)
        requires { length self.old.catches < CONTEXT_ITEMS }
        ensures { self.new ≡ record { catches = self.old.catches ++ found ∷ []; key_place = None } }
    {
        self.found.push(found);
    }

    /// Returns the catches, one for each item of the context.
    pub fn found(&self) -> &[MatchedItem]
        ensures { result.now ≡ self.now.catches }
    {
        self.found.as_slice()
    }

    /// Returns the number of items that were caught.
    #[tactic(auto, using(rule_model::proofs::PlainLists::length_filter_map, crate::proofs::Catches::items_are_few))]
    pub fn item_count(&self) -> usize
        ensures value { result ≡ length (items_caught self.now) }
        ensures few { result ≤ CONTEXT_ITEMS }
    {
        self.found
            .as_slice()
            .iter()
            .filter(|found| found.item.is_some())
            .count()
    }

    /// Returns the position that an `index` uses. The key is never a store here, so the offset of the key has no position.
    pub fn place_for_index(&self, offset: u32) -> Option<usize>
        ensures { result ≡ place_for_index self.now offset }
    {
        if offset > 0 && offset as usize - 1 == self.found.len() {
            None
        } else {
            place_caught(self.found.as_slice(), offset)
        }
    }
}
