//! The left list while an event acts on it: its characters (`Standing`), and its last items with their marks in the cache.

ghost use Rattle.std.specs.Prelude.{◌≡◌, ◌≤◌, ◌<◌, ◌-◌, ◌+◌, ◌^◌, [], ◌∷◌, ◌++◌, length, drop, take, nat_lt};
ghost use Rattle.kmn_base.specs.declared.limits.TheConstants.{EVENT_PUTS, WINDOW_ITEMS};
ghost use Rattle.kmn_base.specs.Lists.{characters, without_last, window, put, read_again};
ghost use Rattle.rule_model.specs.Enter.{without_end_marks, without_last_character};
ghost use Rattle.rule_model.specs.KeyEvent.{deleted, inserted};

use crate::standing::Standing;
use crate::{CacheBox, Inserted};
use context_cache::Cache;
use kmn_base::Item;
use std::marker::Model;

/// The left list (characters and marks) while an event acts on it. Its last items are cached.
#[derive(Drop)]
pub struct Left<'a> {
    text: Standing<'a>,
    cache: Box<Cache>,
    put: u32,
}

/// The result of an event: its last items, the number of characters deleted from the borrowed text, and the characters inserted there.
#[derive(Drop)]
pub struct Edited {
    pub cache: CacheBox,
    pub deleted: usize,
    pub inserted: Inserted,
}

impl<'a> Model for Left<'a> {
    ghost use Rattle.std.specs.Prelude.{◌≤◌};
    ghost use Rattle.kmn_base.specs.declared.limits.TheConstants.{EVENT_PUTS};
    ghost use Rattle.context_cache.specs.Cached.{text_with_context, EndsText};
    ghost use Rattle.event_text.specs.Texts.{LeftValue};

    ghost Value = { LeftValue };

    ghost view = { λ left. record {
      lent = left.text.lent;
      items = text_with_context left.text.text left.cache.value;
      cache = left.cache.value;
      put = left.put;
    } };

    ghost invariant = { λ left. (left.text.added ≤ left.put) × (left.put ≤ EVENT_PUTS) × EndsText left.cache.value left.text.text };
}

impl<'a> Left<'a> {
    ghost use Rattle.event_text.specs.Texts.{LeftValue};

    /// Begins an event and reads the text again. The cache has the last items of the previous text.
    #[tactic(auto, using(crate::proofs::Lefts::begun, crate::proofs::Lefts::begun_stands))]
    pub fn begin(lent: &'a [char], inserted: Inserted, cache: CacheBox) -> Left<'a>
        requires few { length lent.now < 2 ^ 32 }
        requires room { inserted.room ≡ EVENT_PUTS }
        requires places { cache.room ≡ WINDOW_ITEMS }
        ensures { result ≡ record {
          lent = lent.now;
          items = read_again cache.items lent.now;
          cache = window (read_again cache.items lent.now);
          put = 0;
        } }
    {
        let mut cache = cache.into_box();
        cache.sync(lent);
        Left {
            text: Standing::of(lent, inserted),
            cache,
            put: 0,
        }
    }

    /// Returns the number of items that were put.
    pub fn puts(&self) -> u32
        ensures { result ≡ self.now.put }
    {
        self.put
    }

    /// Returns the last items, as many as are cached.
    pub fn cache(&self) -> &[Item]
        ensures { result.now ≡ self.now.cache }
    {
        self.cache.items()
    }

    /// Fills the cache with as many items as the list has, up to 64.
    #[tactic(auto, using(crate::proofs::Lefts::filled_up, crate::proofs::Lefts::filled_stands))]
    pub fn fill(&mut self)
        ensures { self.new ≡ record self.old { cache = window self.old.items } }
    {
        let (older, newer) = self.text.parts();
        self.cache.fill(older, newer);
    }

    /// Puts an item.
    #[tactic(auto, using(crate::proofs::Lefts::put_one, crate::proofs::Lefts::put_stands))]
    pub fn put(&mut self, item: Item)
        requires { self.old.put < EVENT_PUTS }
        ensures { self.new ≡ record self.old {
          items = put self.old.items item;
          cache = window (self.old.cache ++ item ∷ []);
          put = self.old.put + 1;
        } }
    {
        self.text.put(item);
        self.cache.put(item);
        self.put += 1;
    }

    /// Removes the last `count` items, which are cached.
    #[tactic(auto, using(crate::proofs::Lefts::taken, crate::proofs::Lefts::gone_within, crate::proofs::Lefts::taken_stands))]
    pub fn take(&mut self, count: usize)
        requires { count ≤ length self.old.cache }
        ensures { self.new ≡ record self.old {
          items = without_last count self.old.items;
          cache = without_last count self.old.cache;
        } }
    {
        let gone = self.cache.last_characters(count);
        self.text.take(gone);
        self.cache.take(count);
    }

    /// Removes the marks at the end.
    #[tactic(auto, using(crate::proofs::Lefts::marks_at_hand))]
    fn take_marks(&mut self)
        ensures items { self.new.items ≡ without_end_marks self.old.items }
        ensures cache { self.new.cache ≡ without_end_marks self.old.cache }
        ensures lent { self.new.lent ≡ self.old.lent }
        ensures put { self.new.put ≡ self.old.put }
    {
        let count = self.cache.end_marks();
        self.take(count);
    }

    /// Removes the last item, if there is one.
    #[tactic(auto, using(crate::proofs::Lefts::none_left, crate::proofs::Lefts::none_in))]
    fn take_one(&mut self)
        ensures items { self.new.items ≡ without_last 1 self.old.items }
        ensures cache { self.new.cache ≡ without_last 1 (window self.old.items) }
        ensures lent { self.new.lent ≡ self.old.lent }
        ensures put { self.new.put ≡ self.old.put }
    {
        self.fill();
        if !self.cache().is_empty() {
            self.take(1);
        }
    }

    /// Removes the last character and the marks around it.
    pub fn take_character(&mut self)
        ensures items { self.new.items ≡ without_last_character self.old.items }
        ensures cache { self.new.cache ≡ without_end_marks (without_last 1 (window (without_end_marks self.old.items))) }
        ensures lent { self.new.lent ≡ self.old.lent }
        ensures put { self.new.put ≡ self.old.put }
    {
        self.take_marks();
        self.take_one();
        self.take_marks();
    }

    /// Returns whether the list has a character.
    #[tactic(auto, using(crate::proofs::Lefts::characters_are))]
    pub fn has_character(&self) -> bool
        ensures { result ≡ nat_lt 0 (length (characters self.now.items)) }
    {
        self.text.len() > 0
    }

    /// Finishes the event. Returns its last 64 items, and the edit that turns the borrowed text into its text.
    #[tactic(auto, using(crate::proofs::Lefts::characters_are))]
    pub fn finish(mut self) -> Edited
        ensures cache { result.cache.items ≡ window self.entry.items }
        ensures deleted { (before : _) → characters before ≡ self.entry.lent → result.deleted ≡ deleted before self.entry.items }
        ensures inserted { (before : _) → characters before ≡ self.entry.lent → result.inserted.text ≡ inserted before self.entry.items }
        ensures room { result.inserted.room ≡ EVENT_PUTS }
        ensures places { result.cache.room ≡ WINDOW_ITEMS }
        ensures small { result.deleted < 2 ^ 32 }
        ensures few { length result.inserted.text ≤ EVENT_PUTS }
    {
        self.fill();
        let (deleted, inserted) = self.text.finish();
        Edited {
            cache: CacheBox::of(self.cache),
            deleted,
            inserted,
        }
    }
}
