//! The cache of the last items before the caret, and how it follows the text when items are put or removed and when the text is
//! read again.

ghost use Rattle.std.specs.Prelude.{◌≡◌, ◌≤◌, ◌<◌, ◌-◌, ◌+◌, ◌^◌, [], ◌∷◌, ◌++◌, length, drop, min};
ghost use Rattle.std.specs.List.{suffix_len};
ghost use Rattle.kmn_base.specs.declared.limits.TheConstants.{WINDOW_ITEMS};
ghost use Rattle.kmn_base.specs.Lists.{characters, is_mark, without_last, window, read_again};
ghost use Rattle.context_cache.specs.Cached.{filled, EndsText};

use crate::texts::{character_count, is_still_suffix, push_characters, push_items};
use arrayvec::ArrayVec;
use kmn_base::limits::WINDOW_ITEMS;
use kmn_base::slices::behind;
use kmn_base::{Item, end_marks, slices};
use std::marker::Model;

/// The last items before the caret, at most 64. It stores them itself, so no call allocates.
#[derive(Drop)]
pub struct Cache {
    items: ArrayVec<Item, WINDOW_ITEMS>,
}

impl Model for Cache {
    ghost use Rattle.std.specs.Prelude.{List, ◌≤◌, length};
    ghost use Rattle.kmn_base.specs.declared.items.Item.{Item};
    ghost use Rattle.kmn_base.specs.declared.limits.TheConstants.{WINDOW_ITEMS};

    ghost Value = { List Item };

    ghost view = { λ cache. cache.items.items };

    ghost invariant = { λ cache. length cache.items.items ≤ WINDOW_ITEMS };
}

impl Cache {
    /// Creates an empty cache.
    pub fn new() -> Cache
        ensures { result ≡ [] }
    {
        Cache {
            items: ArrayVec::new(),
        }
    }

    /// Returns the items; the last before the caret is at the end.
    pub fn items(&self) -> &[Item]
        ensures value { result.now ≡ self.now }
        ensures few { length result.now ≤ WINDOW_ITEMS }
    {
        self.items.as_slice()
    }

    /// Appends an item, and keeps the last 64 items.
    #[tactic(auto, using(crate::proofs::Windows::window_full, crate::proofs::Windows::window_with_room))]
    pub fn put(&mut self, item: Item)
        ensures { self.new ≡ window (self.old ++ item ∷ []) }
    {
        if self.items.is_full() {
            self.items.remove(0);
        }
        self.items.push(item);
    }

    /// Removes the last `n` items.
    pub fn take(&mut self, n: usize)
        requires { n ≤ length self.old }
        ensures { self.new ≡ without_last n self.old }
    {
        self.items.truncate(self.items.len() - n);
    }

    /// Returns the number of characters among the last `n` items.
    pub fn last_characters(&self, n: usize) -> usize
        requires { n ≤ length self.now }
        ensures { result ≡ length (characters (drop (length self.now - n) self.now)) }
    {
        let items = self.items.as_slice();
        character_count(behind(items, items.len() - n))
    }

    /// Returns the number of marks at the end.
    pub fn end_marks(&self) -> usize
        ensures value { result ≡ suffix_len is_mark self.now }
        ensures within { result ≤ length self.now }
    {
        end_marks(self.items.as_slice())
    }

    /// Returns the number of further characters, of a text of this length that ends with the items' characters, for which there
    /// is space before the items.
    fn missing(&self, text_len: usize) -> usize
        requires { length (characters self.now) ≤ text_len }
        ensures { result ≡ min (text_len - length (characters self.now)) (WINDOW_ITEMS - length self.now) }
    {
        if self.items.is_full() {
            return 0;
        }
        let before = text_len - character_count(self.items.as_slice());
        before.min(WINDOW_ITEMS - self.items.len())
    }

    /// Inserts characters of a text before the items, until there are 64 items or the text is at its start. The text is `older`
    /// followed by `newer`, and ends with the items' characters.
    #[tactic(auto, using(crate::proofs::Windows::filled_in, crate::proofs::Windows::none_missing))]
    pub fn fill(&mut self, older: &[char], newer: &[char])
        requires few { length older.now + length newer.now < 2 ^ 33 }
        requires stands { EndsText self.old (older.now ++ newer.now) }
        ensures { self.new ≡ filled (older.now ++ newer.now) self.old }
    {
        let missing = self.missing(older.len() + newer.len());
        if missing == 0 {
            return;
        }
        let before = older.len() + newer.len() - character_count(self.items.as_slice());
        push_characters(&mut self.items, older, newer, before - missing, missing);
        self.items.as_mut_slice().rotate_right(missing);
    }

    /// Reads the text before the caret again. If the items are still at its end, they are kept. Otherwise the last characters
    /// of the text replace them.
    #[tactic(auto, using(crate::proofs::Windows::still_the_same, crate::proofs::Windows::read_anew))]
    pub fn sync(&mut self, left: &[char])
        ensures { self.new ≡ window (read_again self.old left.now) }
    {
        if is_still_suffix(self.items.as_slice(), left) {
            return;
        }
        self.items.clear();
        for c in slices::behind(left, left.len().saturating_sub(WINDOW_ITEMS)) {
            self.items.push(Item::Char(*c));
        }
    }

    /// Returns a cache with the same items.
    pub fn copy(&self) -> Cache
        ensures { result ≡ self.now }
    {
        let mut items = ArrayVec::new();
        push_items(&mut items, self.items.as_slice());
        Cache { items }
    }
}
