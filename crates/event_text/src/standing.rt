//! The characters before the caret while an event acts on them. The borrowed text is not copied: deleting only shortens the
//! part that remains of it.

ghost use Rattle.std.specs.Prelude.{◌≡◌, ◌≤◌, ◌<◌, ◌-◌, ◌+◌, ◌^◌, [], ◌∷◌, ◌++◌, length, drop, take};
ghost use Rattle.kmn_base.specs.declared.limits.TheConstants.{EVENT_PUTS};
ghost use Rattle.kmn_base.specs.Lists.{characters, without_last};
ghost use Rattle.rule_model.specs.KeyEvent.{common_prefix};

use crate::Inserted;
use kmn_base::Item;
use kmn_base::slices::{before, behind};
use rule_model::common_prefix;
use std::marker::Model;

/// The characters before the caret while an event acts on them: the remaining characters of the borrowed text, followed by the
/// characters that were put.
#[derive(Drop)]
pub struct Standing<'a> {
    lent: &'a [char],
    stands: usize,
    buffer: Vec<char>,
    added: usize,
}

impl<'a> Model for Standing<'a> {
    ghost use Rattle.std.specs.Prelude.{◌≡◌, ◌≤◌, ◌<◌, ◌^◌, ◌++◌, length, take};
    ghost use Rattle.kmn_base.specs.declared.limits.TheConstants.{EVENT_PUTS};
    ghost use Rattle.event_text.specs.Texts.{StandingValue};

    ghost Value = { StandingValue };

    ghost view = { λ s. record {
      lent = s.lent.now;
      text = take s.stands s.lent.now ++ take s.added s.buffer.items;
      added = s.added;
    } };

    ghost invariant = { λ s. (s.stands ≤ length s.lent.now) × (length s.lent.now < 2 ^ 32)
        × (s.added ≤ EVENT_PUTS) × (length s.buffer.items ≡ EVENT_PUTS) };
}

impl<'a> Standing<'a> {
    /// Begins with all characters of a text. Discards the inserted characters of the previous event and reuses their buffer.
    pub fn of(lent: &'a [char], inserted: Inserted) -> Standing<'a>
        requires few { length lent.now < 2 ^ 32 }
        requires room { inserted.room ≡ EVENT_PUTS }
        ensures { result ≡ record { lent = lent.now; text = lent.now; added = 0 } }
    {
        Standing {
            lent,
            stands: lent.len(),
            buffer: inserted.into_buffer(),
            added: 0,
        }
    }

    /// Returns the number of characters.
    pub fn len(&self) -> usize
        ensures value { result ≡ length self.now.text }
        ensures small { length self.now.text < 2 ^ 33 }
    {
        self.stands + self.added
    }

    /// Returns the remaining characters of the borrowed text, and the characters that were put after them.
    pub fn parts(&self) -> (&[char], &[char])
        ensures text { result.0.now ++ result.1.now ≡ self.now.text }
        ensures small { length result.0.now + length result.1.now < 2 ^ 33 }
    {
        (&self.lent[..self.stands], &self.buffer[..self.added])
    }

    /// Puts a character.
    #[tactic(auto, using(crate::proofs::StandingTexts::pushed))]
    fn push(&mut self, c: char)
        requires { self.old.added < EVENT_PUTS }
        ensures { self.new ≡ record {
          lent = self.old.lent;
          text = self.old.text ++ c ∷ [];
          added = self.old.added + 1;
        } }
    {
        self.buffer[self.added] = c;
        self.added += 1;
    }

    /// Puts an item. A mark is not a character, so it does not change the text.
    pub fn put(&mut self, item: Item)
        requires { self.old.added < EVENT_PUTS }
        ensures lent { self.new.lent ≡ self.old.lent }
        ensures text { self.new.text ≡ self.old.text ++ characters (item ∷ []) }
        ensures added { self.new.added ≤ self.old.added + 1 }
    {
        if let Item::Char(c) = item {
            self.push(c);
        }
    }

    /// Removes the last `count` characters: first characters that were put, then characters of the borrowed text.
    #[tactic(auto, using(crate::proofs::StandingTexts::taken_from_added, crate::proofs::StandingTexts::taken_from_lent))]
    pub fn take(&mut self, count: usize)
        requires { count ≤ length self.old.text }
        ensures lent { self.new.lent ≡ self.old.lent }
        ensures text { self.new.text ≡ without_last count self.old.text }
        ensures added { self.new.added ≤ self.old.added }
    {
        if count <= self.added {
            self.added -= count;
        } else {
            self.stands -= count - self.added;
            self.added = 0;
        }
    }

    /// Returns the edit that turns the borrowed text into this text: the number of characters deleted at its end, and the characters
    /// inserted there.
    #[tactic(auto, using(crate::proofs::StandingTexts::edit_deletes, crate::proofs::StandingTexts::edit_inserts, rule_model::proofs::PlainLists::common_prefix_bound))]
    pub fn finish(self) -> (usize, Inserted)
        ensures deleted { result.0 ≡ length self.entry.lent - common_prefix self.entry.lent self.entry.text }
        ensures inserted { result.1.text ≡ drop (common_prefix self.entry.lent self.entry.text) self.entry.text }
        ensures room { result.1.room ≡ EVENT_PUTS }
        ensures small { result.0 < 2 ^ 32 }
        ensures few { length result.1.text ≤ EVENT_PUTS }
    {
        let gone = behind(self.lent, self.stands);
        let kept = common_prefix(gone, before(self.buffer.as_slice(), self.added));
        let deleted = gone.len() - kept;
        (deleted, Inserted::of(self.buffer, kept, self.added))
    }
}
