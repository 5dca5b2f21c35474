//! The characters that an event inserted, and their buffer, which passes from one event to the next.

ghost use Rattle.std.specs.Prelude.{◌≡◌, ◌≤◌, [], IfOk, drop, take, length};
ghost use Rattle.kmn_base.specs.declared.limits.TheConstants.{EVENT_PUTS};

use kmn_base::Memory;
use kmn_base::limits::EVENT_PUTS;
use kmn_base::slices::{before, behind};
use std::alloc::Global;
use std::marker::Model;

/// The characters that an event inserted, in a buffer. The next event puts its characters into the same buffer, so no event
/// allocates.
#[derive(Drop)]
pub struct Inserted {
    buffer: Vec<char>,
    from: usize,
    to: usize,
}

impl Model for Inserted {
    ghost use Rattle.std.specs.Prelude.{drop, take, length};
    ghost use Rattle.event_text.specs.Texts.{InsertedValue};

    ghost Value = { InsertedValue };

    ghost view = { λ inserted. record {
      text = drop inserted.from (take inserted.to inserted.buffer.items);
      room = length inserted.buffer.items;
    } };
}

impl Inserted {
    /// Returns no characters, without capacity for an event.
    pub fn without_capacity(alloc: Global) -> Inserted
        ensures { result ≡ record { text = []; room = 0 } }
    {
        Inserted {
            buffer: Vec::new(alloc),
            from: 0,
            to: 0,
        }
    }

    /// Creates a buffer with capacity for as many characters as an event may put, and no inserted characters.
    pub fn with_capacity(alloc: Global) -> Result<Inserted, Memory>
        ensures { IfOk result (λ inserted. inserted ≡ record { text = []; room = EVENT_PUTS }) }
    {
        Ok(Inserted {
            buffer: vec![in alloc; ' '; EVENT_PUTS as usize]?,
            from: 0,
            to: 0,
        })
    }

    /// Returns the characters from one index of a buffer to another.
    pub fn of(buffer: Vec<char>, from: usize, to: usize) -> Inserted
        ensures { result ≡ record { text = drop from (take to buffer.items); room = length buffer.items } }
    {
        Inserted { buffer, from, to }
    }

    /// Copies the characters, with a separate buffer of the same capacity.
    pub fn copy(&self, alloc: Global) -> Result<Inserted, Memory>
        ensures { IfOk result (λ inserted. inserted ≡ self.now) }
    {
        Ok(Inserted {
            buffer: Vec::from_slice(alloc, self.buffer.as_slice())?,
            from: self.from,
            to: self.to,
        })
    }

    /// Returns the characters.
    pub fn as_slice(&self) -> &[char]
        ensures value { result.now ≡ self.now.text }
        ensures few { length result.now ≤ self.now.room }
    {
        behind(before(self.buffer.as_slice(), self.to), self.from)
    }

    /// Returns the buffer, into which an event puts its characters.
    pub(crate) fn into_buffer(self) -> Vec<char>
        ensures { length result.items ≡ self.room }
    {
        self.buffer
    }
}
