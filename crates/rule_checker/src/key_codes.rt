//! A set of codes of the key table, as an array with a flag for each code.

ghost use Rattle.std.specs.Prelude.{◌≡◌, ◌||◌};
ghost use Rattle.rule_checker.specs.KeyCodes.{has_code, is_table_code, joined, no_codes, with_code};

use virtual_keys::FIRST_OWN_CODE;

/// The number of codes that a set can mark: the codes below those of custom keys.
const ROOM: usize = FIRST_OWN_CODE as usize;

/// Returns whether at least one of two conditions is true.
pub(crate) fn either(one: bool, other: bool) -> bool
    ensures { result ≡ (one || other) }
{
    one || other
}

/// Returns whether a code is in the key table.
fn is_table_code(code: u16) -> bool
    ensures { result ≡ is_table_code code }
{
    0 < code && code < FIRST_OWN_CODE
}

/// A set of codes of the key table.
#[derive(Clone, Copy, Drop)]
pub struct KeyCodes {
    marks: [bool; ROOM],
}

impl KeyCodes {
    /// Creates an empty set.
    #[tactic(auto, unfolding(crate::specs::KeyCodes::no_codes))]
    pub fn new() -> KeyCodes
        ensures { result ≡ no_codes }
    {
        KeyCodes {
            marks: [false; ROOM],
        }
    }

    /// Returns whether a code is in the set.
    pub fn has(&self, code: u16) -> bool
        ensures { result ≡ has_code self.now code }
    {
        match self.marks.get(code as usize) {
            Some(mark) => *mark,
            None => false,
        }
    }

    /// Adds a code if it is in the key table.
    pub fn add(&mut self, code: u16)
        ensures { self.new ≡ with_code self.old code }
    {
        if is_table_code(code) {
            self.marks[code as usize] = true;
        }
    }

    /// Adds the codes of another set.
    pub fn join(&mut self, others: &KeyCodes)
        ensures { self.new ≡ joined self.old others.now }
    {
        for (code, mark) in self.marks.iter_mut().enumerate() {
            *mark = either(*mark, others.marks[code]);
        }
    }
}
