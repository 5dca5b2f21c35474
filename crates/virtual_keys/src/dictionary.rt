//! The key dictionary: the names of a keyboard's custom keys, with a code for each.

ghost use Rattle.std.specs.Prelude.{◌≡◌, ◌+◌, ◌<◌, ◌≤◌, [], ◌∷◌, ◌++◌, Some, None, length, nat_le, option_copied, MatchResult, IfSome, IfOk};
ghost use Rattle.virtual_keys.specs.Dictionary.{AreDistinct, place_in, code_in, name_in, with_name};
ghost use Rattle.virtual_keys.specs.Entries.{written, AreEntries};

use indexmap::IndexMap;
use kmn_base::Memory;
use kmn_base::limits::KEY_NAMES;
use kmn_base::names::{in_lower_case, same_name};
use std::alloc::Global;
use std::marker::Model;

/// The code of a dictionary's first name. Lower codes belong to the keys that every keyboard has.
pub const FIRST_OWN_CODE: u16 = 256;

/// Names of at most this many bytes, as all names of 80 characters are, are looked up by hash. A longer name, which only files
/// have, is compared with each name, since a look-up does not allocate and so folds a name in a buffer.
const HASHED_BYTES: usize = 320;

/// The names of a keyboard's custom keys, distinct without ASCII case. Contracts model it as the list of the names, each in the
/// form in which it was first added.
pub struct KeyDictionary {
    alloc: Global,
    names: IndexMap<Vec<u8>, Vec<u8>>,
}

/// One call in proofs. A derived drop would be written out in each exit.
impl Drop for KeyDictionary {
    fn drop(self) {
        let KeyDictionary { alloc: _, names: _ } = self;
    }
}

impl Model for KeyDictionary {
    ghost use Rattle.std.specs.Prelude.{List, ℕ};
    ghost use Rattle.virtual_keys.specs.Entries.{written, AreEntries};

    ghost Value = { List (List ℕ) };

    ghost view = { λ d. written d.names.entries };

    ghost invariant = { λ d. AreEntries d.names.entries };
}

impl KeyDictionary {
    /// Creates a dictionary without names.
    pub fn new(alloc: Global) -> KeyDictionary
        ensures { result ≡ [] }
    {
        KeyDictionary {
            alloc,
            names: IndexMap::new(alloc),
        }
    }

    /// Returns whether no further name can be added: each code has 16 bits.
    pub fn is_full(&self) -> bool
        ensures { result ≡ nat_le KEY_NAMES (length self.now) }
    {
        self.names.len() >= KEY_NAMES
    }

    /// Adds a name if it is not the same as another, and returns the code of the name. Errors: `Memory` if an allocation fails.
    #[tactic(auto, unfolding(crate::specs::Dictionary::code_in))]
    pub fn add(&mut self, name: &[u8]) -> Result<u16, Memory>
        requires { length self.old < KEY_NAMES }
        ensures names { MatchResult result (λ code. (self.new ≡ with_name self.old name.now) × (code_in self.new name.now ≡ Some code)) (λ _. self.new ≡ self.old) }
        ensures distinct { AreDistinct self.new }
        ensures grows { length self.new ≤ length self.old + 1 }
    {
        let place = match self.place_of(name) {
            Some(place) => place,
            None => self.append(name)?,
        };
        Ok(FIRST_OWN_CODE + place as u16)
    }

    /// Returns the code of a name.
    #[tactic(auto, unfolding(crate::specs::Dictionary::code_in))]
    pub fn code_of(&self, name: &[u8]) -> Option<u16>
        ensures code { result ≡ code_in self.now name.now }
        ensures distinct { AreDistinct self.now }
    {
        let place = self.place_of(name)?;
        Some(FIRST_OWN_CODE + place as u16)
    }

    /// Returns the name of a code, in the form in which it was first added.
    pub fn name_at(&self, code: u16) -> Option<&[u8]>
        ensures { option_copied result ≡ name_in self.now code }
    {
        let place = code.checked_sub(FIRST_OWN_CODE)?;
        let (_, written) = self.names.get_index(usize::from(place))?;
        Some(written.as_slice())
    }

    /// Appends a new name and returns its index. Errors: `Memory` if an allocation fails.
    fn append(&mut self, name: &[u8]) -> Result<usize, Memory>
        requires room { length self.old < KEY_NAMES }
        requires new { place_in self.old name.now ≡ None }
        ensures names { MatchResult result (λ place. self.new ≡ self.old ++ name.now ∷ []) (λ _. self.new ≡ self.old) }
        ensures place { IfOk result (λ place. place_in self.new name.now ≡ Some place) }
        ensures few { IfOk result (λ place. place < KEY_NAMES) }
        ensures distinct { AreDistinct self.new }
    {
        let written = Vec::from_slice(self.alloc, name)?;
        let folded = in_lower_case(self.alloc, name)?;
        let place = self.names.len();
        self.names.insert(folded, written)?;
        Ok(place)
    }

    /// Returns the index of a name.
    fn place_of(&self, name: &[u8]) -> Option<usize>
        ensures place { result ≡ place_in self.now name.now }
        ensures few { IfSome result (λ place. place < KEY_NAMES) }
        ensures distinct { AreDistinct self.now }
    {
        if name.len() > HASHED_BYTES {
            compared_place(&self.names, name)
        } else {
            hashed_place(&self.names, name)
        }
    }
}

/// Returns the index of a name of any length, by comparing.
fn compared_place(names: &IndexMap<Vec<u8>, Vec<u8>>, name: &[u8]) -> Option<usize>
    ensures { result ≡ place_in (written names.now.entries) name.now }
{
    names
        .values()
        .position(|known| same_name(name, known.as_slice()))
}

/// Returns the index of a name that fits in a buffer, by the hash of the name in lower case.
fn hashed_place(names: &IndexMap<Vec<u8>, Vec<u8>>, name: &[u8]) -> Option<usize>
    requires entries { AreEntries names.now.entries }
    requires fits { length name.now ≤ HASHED_BYTES }
    ensures place { result ≡ place_in (written names.now.entries) name.now }
{
    let mut buffer = [0; HASHED_BYTES];
    let folded = &mut buffer[..name.len()];
    folded.copy_from_slice(name);
    folded.make_ascii_lowercase();
    names.get_index_of(&*folded)
}
