//! A table of names that finds a name by hash, without ASCII case.

ghost use Rattle.std.specs.Prelude.{◌≡◌, ◌≤◌, ◌<◌, None, [], ◌∷◌, ◌++◌, length, MatchResult, IfOk, OnOk, IfSome, IsSome};
ghost use Rattle.std.specs.Str.{str_to_ascii_lowercase, bytes_eq};
ghost use Rattle.std.specs.Map.{lookup};
ghost use Rattle.virtual_keys.specs.Dictionary.{place_in, with_name};
ghost use Rattle.store_table.specs.Names.{is_named};
ghost use Rattle.store_table.specs.Places.{written};

use indexmap::IndexMap;
use kmn_base::Memory;
use kmn_base::names::{in_lower_case, same_name};
use std::alloc::Global;
use std::marker::Model;

/// Names of at most this many bytes, as all names of 80 characters are, are looked up by hash. A longer name is compared with
/// each name, since a look-up does not allocate and so folds a name in a buffer.
const HASHED_BYTES: usize = 320;

/// A list of names in which a name is found without ASCII case. Contracts model it as the list of the names as appended,
/// including repeated names.
pub struct NameTable {
    alloc: Global,
    names: Vec<Vec<u8>>,
    places: IndexMap<Vec<u8>, usize>,
}

/// One call in proofs. A derived drop would be written out in each exit.
impl Drop for NameTable {
    fn drop(self) {
        let NameTable {
            alloc: _,
            names: _,
            places: _,
        } = self;
    }
}

impl Model for NameTable {
    ghost use Rattle.std.specs.Prelude.{List, ℕ};
    ghost use Rattle.store_table.specs.Places.{written, ArePlaces};

    ghost Value = { List (List ℕ) };

    ghost view = { λ t. written t.names.items };

    ghost invariant = { λ t. ArePlaces (written t.names.items) t.places.entries };
}

impl NameTable {
    /// Creates a table without names.
    pub fn new(alloc: Global) -> NameTable
        ensures { result ≡ [] }
    {
        NameTable {
            alloc,
            names: Vec::new(alloc),
            places: IndexMap::new(alloc),
        }
    }

    /// Appends a name. Errors: `Memory` if an allocation fails; the table is then unchanged.
    pub fn push(&mut self, name: &[u8]) -> Result<(), Memory>
        ensures { MatchResult result (λ _. self.new ≡ self.old ++ name.now ∷ []) (λ _. self.new ≡ self.old) }
    {
        let copy = Vec::from_slice(self.alloc, name)?;
        match self.place_of(name) {
            Some(_) => self.push_again(copy),
            None => self.push_new(copy),
        }
    }

    /// Appends a name if it is new. Errors: `Memory` if an allocation fails.
    #[tactic(auto, unfolding(crate::specs::Names::is_named))]
    pub fn add_new(&mut self, name: &[u8]) -> Result<(), Memory>
        ensures { OnOk result (self.new ≡ with_name self.old name.now) }
    {
        if self.has(name) {
            Ok(())
        } else {
            self.push(name)
        }
    }

    /// Returns the number of names that were appended.
    pub fn len(&self) -> usize
        ensures { result ≡ length self.now }
    {
        self.names.len()
    }

    /// Returns whether the table contains a name.
    #[tactic(auto, unfolding(crate::specs::Names::is_named))]
    pub fn has(&self, name: &[u8]) -> bool
        ensures { result ≡ is_named self.now name.now }
    {
        self.place_of(name).is_some()
    }

    /// Returns the first index of a name.
    pub fn place_of(&self, name: &[u8]) -> Option<usize>
        ensures { result ≡ place_in self.now name.now }
    {
        if name.len() > HASHED_BYTES {
            compared_place(self.names.as_slice(), name)
        } else {
            hashed_place(&self.places, name)
        }
    }

    /// Appends a name that the table already contains. Errors: `Memory` if an allocation fails; the table is then unchanged.
    #[tactic(auto, using(crate::proofs::PlaceLemmas::again_are_places, crate::proofs::PlaceLemmas::written_push))]
    fn push_again(&mut self, name: Vec<u8>) -> Result<(), Memory>
        requires { IsSome (place_in self.old name.items) }
        ensures { MatchResult result (λ _. self.new ≡ self.old ++ name.items ∷ []) (λ _. self.new ≡ self.old) }
    {
        self.names.push(name)?;
        Ok(())
    }

    /// Appends a new name. Errors: `Memory` if an allocation fails; the table is then unchanged.
    fn push_new(&mut self, name: Vec<u8>) -> Result<(), Memory>
        requires { place_in self.old name.items ≡ None }
        ensures { MatchResult result (λ _. self.new ≡ self.old ++ name.items ∷ []) (λ _. self.new ≡ self.old) }
    {
        let folded = in_lower_case(self.alloc, name.as_slice())?;
        let place = self.names.len();
        self.names.push(name)?;
        match self.places.insert(folded, place) {
            Ok(_) => Ok(()),
            Err(_) => {
                self.names.pop();
                Err(Memory)
            }
        }
    }
}

/// Returns the first index of a name of any length, by comparing.
#[tactic(auto, using(crate::proofs::PlaceLemmas::place_next, crate::proofs::PlaceLemmas::place_from_start))]
fn compared_place(names: &[Vec<u8>], name: &[u8]) -> Option<usize>
    ensures { result ≡ place_in (written names.now) name.now }
{
    for (place, known) in names.iter().enumerate() {
        if same_name(name, known.as_slice()) {
            return Some(place);
        }
    }
    None
}

/// Returns the first index of a name that fits in a buffer, by the hash of the name in lower case.
fn hashed_place(places: &IndexMap<Vec<u8>, usize>, name: &[u8]) -> Option<usize>
    requires { length name.now ≤ HASHED_BYTES }
    ensures { result ≡ lookup (λ key. bytes_eq (str_to_ascii_lowercase name.now) key.items) places.now.entries }
{
    let mut buffer = [0; HASHED_BYTES];
    let folded = &mut buffer[..name.len()];
    folded.copy_from_slice(name);
    folded.make_ascii_lowercase();
    let place = places.get(&*folded)?;
    Some(*place)
}
