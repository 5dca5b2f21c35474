//! The names that a word is like.

ghost use Rattle.std.specs.Prelude.{◌≡◌, ◌++◌, flat_map, IfOk, OnOk};
ghost use Rattle.refusal_details.specs.Nearest.{are_many, few, is_like, lacked, like_definition, like_name};

use crate::definitions::Definition;
use crate::detail::Detail;
use crate::letters::is_near;
use crate::words::worded;
use kmn_base::{Memory, Seq, Text};
use std::alloc::Global;

/// The largest number of names that are returned for a word.
const NEAR_NAMES: usize = 3;

/// Returns a name that is not defined, with the defined names that it is like. Errors: `Memory` if an allocation fails.
#[tactic(auto, unfolding(crate::specs::Nearest::lacked))]
pub(crate) fn lacked(
    alloc: Global,
    name: &[u8],
    definitions: &[Definition],
) -> Result<Detail, Memory>
    ensures { IfOk result (λ detail. detail ≡ lacked name.now definitions.now) }
{
    let near = like_definitions(alloc, name, definitions)?;
    let word = Seq::from_slice(alloc, name)?;
    Ok(worded(word, few(alloc, near)))
}

/// Returns the names of definitions that a word is like.
fn like_definitions(
    alloc: Global,
    word: &[u8],
    definitions: &[Definition],
) -> Result<Seq<Text>, Memory>
    ensures { IfOk result (λ near. near ≡ flat_map (like_definition word.now) definitions.now) }
{
    let mut near = Seq::new(alloc);
    for definition in definitions {
        add_like(alloc, &mut near, word, definition.name.as_slice())?;
    }
    Ok(near)
}

/// Appends a name, if a word is like it. Errors: `Memory` if an allocation fails.
pub(crate) fn add_like(
    alloc: Global,
    near: &mut Seq<Text>,
    word: &[u8],
    name: &[u8],
) -> Result<(), Memory>
    ensures { OnOk result (near.new ≡ near.old ++ like_name word.now name.now) }
{
    if is_like(word, name) {
        near.add(Seq::from_slice(alloc, name)?)?;
    }
    Ok(())
}

/// Returns whether a word is like a name.
#[tactic(auto, unfolding(crate::specs::Nearest::is_like))]
pub(crate) fn is_like(word: &[u8], name: &[u8]) -> bool
    ensures { result ≡ is_like word.now name.now }
{
    !name.is_empty() && is_near(word, name)
}

/// Returns names, or none if there are too many.
#[tactic(auto, unfolding(crate::specs::Nearest::few))]
pub(crate) fn few(alloc: Global, names: Seq<Text>) -> Seq<Text>
    ensures { result ≡ few names }
{
    if are_many(names.as_slice()) {
        Seq::new(alloc)
    } else {
        names
    }
}

/// Returns whether names are too many to be of help.
fn are_many(names: &[Text]) -> bool
    ensures { result ≡ are_many names.now }
{
    NEAR_NAMES < names.len()
}
