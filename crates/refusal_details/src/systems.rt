//! The names of system stores that a word is like.

ghost use Rattle.std.specs.Prelude.{◌≡◌, ◌++◌, IfOk, OnOk};
ghost use Rattle.refusal_details.specs.Nearest.{like_name};
ghost use Rattle.refusal_details.specs.Systems.{like_systems, system_name, systems_below};

use crate::nearest::{add_like, few};
use kmn_base::{Memory, Seq, Text};
use kmn_parser::system_store_name;
use std::alloc::Global;

/// A number above the ids of all system stores that a source can define and a file has.
const SYSTEM_IDS: u32 = 40;

/// Returns the names of supported system stores that a word is like. Errors: `Memory` if an allocation fails.
#[tactic(auto, unfolding(crate::specs::Systems::like_systems))]
pub(crate) fn like_systems(alloc: Global, word: &[u8]) -> Result<Seq<Text>, Memory>
    ensures { IfOk result (λ names. names ≡ like_systems word.now) }
{
    let names = all_like_systems(alloc, word)?;
    Ok(few(alloc, names))
}

/// Returns the names of all supported system stores that a word is like.
#[tactic(auto, using(crate::proofs::LikeSystems::none_below, crate::proofs::LikeSystems::one_more))]
fn all_like_systems(alloc: Global, word: &[u8]) -> Result<Seq<Text>, Memory>
    ensures { IfOk result (λ names. names ≡ systems_below word.now SYSTEM_IDS) }
{
    let mut names = Seq::new(alloc);
    for id in 0..SYSTEM_IDS {
        add_like_system(alloc, &mut names, word, id)?;
    }
    Ok(names)
}

/// Appends the name of the system store with an id, if there is one and a word is like it.
fn add_like_system(alloc: Global, names: &mut Seq<Text>, word: &[u8], id: u32) -> Result<(), Memory>
    ensures { OnOk result (names.new ≡ names.old ++ like_name word.now (system_name id)) }
{
    let name = system_name(alloc, id)?;
    add_like(alloc, names, word, name.as_slice())
}

/// Returns the name of the system store with an id, with its `&`, or an empty name.
#[tactic(auto, unfolding(crate::specs::Systems::system_name))]
fn system_name(alloc: Global, id: u32) -> Result<Text, Memory>
    ensures { IfOk result (λ name. name ≡ system_name id) }
{
    let bare = system_store_name(id);
    if bare.is_empty() {
        return Ok(Seq::new(alloc));
    }
    let mut name = Seq::from_slice(alloc, b"&")?;
    name.extend_from_slice(bare)?;
    Ok(name)
}
