//! The refusals of a source, each with its place and its detail.

ghost use Rattle.std.specs.Prelude.{◌≡◌, ◌≤◌, length, map, IfOk};
ghost use Rattle.kmn_base.specs.declared.limits.TheConstants.{TEXT_BYTES};
ghost use Rattle.refusal_details.specs.Explained.{explained, explained_in, explained_text, unexplained, unreadable};

use crate::definitions::{KnownNames, stated_names};
use crate::detail::{Detail, Explained, unexplained};
use crate::details::detail_in;
use kmn_base::limits::TEXT_BYTES;
use kmn_base::{Memory, Refusal, Seq};
use refusal_places::{behind_bytes, placed_in};
use source_faults::name_faults;
use source_names::NameFault;
use std::alloc::Global;
use std::str;

/// Returns refusals of a source in their order, each with its place and its detail. The lines of the source are read up to the one of each
/// refusal, so this is meant for as many refusals as are printed. Errors: `Memory` if an allocation fails.
#[tactic(auto, using(crate::proofs::ExplainedBytes::long_unexplained))]
pub fn explained(
    alloc: Global,
    source: &[u8],
    refusals: &[Refusal],
) -> Result<Seq<Explained>, Memory>
    ensures { IfOk result (λ list. list ≡ explained source.now refusals.now) }
{
    if source.len() > TEXT_BYTES {
        return all_unexplained(alloc, refusals);
    }
    match str::from_utf8(source) {
        Ok(text) => explained_text(alloc, text, refusals),
        Err(error) => all_unreadable(alloc, source, error.valid_up_to(), refusals),
    }
}

/// Returns refusals at the starts of their lines, without details.
fn all_unexplained(alloc: Global, refusals: &[Refusal]) -> Result<Seq<Explained>, Memory>
    ensures { IfOk result (λ list. list ≡ map unexplained refusals.now) }
{
    let mut list = Seq::new(alloc);
    for refusal in refusals {
        list.add(unexplained(*refusal))?;
    }
    Ok(list)
}

/// Returns refusals of bytes at the byte after this many bytes, without details.
fn all_unreadable(
    alloc: Global,
    source: &[u8],
    size: usize,
    refusals: &[Refusal],
) -> Result<Seq<Explained>, Memory>
    requires { length source.now ≤ TEXT_BYTES }
    ensures { IfOk result (λ list. list ≡ map (unreadable source.now size) refusals.now) }
{
    let mut list = Seq::new(alloc);
    for refusal in refusals {
        list.add(unreadable(source, size, *refusal))?;
    }
    Ok(list)
}

/// Returns a refusal of bytes at the byte after this many bytes, without a detail.
fn unreadable(source: &[u8], size: usize, refusal: Refusal) -> Explained
    requires { length source.now ≤ TEXT_BYTES }
    ensures { result ≡ unreadable source.now size refusal }
{
    Explained {
        placed: behind_bytes(source, size, refusal),
        detail: Detail::Nothing,
    }
}

/// Returns refusals of a source in UTF-8, each with its place and its detail.
#[tactic(auto, unfolding(crate::specs::Explained::explained_text))]
fn explained_text(
    alloc: Global,
    source: &str,
    refusals: &[Refusal],
) -> Result<Seq<Explained>, Memory>
    requires { length source.now ≤ TEXT_BYTES }
    ensures { IfOk result (λ list. list ≡ explained_text source.now refusals.now) }
{
    let faults = name_faults(alloc, source)?;
    let names = stated_names(alloc, source)?;
    all_explained(alloc, source, faults.as_slice(), &names, refusals)
}

/// Returns refusals, each with its place and its detail, for the causes for which names refuse lines and the names that the source defines.
fn all_explained(
    alloc: Global,
    source: &str,
    faults: &[NameFault],
    names: &KnownNames,
    refusals: &[Refusal],
) -> Result<Seq<Explained>, Memory>
    requires { length source.now ≤ TEXT_BYTES }
    ensures { IfOk result (λ list. list ≡ map (explained_in source.now faults.now names.now) refusals.now) }
{
    let mut list = Seq::new(alloc);
    for refusal in refusals {
        list.add(explained_in(alloc, source, faults, names, *refusal)?)?;
    }
    Ok(list)
}

/// Returns a refusal of a source in UTF-8 with its place and its detail.
#[tactic(auto, unfolding(crate::specs::Explained::explained_in))]
fn explained_in(
    alloc: Global,
    source: &str,
    faults: &[NameFault],
    names: &KnownNames,
    refusal: Refusal,
) -> Result<Explained, Memory>
    requires { length source.now ≤ TEXT_BYTES }
    ensures { IfOk result (λ found. found ≡ explained_in source.now faults.now names.now refusal) }
{
    let placed = placed_in(alloc, source, faults, refusal)?;
    let detail = detail_in(alloc, source, faults, names, refusal)?;
    Ok(Explained { placed, detail })
}
