//! The places of the refusals of a source.

ghost use Rattle.std.specs.Prelude.{◌≡◌, ◌≤◌, length, take, drop, IfOk};
ghost use Rattle.kmn_base.specs.declared.limits.TheConstants.{TEXT_BYTES};
ghost use Rattle.kmn_lines.specs.Lines.{logicals};
ghost use Rattle.kmn_lines.specs.Places.{IsPlaced};
ghost use Rattle.refusal_places.specs.Columns.{column_behind};
ghost use Rattle.refusal_places.specs.Placed.{is_of_whole, placed_among, placed_at, placed_in};
ghost use Rattle.refusal_places.specs.Spots.{spot_in};

use crate::columns::column_behind;
use crate::names::name_at;
use crate::placed_refusal::{Placed, at_start};
use crate::spot::Spot;
use crate::spots::spot_in;
use kmn_base::slices::{before, behind};
use kmn_base::{Code, Memory, Refusal};
use kmn_lines::{Logical, lines};
use source_names::NameFault;
use std::alloc::Global;

/// Returns a refusal of a source in UTF-8 with its place, for the causes for which names refuse lines of the source. The lines of the
/// source are read up to the one of the refusal, so this is meant for refusals that are printed. Errors: `Memory` if an allocation fails.
#[tactic(auto, unfolding(crate::specs::Placed::placed_in))]
pub fn placed_in(
    alloc: Global,
    source: &str,
    faults: &[NameFault],
    refusal: Refusal,
) -> Result<Placed, Memory>
    requires { length source.now ≤ TEXT_BYTES }
    ensures { IfOk result (λ found. found ≡ placed_in source.now faults.now refusal) }
{
    if is_of_whole(refusal.code) {
        return Ok(at_start(refusal));
    }
    placed_among(alloc, source, refusal, name_at(refusal.line, faults))
}

/// Returns whether a code is about the source or the program as a whole.
fn is_of_whole(code: Code) -> bool
    ensures { result ≡ is_of_whole code }
{
    match code {
        Code::L01 | Code::L05 | Code::C01 | Code::C19 | Code::C20 | Code::C21 | Code::C22 => true,
        _ => false,
    }
}

/// Returns a refusal with its place in the line that has its number.
#[tactic(auto, using(kmn_parser::proofs::LineLemmas::by_recursion))]
fn placed_among(
    alloc: Global,
    source: &str,
    refusal: Refusal,
    name: &[u8],
) -> Result<Placed, Memory>
    requires { length source.now ≤ TEXT_BYTES }
    ensures { IfOk result (λ found. found ≡ placed_among source.now refusal name.now (logicals source.now)) }
{
    for logical in lines(source) {
        if logical.first_line == refusal.line {
            return placed_on(alloc, source, logical, refusal, name);
        }
    }
    Ok(at_start(refusal))
}

/// Returns a refusal of a logical line with its place.
fn placed_on(
    alloc: Global,
    source: &str,
    logical: Logical,
    refusal: Refusal,
    name: &[u8],
) -> Result<Placed, Memory>
    requires few { length source.now ≤ TEXT_BYTES }
    requires placed { IsPlaced source.now logical }
    ensures { IfOk result (λ found. found ≡ placed_at source.now logical refusal (spot_in source.now logical refusal.code name.now)) }
{
    let spot = spot_in(alloc, source, logical, refusal.code, name)?;
    Ok(placed_at(source.as_bytes(), logical, refusal, spot))
}

/// Returns a refusal of a logical line at the spot of a token.
fn placed_at(source: &[u8], logical: Logical, refusal: Refusal, spot: Option<Spot>) -> Placed
    requires { length source.now ≤ TEXT_BYTES }
    ensures { result ≡ placed_at source.now logical refusal spot }
{
    match spot {
        Some(spot) => Placed {
            line: spot.line,
            column: column_to(source, logical.from, spot.at),
            code: refusal.code,
        },
        None => at_start(refusal),
    }
}

/// Returns the column of a position in the source, behind the beginning of a line.
fn column_to(source: &[u8], from: u32, at: usize) -> usize
    requires { length source.now ≤ TEXT_BYTES }
    ensures { result ≡ column_behind (drop from (take at source.now)) }
{
    column_behind(behind(before(source, at), from as usize))
}
