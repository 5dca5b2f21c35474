//! Which refusals of a source are printed, with their places and details.

ghost use Rattle.std.specs.Prelude.{◌≡◌, ◌++◌, option_to_list, IfOk};
ghost use Rattle.check_run.specs.Shown.{late, refused_lines, rest_count, sorted_lines};

use crate::findings::Findings;
use kmn_base::slices::{before, behind};
use kmn_base::{Memory, Refusal, Seq};
use refusal_details::explained;
use source_faults::sort_by_line;
use std::alloc::Global;

/// The number of refusals that are printed because of their lines. The one that compilation reports is always printed.
const SHOWN: usize = 100;

/// Returns what is found in the bytes of a source whose lines are refused. The first refusal is the one that compilation reports.
pub(crate) fn refused_lines(
    alloc: Global,
    bytes: &[u8],
    first: Refusal,
    refusals: &Seq<Refusal>,
) -> Result<Findings, Memory>
    ensures { IfOk result (λ found. found ≡ refused_lines bytes.now first refusals.now) }
{
    let sorted = sort_by_line(alloc, refusals.as_slice())?;
    sorted_lines(alloc, bytes, first, sorted.as_slice())
}

/// Returns what is found in the bytes of a source whose lines are refused, for its refusals in the order of lines.
fn sorted_lines(
    alloc: Global,
    bytes: &[u8],
    first: Refusal,
    sorted: &[Refusal],
) -> Result<Findings, Memory>
    ensures { IfOk result (λ found. found ≡ sorted_lines bytes.now first sorted.now) }
{
    let others = behind(sorted, SHOWN);
    let late = late(first, others);
    let shown = with_late(alloc, before(sorted, SHOWN), late)?;
    let errors = explained(alloc, bytes, shown.as_slice())?;
    Ok(Findings::Refused {
        first,
        errors,
        more: rest_count(others, late),
    })
}

/// Returns the refusal that compilation reports, if it is among the others.
fn late(first: Refusal, others: &[Refusal]) -> Option<Refusal>
    ensures { result ≡ late first others.now }
{
    for other in others {
        if other.line == first.line {
            return Some(*other);
        }
    }
    None
}

/// Returns refusals with another one, if there is one.
fn with_late(
    alloc: Global,
    refusals: &[Refusal],
    late: Option<Refusal>,
) -> Result<Seq<Refusal>, Memory>
    ensures { IfOk result (λ list. list ≡ refusals.now ++ option_to_list late) }
{
    let mut list = Seq::from_slice(alloc, refusals)?;
    if let Some(refusal) = late {
        list.add(refusal)?;
    }
    Ok(list)
}

/// Returns the number of the others that are not printed.
fn rest_count(others: &[Refusal], late: Option<Refusal>) -> usize
    ensures { result ≡ rest_count others.now late }
{
    match late {
        Some(_) => others.len().saturating_sub(1),
        None => others.len(),
    }
}
