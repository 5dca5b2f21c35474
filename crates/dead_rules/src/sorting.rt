//! Sorts warnings by line, and at a line those after W07 to the end.

ghost use Rattle.std.specs.Prelude.{◌≡◌, IfOk};
ghost use Rattle.source_uses.specs.Lines.{in_lines};
ghost use Rattle.dead_rules.specs.DeadRules.{is_later, rank};

use kmn_base::Memory;
use name_warnings::{Warning, WarningKind};

/// Returns warnings in the order of their ranks. Those with one rank stay in their order. Errors: `Memory` if an allocation fails.
pub(crate) fn sort_by_rank(found: Vec<Warning>) -> Result<Vec<Warning>, Memory>
    ensures { IfOk result (λ sorted. sorted.items ≡ in_lines rank found.items) }
{
    let mut sorted = found;
    sorted.sort_by_key(
        |warning: &Warning| -> u64
            ensures { result ≡ rank warning.now }
        { rank(warning) },
    )?;
    Ok(sorted)
}

/// Returns the rank of a warning: twice its line, and one more if its code is after W07.
#[tactic(auto, unfolding(crate::specs::DeadRules::rank))]
fn rank(warning: &Warning) -> u64
    ensures { result ≡ rank warning.now }
{
    let line = u64::from(warning.line);
    if is_later(&warning.kind) {
        2 * line + 1
    } else {
        2 * line
    }
}

/// Returns whether the code of a warning is after W07.
#[tactic(auto, unfolding(crate::specs::DeadRules::is_later))]
fn is_later(kind: &WarningKind) -> bool
    ensures { result ≡ is_later kind.now }
{
    match kind {
        WarningKind::UnusedStore { .. } => false,
        WarningKind::MarkNeverSought { .. } => false,
        WarningKind::MarkNeverPut { .. } => false,
        WarningKind::GroupNeverEntered { .. } => false,
        WarningKind::ShorterIndex { .. } => false,
        WarningKind::RepeatedElement { .. } => false,
        WarningKind::NeverFirst { .. } => false,
        WarningKind::NeverFirstNotSought { .. } => false,
        _ => true,
    }
}
