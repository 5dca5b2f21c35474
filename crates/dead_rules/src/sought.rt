//! W07: rules that never take precedence.

ghost use Rattle.std.specs.Prelude.{◌≡◌, ◌++◌, [], ◌∷◌, IfOk, OnOk};
ghost use Rattle.kmx_format.specs.Writable.{IsWritable};
ghost use Rattle.dead_rules.specs.DeadRules.{dead_rule_warning, dead_warnings, explains, explains_at, is_explained, not_sought, unexplained};

use kmn_base::Memory;
use kmn_base::limits::SHADOW_RECORDS;
use kmx_format::rule_count;
use name_warnings::{Warning, WarningKind};
use rule_model::Tables;
use shadow_text::{DeadRule, found_dead};
use std::alloc::Global;

/// Returns W07 for tables, in addition to the warnings found: a warning at each dead rule that none of these explains, or a note if there
/// are too many records to search. Errors: `Memory` if an allocation fails.
#[tactic(auto, using(crate::proofs::Searched::many_noted, crate::proofs::Searched::few_searched))]
pub(crate) fn dead_warnings(
    alloc: Global,
    tables: &Tables,
    found: &[Warning],
) -> Result<Vec<Warning>, Memory>
    requires { IsWritable tables.now }
    ensures { IfOk result (λ dead. dead.items ≡ dead_warnings tables.now found.now) }
{
    let count = rule_count(tables.groups.as_slice());
    if count > SHADOW_RECORDS as u64 {
        let note = not_sought(alloc, count)?;
        return Ok(note);
    }
    let rules = found_dead(alloc, tables)?;
    let dead = unexplained(alloc, found, rules.as_slice())?;
    Ok(dead)
}

/// Returns the note that this many records are too many to search.
fn not_sought(alloc: Global, records: u64) -> Result<Vec<Warning>, Memory>
    ensures { IfOk result (λ note. note.items ≡ not_sought records ∷ []) }
{
    let mut note = Vec::new(alloc);
    note.push(Warning {
        line: 1,
        kind: WarningKind::NeverFirstNotSought { records },
    })?;
    Ok(note)
}

/// Returns a warning at each of these dead rules that none of the warnings found explains.
fn unexplained(alloc: Global, found: &[Warning], rules: &[DeadRule]) -> Result<Vec<Warning>, Memory>
    ensures { IfOk result (λ dead. dead.items ≡ unexplained found.now rules.now) }
{
    let mut dead = Vec::new(alloc);
    for rule in rules {
        add_unexplained(alloc, &mut dead, found, rule)?;
    }
    Ok(dead)
}

/// Appends a warning at a dead rule, unless one of the warnings found explains it.
fn add_unexplained(
    alloc: Global,
    dead: &mut Vec<Warning>,
    found: &[Warning],
    rule: &DeadRule,
) -> Result<(), Memory>
    ensures { OnOk result (dead.new.items ≡ dead.old.items ++ dead_rule_warning found.now rule.now) }
{
    if is_explained(found, rule.line) {
        return Ok(());
    }
    let lines = rule.before.copy(alloc)?;
    dead.push(Warning {
        line: rule.line,
        kind: WarningKind::NeverFirst { lines },
    })?;
    Ok(())
}

/// Returns whether one of these warnings says why the rule of a line never fires.
fn is_explained(found: &[Warning], line: u32) -> bool
    ensures { result ≡ is_explained found.now line }
{
    found.iter().any(|warning| explains_at(line, warning))
}

/// Returns whether a warning says why the rule of a line never fires.
fn explains_at(line: u32, warning: &Warning) -> bool
    ensures { result ≡ explains_at line warning.now }
{
    warning.line == line && explains(&warning.kind)
}

/// Returns whether a warning says why its rule never fires: W03, W09, W13 or W14.
#[tactic(auto, unfolding(crate::specs::DeadRules::explains))]
fn explains(kind: &WarningKind) -> bool
    ensures { result ≡ explains kind.now }
{
    match kind {
        WarningKind::MarkNeverPut { .. } => true,
        WarningKind::ContradictoryConditions => true,
        WarningKind::KeyNeverPressed => true,
        WarningKind::KeysNeverPressed { .. } => true,
        WarningKind::PatternWithoutElements { .. } => true,
        _ => false,
    }
}
