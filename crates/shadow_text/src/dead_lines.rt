//! The rules found to be dead, by their lines.

ghost use Rattle.std.specs.Prelude.{◌≡◌, ◌++◌, [], filter, map, unwrap_or, IfOk, OnOk};
ghost use Rattle.kmx_format.specs.Writable.{IsWritable};
ghost use Rattle.shadow_text.specs.DeadLines.{dead_list, dead_rule, found_dead, is_dead, lines_before, rule_lines};

use crate::verdicts::{Verdict, verdicts};
use kmn_base::{Memory, Seq, rising_lines};
use rule_model::Tables;
use std::alloc::{AllocError, Global};

/// A rule that never fires, by its line, and the lines found for its records in increasing order. Whenever the rule would hold, a rule of
/// one of these lines is earlier and holds too. Lines count from 1.
#[derive(Drop)]
pub struct DeadRule {
    pub line: u32,
    pub before: Seq<u32>,
}

/// Returns the rules of the tables of a compiled keyboard that are found to be dead, in the order of lines. Errors: `Memory` if an
/// allocation fails.
#[tactic(auto, unfolding(crate::specs::DeadLines::found_dead))]
pub fn found_dead(alloc: Global, tables: &Tables) -> Result<Vec<DeadRule>, Memory>
    requires { IsWritable tables.now }
    ensures { IfOk result (λ rules. rules.items ≡ found_dead tables.now) }
{
    let all = verdicts(alloc, tables)?;
    let rules = dead_list(alloc, all.as_slice())?;
    Ok(rules)
}

/// Returns the rules that have something found for each of their records, in the order of lines.
#[tactic(auto, unfolding(crate::specs::DeadLines::dead_list))]
fn dead_list(alloc: Global, all: &[Verdict]) -> Result<Vec<DeadRule>, Memory>
    ensures { IfOk result (λ rules. rules.items ≡ dead_list all.now) }
{
    let lines = rule_lines(alloc, all)?;
    let dead = dead_among(alloc, all, lines.as_slice())?;
    let rules = rules_at(alloc, all, dead.as_slice())?;
    Ok(rules)
}

/// Returns the dead rules of lines.
fn rules_at(alloc: Global, all: &[Verdict], dead: &[u32]) -> Result<Vec<DeadRule>, Memory>
    ensures { IfOk result (λ rules. rules.items ≡ map (dead_rule all.now) dead.now) }
{
    let mut rules = Vec::new(alloc);
    for line in dead {
        rules.push(dead_rule(alloc, all, *line)?)?;
    }
    Ok(rules)
}

/// Returns the dead rule of a line.
fn dead_rule(alloc: Global, all: &[Verdict], line: u32) -> Result<DeadRule, Memory>
    ensures { IfOk result (λ rule. rule ≡ dead_rule all.now line) }
{
    let before = lines_before(alloc, all, line)?;
    Ok(DeadRule { line, before })
}

/// Returns the lines of the records, each once, in increasing order.
pub(crate) fn rule_lines(alloc: Global, all: &[Verdict]) -> Result<Seq<u32>, Memory>
    ensures { IfOk result (λ lines. lines ≡ rule_lines all.now) }
{
    let mut lines = Vec::new(alloc);
    for verdict in all {
        lines.push(verdict.line)?;
    }
    rising_lines(alloc, lines.as_slice())
}

/// Returns the lines that have something found for each of their records.
pub(crate) fn dead_among(alloc: Global, all: &[Verdict], lines: &[u32]) -> Result<Vec<u32>, Memory>
    ensures { IfOk result (λ dead. dead.items ≡ filter (is_dead all.now) lines.now) }
{
    let mut dead = Vec::new(alloc);
    for line in lines {
        if is_dead(all, *line) {
            dead.push(*line)?;
        }
    }
    Ok(dead)
}

/// Returns whether something was found for each record of a line.
fn is_dead(all: &[Verdict], line: u32) -> bool
    ensures { result ≡ is_dead all.now line }
{
    for verdict in all {
        if verdict.line == line && verdict.by.is_none() {
            return false;
        }
    }
    true
}

/// Returns the lines of the records found for the records of a line, each once, in increasing order.
pub(crate) fn lines_before(alloc: Global, all: &[Verdict], line: u32) -> Result<Seq<u32>, Memory>
    ensures { IfOk result (λ lines. lines ≡ lines_before all.now line) }
{
    let mut lines = Vec::new(alloc);
    for verdict in all {
        if verdict.line == line {
            put_lines(&mut lines, verdict)?;
        }
    }
    rising_lines(alloc, lines.as_slice())
}

/// Appends the lines of the records found for a record.
fn put_lines(lines: &mut Vec<u32>, verdict: &Verdict) -> Result<(), AllocError>
    ensures { OnOk result (lines.new.items ≡ lines.old.items ++ unwrap_or verdict.now.by []) }
{
    match &verdict.by {
        Some(by) => lines.extend_from_slice(by.as_slice()),
        None => Ok(()),
    }
}
