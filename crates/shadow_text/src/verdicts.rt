//! What is found for each record of a keyboard, by lines of the source.

ghost use Rattle.std.specs.Prelude.{◌≡◌, ◌≤◌, ◌++◌, length, filter_map, IfOk, OnOk};
ghost use Rattle.kmn_base.specs.declared.limits.TheConstants.{RECORDS};
ghost use Rattle.kmn_base.specs.Rising.{rising};
ghost use Rattle.kmx_format.specs.Writable.{IsWritable};
ghost use Rattle.shadow_text.specs.Verdicts.{line_at, found_lines, verdict_of, group_verdicts, verdicts};

use kmn_base::{Memory, Seq, rising_lines};
use rule_model::{Rule, Tables};
use rule_shadow::{Finder, Found};
use std::alloc::Global;

/// The line of a record and, if something was found for it, the lines of the found records in increasing order.
#[derive(Drop)]
pub(crate) struct Verdict {
    pub line: u32,
    pub by: Option<Seq<u32>>,
}

/// Returns what is found for each record, group by group.
#[tactic(auto, using(crate::proofs::Groups::few_in_group), unfolding(crate::specs::Verdicts::verdicts))]
pub(crate) fn verdicts(alloc: Global, tables: &Tables) -> Result<Vec<Verdict>, Memory>
    requires { IsWritable tables.now }
    ensures { IfOk result (λ all. all.items ≡ verdicts tables.now) }
{
    let finder = Finder::new(alloc, tables)?;
    let groups = tables.groups.as_slice();
    let mut all = Vec::new(alloc);
    for group in 0..groups.len() {
        let search = GroupSearch {
            finder: &finder,
            group: group as u32,
            rules: groups[group].rules.as_slice(),
        };
        put_group(alloc, &search, &mut all)?;
    }
    Ok(all)
}

/// Appends what is found for each record of a group.
fn put_group(alloc: Global, search: &GroupSearch, verdicts: &mut Vec<Verdict>) -> Result<(), Memory>
    requires { length search.now.rules.now ≤ RECORDS }
    ensures { OnOk result (verdicts.new.items ≡ verdicts.old.items ++ group_verdicts search.now.finder.now search.now.group search.now.rules.now) }
{
    for number in 0..search.rules.len() {
        let verdict = verdict_of(alloc, search, number as u32, &search.rules[number])?;
        verdicts.push(verdict)?;
    }
    Ok(())
}

/// Returns what is found for a record, which has this number in the group.
fn verdict_of(
    alloc: Global,
    search: &GroupSearch,
    number: u32,
    rule: &Rule,
) -> Result<Verdict, Memory>
    ensures { IfOk result (λ verdict. verdict ≡ verdict_of search.now.finder.now search.now.group search.now.rules.now number rule.now) }
{
    let found = search.finder.found(alloc, search.group, number)?;
    let by = found_lines(alloc, search.rules, found)?;
    Ok(Verdict {
        line: rule.line,
        by,
    })
}

/// Returns the lines of the found records, or `None` if nothing was found.
fn found_lines(alloc: Global, rules: &[Rule], found: Found) -> Result<Option<Seq<u32>>, Memory>
    ensures { IfOk result (λ lines. lines ≡ found_lines rules.now found) }
{
    match found {
        Found::NotFound => Ok(None),
        Found::ByRule(number) => {
            let lines = lines_of(alloc, rules, &[number])?;
            Ok(Some(lines))
        }
        Found::SplitAt(_, numbers) => {
            let lines = lines_of(alloc, rules, numbers.as_slice())?;
            Ok(Some(lines))
        }
    }
}

/// A group with its number and its records, and the finder of the records that cover one.
#[derive(Clone, Copy)]
struct GroupSearch<'a> {
    finder: &'a Finder<'a>,
    group: u32,
    rules: &'a [Rule],
}

/// Returns the lines of the records of some numbers, each once, in increasing order.
fn lines_of(alloc: Global, rules: &[Rule], numbers: &[u32]) -> Result<Seq<u32>, Memory>
    ensures { IfOk result (λ lines. lines ≡ rising (filter_map (line_at rules.now) numbers.now)) }
{
    let lines = lines_at(alloc, rules, numbers)?;
    rising_lines(alloc, lines.as_slice())
}

/// Returns the lines of the records of some numbers.
fn lines_at(alloc: Global, rules: &[Rule], numbers: &[u32]) -> Result<Vec<u32>, Memory>
    ensures { IfOk result (λ lines. lines.items ≡ filter_map (line_at rules.now) numbers.now) }
{
    let mut lines = Vec::new(alloc);
    for number in numbers {
        if let Some(line) = line_at(rules, *number) {
            lines.push(line)?;
        }
    }
    Ok(lines)
}

/// Returns the line of the record of a number.
fn line_at(rules: &[Rule], number: u32) -> Option<u32>
    ensures { result ≡ line_at rules.now number }
{
    rules.get(number as usize).map(|rule| rule.line)
}
