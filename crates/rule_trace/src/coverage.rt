//! Counts how often each line of a keyboard is selected.

ghost use Rattle.std.specs.Prelude.{◌≡◌, ◌<◌, nat_lt, [], ◌∷◌, ◌++◌, All, IfOk, OnOk, length, map, slice_index_or};
ghost use Rattle.std.specs.List.{Contains};
ghost use Rattle.std.specs.List.Sorted.{IsStrictlyIncreasing};
ghost use Rattle.rule_trace.specs.declared.coverage.Hit.{Hit};
ghost use Rattle.rule_trace.specs.Coverage.{rule_lines, record_lines, lines_of_tables, hit_lines, not_chosen, once_more, with_lines, AreLinesOf};

use kmn_base::{Memory, Seq, rising_lines};
use rule_model::{Rule, Tables};
use std::alloc::Global;
use std::marker::Model;

/// A line of a record, and how often it was selected.
#[derive(Clone, Copy)]
pub struct Hit {
    pub line: u32,
    /// Saturates at the maximum of its type.
    pub count: u32,
}

/// The number of times that each line of a record was selected. Contracts model it as its hits.
#[derive(Drop)]
pub struct Coverage {
    hits: Vec<Hit>,
}

impl Model for Coverage {
    ghost use Rattle.std.specs.Prelude.{List};
    ghost use Rattle.std.specs.List.Sorted.{IsStrictlyIncreasing};
    ghost use Rattle.rule_trace.specs.declared.coverage.Hit.{Hit};
    ghost use Rattle.rule_trace.specs.Coverage.{hit_lines};

    ghost Value = { List Hit };

    ghost view = { λ coverage. coverage.hits.items };

    ghost invariant = { λ coverage. IsStrictlyIncreasing (hit_lines coverage.hits.items) };
}

/// Appends the lines of records.
fn put_lines(lines: &mut Vec<u32>, rules: &[Rule]) -> Result<(), Memory>
    ensures { OnOk result (lines.new.items ≡ lines.old.items ++ rule_lines rules.now) }
{
    for rule in rules {
        lines.push(rule.line)?;
    }
    Ok(())
}

/// Returns the lines of all records, in the order of the records.
fn record_lines(alloc: Global, tables: &Tables) -> Result<Vec<u32>, Memory>
    ensures { IfOk result (λ lines. lines.items ≡ record_lines tables.now) }
{
    let mut lines = Vec::new(alloc);
    for group in tables.groups.as_slice() {
        put_lines(&mut lines, group.rules.as_slice())?;
    }
    Ok(lines)
}

/// Returns the lines of all records, each once, in increasing order.
#[tactic(auto, unfolding(crate::specs::Coverage::lines_of_tables))]
fn lines_of_tables(alloc: Global, tables: &Tables) -> Result<Seq<u32>, Memory>
    ensures { IfOk result (λ lines. lines ≡ lines_of_tables tables.now) }
{
    let lines = record_lines(alloc, tables)?;
    rising_lines(alloc, lines.as_slice())
}

/// Returns hits with the count 0 for lines.
fn not_chosen(alloc: Global, lines: &[u32]) -> Result<Vec<Hit>, Memory>
    ensures { IfOk result (λ hits. hits.items ≡ map not_chosen lines.now) }
{
    let mut hits = Vec::new(alloc);
    for line in lines {
        hits.push(Hit {
            line: *line,
            count: 0,
        })?;
    }
    Ok(hits)
}

/// Returns the index of a line among hits, by binary search.
fn place_of(hits: &[Hit], line: u32) -> usize
    requires rising { IsStrictlyIncreasing (hit_lines hits.now) }
    requires among { Contains (hit_lines hits.now) line }
    ensures within { result < length hits.now }
    ensures line { (d : Hit) → (slice_index_or hits.now result d).line ≡ line }
{
    hits.partition_point(
        |hit: &Hit| -> bool
            ensures { result ≡ nat_lt hit.now.line line }
        { hit.line < line },
    )
}

/// Returns a hit with its count increased by one. The count saturates.
fn once_more(hit: Hit) -> Hit
    ensures { result ≡ once_more hit }
{
    Hit {
        line: hit.line,
        count: hit.count.saturating_add(1),
    }
}

/// Adds one to the count of a line. The count saturates.
fn add_one(hits: &mut [Hit], line: u32)
    requires rising { IsStrictlyIncreasing (hit_lines hits.old) }
    requires among { Contains (hit_lines hits.old) line }
    ensures { hits.new ≡ with_lines (line ∷ []) hits.old }
{
    let place = place_of(hits, line);
    hits[place] = once_more(hits[place]);
}

/// Adds one to the count of each line of a list, as often as it occurs.
fn add_all(hits: &mut [Hit], lines: &[u32])
    requires rising { IsStrictlyIncreasing (hit_lines hits.old) }
    requires among { All (Contains (hit_lines hits.old)) lines.now }
    ensures counts { hits.new ≡ with_lines lines.now hits.old }
    ensures lines { hit_lines hits.new ≡ hit_lines hits.old }
{
    for line in lines {
        add_one(hits, *line);
    }
}

impl Coverage {
    /// Creates a coverage that has each line of a record, with the count 0.
    pub fn new(alloc: Global, tables: &Tables) -> Result<Coverage, Memory>
        ensures lines { IfOk result (AreLinesOf tables.now) }
        ensures counts { IfOk result (All (λ (hit : Hit). hit.count ≡ 0)) }
    {
        let lines = lines_of_tables(alloc, tables)?;
        let hits = not_chosen(alloc, lines.as_slice())?;
        Ok(Coverage { hits })
    }

    /// Adds how often each line occurs in a list of lines of records. Counts saturate at the maximum of their type.
    pub fn add(&mut self, lines: &[u32])
        requires { All (Contains (hit_lines self.old)) lines.now }
        ensures counts { self.new ≡ with_lines lines.now self.old }
        ensures lines { hit_lines self.new ≡ hit_lines self.old }
    {
        add_all(self.hits.as_mut_slice(), lines);
    }

    /// Returns the lines with their counts, in increasing order.
    pub fn hits(&self) -> &[Hit]
        ensures hits { result.now ≡ self.now }
        ensures rising { IsStrictlyIncreasing (hit_lines self.now) }
    {
        self.hits.as_slice()
    }
}
