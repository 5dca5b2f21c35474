//! The printed lines for dead rules, each with its line feed.

ghost use Rattle.std.specs.Prelude.{◌≡◌, ◌++◌, flat_map, IfOk};
ghost use Rattle.std.specs.String.{string_bytes};
ghost use Rattle.kmx_format.specs.Writable.{IsWritable};
ghost use Rattle.shadow_text.specs.DeadLines.{dead_line, end_line, dead_text};

use crate::dead_lines::{dead_among, lines_before, rule_lines};
use crate::verdicts::{Verdict, verdicts};
use kmn_base::{Memory, Text};
use rule_model::{Tables, put_numbers};
use std::alloc::{AllocError, Global};

/// Returns the text that `shadow` prints for the tables of a compiled keyboard: a line for each rule found to be dead, and the
/// counts.
#[tactic(auto, unfolding(crate::specs::DeadLines::dead_text))]
pub fn dead_text(alloc: Global, tables: &Tables) -> Result<Text, Memory>
    requires { IsWritable tables.now }
    ensures { IfOk result (λ text. text ≡ dead_text tables.now) }
{
    let all = verdicts(alloc, tables)?;
    let lines = rule_lines(alloc, all.as_slice())?;
    let dead = dead_among(alloc, all.as_slice(), lines.as_slice())?;
    let mut text = String::new(alloc);
    put_dead(alloc, &mut text, all.as_slice(), dead.as_slice())?;
    put_end(&mut text, lines.len(), dead.len())?;
    Ok(Text::from_string(text))
}

/// Appends a line for each dead rule.
fn put_dead(alloc: Global, text: &mut String, all: &[Verdict], dead: &[u32]) -> Result<(), Memory>
    ensures { IfOk result (λ _. string_bytes text.new ≡ string_bytes text.old ++ flat_map (dead_line all.now) dead.now) }
{
    for line in dead {
        put_dead_line(alloc, text, all, *line)?;
    }
    Ok(())
}

/// Appends the line of a dead rule.
fn put_dead_line(alloc: Global, text: &mut String, all: &[Verdict], line: u32) -> Result<(), Memory>
    ensures { IfOk result (λ _. string_bytes text.new ≡ string_bytes text.old ++ dead_line all.now line) }
{
    let before = lines_before(alloc, all, line)?;
    write!(text, "dead {line} by ")?;
    put_numbers(text, before.as_slice())?;
    text.push_str("\n")?;
    Ok(())
}

/// Appends the last line: the number of rules, and the number of dead rules.
fn put_end(text: &mut String, rules: usize, dead: usize) -> Result<(), AllocError>
    ensures { IfOk result (λ _. string_bytes text.new ≡ string_bytes text.old ++ end_line rules dead) }
{
    write!(text, "end rules={rules} dead={dead}\n")
}
