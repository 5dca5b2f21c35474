//! What the finder finds for the records of short sources.

use crate::sources::tables;
use kmn_base::Memory;
use rule_model::{Rule, Tables};
use rule_shadow::{Finder, Found};
use source_tests::fixtures::{is_row, parted};
use std::alloc::Global;
use std::fmt::Write;
use std::test::Fail;

/// Each line has a source, as `tables` reads it, and, after ` ⇒ `, the records for which something is found, in their order: the
/// line of each, and the lines of the records that cover it, one for each part.
const CASES: &str = "\
== keys and shift words
H¶+ 'a'¶+ [K_A] ⇒ 
H¶+ 'a'¶+ [NCAPS K_A] ⇒ 4<3
store(v) 'ae'¶H¶'a' + '1'¶'e' + '1'¶any(v) + '1' ⇒ 6<4.5
H¶+ 'a'¶+ [CAPS NCAPS K_B] ⇒ 4<3
H¶+ 'a'¶+ U+00E9 ⇒ 4<3
== contexts, and nul in them
H¶'b' + 'a'¶'c' 'b' + 'a' ⇒ 
H¶nul 'b' + 'a'¶'c' 'b' + 'a' ⇒ 
H¶nul 'b' + 'a'¶nul 'b' + 'a' ⇒ 4<3
== conditions on options
store(o) 'v'¶H¶if(o = 'v') 'b' + 'a'¶'c' 'b' + 'a'¶+ 'a' ⇒ 
store(o) 'v'¶H¶if(o = 'v') 'b' + 'a'¶if(o = 'v') 'b' + 'a' ⇒ 5<4
store(o) 'v'¶H¶if(o = 'v') 'b' + 'a'¶if(o != 'v') 'b' + 'a'¶'b' + 'a' ⇒ 
== conditions on the layer and the platform
H¶if(&layer = 'v') 'b' + 'a'¶if(&layer = 'v') 'b' + 'a' ⇒ 4<3
H¶if(&layer = 'v') 'b' + 'a'¶if(&platform = 'v') 'b' + 'a' ⇒ 
== a store that an output changes is not known
store(o) 'ab'¶store(p) 'abc'¶H¶any(o) + 'a'¶any(o) + 'a'¶+ 'q' > set(o = 'z') ⇒ 6<5
store(o) 'ab'¶store(p) 'abc'¶H¶any(p) + 'a'¶any(o) + 'a'¶+ 'q' > set(o = 'z') ⇒ 
== any and notany
store(s) 'ab'¶store(t) 'abc'¶H¶any(t) + 'a'¶any(s) + 'a' ⇒ 6<5
store(s) [K_A]¶H¶+ 'a'¶any(s) + 'b' ⇒ 5<
store(s) 'ab'¶H¶notany(s) + 'd'¶'c' + 'd'¶'a' + 'd' ⇒ 5<4
store(s) 'a'¶H¶notany(s) + 'd'¶dk(2) + 'd' ⇒ 5<4
== index and context repeat an item
store(s) 'ab'¶store(t) 'cd'¶store(u) 'cdabb'¶H¶any(u) any(u) + 'x'¶any(s) index(t,1) + 'x' ⇒ 7<6
store(s) 'ab'¶store(t) [K_A] 'c'¶H¶any(s) 'c' + 'x'¶any(s) index(t,1) + 'x' ⇒ 6<5
store(s) 'ab'¶H¶any(s) any(s) + 'x'¶any(s) context(1) + 'x' ⇒ 5<4
store(s) 'ab'¶H¶'a' 'a' + 'x'¶'b' 'b' + 'x'¶any(s) context(1) + 'x' ⇒ 6<4.5
== several records cover one: a part for each element
store(v) 'aae'¶H¶'a' + '1'¶'e' + '1'¶any(v) + '1' ⇒ 6<4.4.5
store(v) 'ab'¶H¶'a' 'a' + '1'¶'a' 'b' + '1'¶'b' 'a' + '1'¶'b' 'b' + '1'¶any(v) any(v) + '1' ⇒ 
== records of one line
store(k) 'ab'¶H¶+ 'a'¶+ any(k) ⇒ 5<4
store(k) 'aa'¶H¶+ any(k) ⇒ 4<4
== flags that contain others, and custom keys
H¶+ [CTRL K_A]¶+ [LCTRL K_A]¶+ [RCTRL K_A] ⇒ 4<3 5<3
H¶+ [NCAPS K_1]¶+ '1' ⇒ 
H¶+ [T_x]¶+ [T_x] ⇒ 4<3";

/// Returns the line of a record of the first group.
fn line_of(rules: &[Rule], rule: u32) -> u32 {
    rules.get(rule as usize).map_or(0, |rule| rule.line)
}

/// Appends the lines of records, separated by dots.
fn put_lines(text: &mut String, rules: &[Rule], numbers: &[u32]) -> Result<(), Memory> {
    for n in 0..numbers.len() {
        if n > 0 {
            text.push('.')?;
        }
        write!(text, "{}", line_of(rules, numbers[n]))?;
    }
    Ok(())
}

/// Appends what is found for a record, if anything is found.
fn put_found(text: &mut String, rules: &[Rule], rule: u32, found: &Found) -> Result<(), Memory> {
    if matches!(found, Found::NotFound) {
        return Ok(());
    }
    write!(text, " {}<", line_of(rules, rule))?;
    match found {
        Found::NotFound => Ok(()),
        Found::ByRule(by) => put_lines(text, rules, &[*by]),
        Found::SplitAt(_, parts) => put_lines(text, rules, parts.as_slice()),
    }
}

/// Returns what is found for the records of the first group, with a space before each.
fn shown(alloc: Global, tables: &Tables, finder: &Finder) -> Result<String, Memory> {
    let mut text = String::new(alloc);
    let Some(group) = tables.groups.as_slice().first() else {
        return Ok(text);
    };
    let rules = group.rules.as_slice();
    let mut number: u32 = 0;
    for _ in rules {
        let found = finder.found(alloc, 0, number)?;
        put_found(&mut text, rules, number, &found)?;
        number = number.saturating_add(1);
    }
    Ok(text)
}

/// Returns whether what is found for the source of a row is the text of the row.
fn is_found(alloc: Global, row: &str) -> Result<bool, Fail> {
    let (source, wanted) = parted(row)?;
    let tables = tables(alloc, source)?;
    let finder = Finder::new(alloc, &tables)?;
    Ok(shown(alloc, &tables, &finder)?.as_str().trim_start() == wanted)
}

#[test]
fn finds(rt: HostRuntime) -> Result<(), Fail> {
    for row in CASES.lines().filter(is_row) {
        assert!(rt; is_found(rt.alloc(), row)?, "{row}");
    }
    Ok(())
}
