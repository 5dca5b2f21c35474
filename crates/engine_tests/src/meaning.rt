//! Keyboards that the plain evaluator of their meaning plays, with the lines of the rules that fire.

use crate::events::event;
use crate::states::{can_be_done, start};
use kmn_base::{Event, Memory};
use kmn_compiler::compile;
use plain_event::{PlainState, plain_event};
use rule_model::Tables;
use rule_trace::trace_event;
use source_tests::fixtures::{is_row, parted, put_items, source_of};
use std::alloc::Global;
use std::fmt::Write;
use std::test::Fail;

/// Each line contains a source, as `source_of` reads it, and, after ` ⇒ `, the events that it plays, separated by ` ; `. After an event
/// are the lines of the rules that fire, separated by dots, or `-` if there are none; the text, in which the caret is `|` and a mark (a
/// deadkey in the item list) is `*`; and the number of deleted characters, 1 if the key is passed on, the number of beeps, and the number
/// of groups that were entered. `event` reads the events.
const CASES: &str = "\
== rules, and keys without a rule
§+ 'c' > 'x'¶'a' + 'c' > 'y' ⇒ K_A - a| 0,0,0,1 ; K_C 4 y| 1,0,0,1 ; K_F5 - y| 0,1,0,1 ; K_LEFT - |y 0,1,0,1
== deadkeys
§+ '`' > dk(g)¶dk(g) + 'a' > U+00E0 ⇒ K_BKQUOTE 3 *| 0,0,0,1 ; K_A 4 à| 0,0,0,1 ; K_BKSP - | 1,0,0,1
== any and index
§store(v) \"aea\"¶store(w) \"xyz\"¶any(v) + '1' > index(w,1) ⇒ K_A - a| 0,0,0,1 ; K_1 5 x| 1,0,0,1
== only presses select lines
§+ 'a' > 'x'¶store(o) '0'¶if(o = '0') + 'a' > 'y' ⇒ K_A 5 y| 0,0,0,1 ; o=1 - y| 0,0,0,0 ; |0 - |y 0,0,0,0 ; K_A 3 x|y 0,0,0,1
§+ 'a' > 'b' ⇒ K_A 3 b| 0,0,0,1 ; -0,0,xy - xyb| 0,0,0,0 ; |1 - x|yb 0,0,0,0
== groups that are entered
§+ 'a' > 'x'¶match > use(g)¶group(g)¶'x' > 'y' ⇒ K_A 3.6 y| 0,0,0,2
§+ 'a' > use(t) 'b'¶group(t)¶nomatch > 'n' beep ⇒ K_A 3 nb| 0,0,1,2
== the layer, which a rule or the host sets, and the platform
§if(&layer = 's') + 'a' > 'y'¶+ 'a' > 'n' ⇒ K_A 4 n| 0,0,0,1 ; &layer=s - n| 0,0,0,0 ; K_A 3 ny| 0,0,0,1
§if(&layer = 's') + 'a' > 'x'¶+ 'a' > set(&layer = 's') use(main) ⇒ K_A 4.3 x| 0,0,0,2 ; K_A 3 xx| 0,0,0,1
§if(&platform = 'Native  WINDOWS') + 'a' > 'y'¶+ 'a' > 'n' ⇒ K_A 3 y| 0,0,0,1 ; &platform=web - y| 0,0,0,0 ; K_A 4 yn| 0,0,0,1";

/// Returns the tables of a source.
fn tables_of(alloc: Global, source: &str) -> Result<Tables, Fail> {
    let source = source_of(alloc, source)?;
    Ok(compile(alloc, source.as_bytes(), &[])?.tables)
}

/// Returns the text with its caret, and the outcome of the last event.
fn shown(alloc: Global, state: &PlainState) -> Result<String, Memory> {
    let mut text = String::new(alloc);
    put_items(&mut text, state.left.as_slice())?;
    text.push('|')?;
    for c in state.right.as_slice() {
        text.push(*c)?;
    }
    write!(
        text,
        " {},{},",
        state.last.delete,
        u8::from(state.last.pass)
    )?;
    write!(text, "{},{}", state.last.beeps, state.last.entered)?;
    Ok(text)
}

/// Returns the lines, separated by dots, or `-` if there are none.
fn shown_lines(alloc: Global, lines: &[u32]) -> Result<String, Memory> {
    let mut text = String::new(alloc);
    for line in lines {
        write!(text, "{}{line}", if text.is_empty() { "" } else { "." })?;
    }
    if lines.is_empty() {
        text.push('-')?;
    }
    Ok(text)
}

/// Returns the lines of the rules that fire for an event.
fn fired(
    alloc: Global,
    tables: &Tables,
    state: &PlainState,
    event: &Event,
) -> Result<String, Fail> {
    if can_be_done(tables, state, event) {
        let traced = trace_event(alloc, tables, state, event)?;
        return Ok(shown_lines(alloc, traced.lines.as_slice())?);
    }
    Err(Fail::from("an event that can't be done"))
}

/// Returns the state after an event.
fn after(
    alloc: Global,
    tables: &Tables,
    state: &PlainState,
    event: &Event,
) -> Result<PlainState, Fail> {
    if can_be_done(tables, state, event) {
        return Ok(plain_event(alloc, tables, state, event)?);
    }
    Err(Fail::from("an event that can't be done"))
}

/// Performs the event of a step, and returns whether the lines, the text and the outcome are the expected ones.
fn leaves(
    alloc: Global,
    tables: &Tables,
    state: &mut PlainState,
    step: &str,
) -> Result<bool, Fail> {
    let (word, wanted) = step.split_once(' ').unwrap_or((step, ""));
    let (lines, wanted) = wanted.split_once(' ').unwrap_or((wanted, ""));
    let event = event(alloc, word)?;
    let is_fired = fired(alloc, tables, state, &event)?.as_str() == lines;
    *state = after(alloc, tables, state, &event)?;
    Ok(is_fired && shown(alloc, state)?.as_str() == wanted)
}

/// Returns whether each step has its lines, text and outcome.
fn leave(
    alloc: Global,
    tables: &Tables,
    state: &mut PlainState,
    steps: &str,
) -> Result<bool, Fail> {
    for step in steps.split(" ; ") {
        if !leaves(alloc, tables, state, step)? {
            return Ok(false);
        }
    }
    Ok(true)
}

/// Returns whether each step has its lines, text and outcome, beginning before the first event.
fn is_played(alloc: Global, tables: &Tables, steps: &str) -> Result<bool, Fail> {
    let mut state = start(alloc, tables)?;
    leave(alloc, tables, &mut state, steps)
}

/// Returns whether a case is right.
fn is_right(alloc: Global, case: &str) -> Result<bool, Fail> {
    let (source, steps) = parted(case)?;
    let tables = tables_of(alloc, source)?;
    is_played(alloc, &tables, steps)
}

#[test]
fn worked_keyboards(rt: HostRuntime) -> Result<(), Fail> {
    for case in CASES.lines().filter(is_row) {
        assert!(rt; is_right(rt.alloc(), case)?, "{case}");
    }
    Ok(())
}
