//! Runs of the commands over a folder and a sink in memory: the tables of `rows`, `long_rows`, `trace_rows`, `shadow_rows` and
//! `host_rows`, and runs whose scripts are too long for a table.

mod host_rows;
mod long_rows;
mod rows;
mod shadow_rows;
mod trace_rows;

use crate::commands::{ended, folder, sink};
use compile_tests::fixtures::{ONE_RULE, TWO_KEYS};
use host_rows::HOST_RUNS;
use kmn_base::Seq;
use kmn_outside::MemoryFolder;
use long_rows::LONG_RUNS;
use rows::{FILE_RUNS, LAYOUT_RUNS, RUNS, TEXT};
use shadow_rows::SHADOW_RUNS;
use source_tests::fixtures::{is_row, source_of};
use source_tests::sample::SAMPLE;
use std::alloc::{Alloc, Global};
use std::process::Abort;
use std::str;
use std::test::Fail;
use trace_rows::TRACE_RUNS;

/// The source of the file of one rule.
const ONE_RULE_SOURCE: &str = "§+ 'a' > 'b'¶";

/// The source of the file of two keys.
const TWO_KEYS_SOURCE: &str = "store(k) [K_A] [SHIFT K_A]¶store(o) 'xy'¶§+ any(k) > index(o,1)¶";

/// A run, as its row states it.
#[derive(Clone, Copy)]
struct Run<'a> {
    words: &'a str,
    source: &'a str,
    script: &'a str,
    ends: &'a str,
    printed: &'a str,
}

/// Returns the number at an index of a row's line of numbers: the exit status, the size of the file `out`, and the calls of folder
/// and sink that fail. A missing number is 0.
fn number_at(line: &str, place: usize) -> u32 {
    match line.split(' ').nth(place) {
        Some(number) => number.parse::<u32>().unwrap_or(u32::MAX),
        None => 0,
    }
}

/// Returns the source that a row contains or names.
fn source_in(text: &str) -> &str {
    if text == "SAMPLE" { SAMPLE } else { text }
}

/// Returns the file that a source compiles to.
fn compiled(alloc: Global, source: &str) -> Result<Seq<u8>, Fail> {
    let mut folder = folder(alloc, source, b"", "", 0)?;
    let mut sink = sink(alloc, 0)?;
    ended(alloc, "compile a.kmn out", &mut folder, &mut sink)?;
    Ok(Seq::from_slice(alloc, folder.file(b"out").unwrap_or(&[]))?)
}

/// Returns the bytes that pieces describe: parts of a file and 16-bit units.
fn pieced(alloc: Global, file: &[u8], pieces: &str) -> Result<Seq<u8>, Fail> {
    let mut bytes = Vec::new(alloc);
    for piece in pieces.split(' ') {
        if let Some((from, to)) = piece.split_once('-') {
            let from = from.parse::<usize>().unwrap_or(0);
            let to = to.parse::<usize>().unwrap_or(0).min(file.len());
            bytes.extend_from_slice(file.get(from..to).unwrap_or(&[]))?;
        } else {
            let unit = u16::from_str_radix(piece, 16).unwrap_or(0);
            bytes.extend_from_slice(&unit.to_le_bytes())?;
        }
    }
    Ok(Seq::from_vec(bytes))
}

/// Returns the folder in which a run begins.
fn folder_of(alloc: Global, row: Run, failing: u32) -> Result<MemoryFolder, Fail> {
    match row.source.split_once(" ⇒ ") {
        Some((source, pieces)) => {
            let source = source_in(source);
            let file = compiled(alloc, source)?;
            let file = pieced(alloc, file.as_slice(), pieces)?;
            folder(alloc, source, file.as_slice(), row.script, failing)
        }
        None => folder(alloc, source_in(row.source), b"", row.script, failing),
    }
}

/// Returns whether a text has a line.
fn has_line(text: &str, line: &str) -> bool {
    for other in text.split('\n') {
        if other == line {
            return true;
        }
    }
    false
}

/// Returns whether a text has each of these lines.
fn has_lines(text: &[u8], lines: &str) -> bool {
    let text = str::from_utf8(text).unwrap_or("");
    for line in lines.lines() {
        if !has_line(text, line) {
            return false;
        }
    }
    true
}

/// Returns whether a text is the one that a row expects or, if the expected text begins with `?`, has each of its lines.
fn is_printed(alloc: Global, text: &[u8], wanted: &str) -> Result<bool, Fail> {
    let wanted = source_of(alloc, wanted)?;
    Ok(match wanted.as_str().strip_prefix('?') {
        Some(lines) => has_lines(text, lines),
        None => text == wanted.as_bytes(),
    })
}

/// Returns the size of the file `out` in bytes, or 0 if the folder does not have it.
fn size_of_out(folder: &MemoryFolder) -> usize {
    match folder.file(b"out") {
        Some(bytes) => bytes.len(),
        None => 0,
    }
}

/// Returns whether a run ends and prints as its row states.
fn is_right(alloc: Global, row: Run) -> Result<bool, Fail> {
    let mut folder = folder_of(alloc, row, number_at(row.ends, 2))?;
    let mut sink = sink(alloc, number_at(row.ends, 3))?;
    let status = ended(alloc, row.words, &mut folder, &mut sink)?;
    let is_ended = u32::from(status.number()) == number_at(row.ends, 0)
        && size_of_out(&folder) == number_at(row.ends, 1) as usize;
    Ok(is_printed(alloc, sink.written(), row.printed)? && is_ended)
}

/// Checks the runs of a table, and fails at the first one that isn't right.
fn check_runs(rt: &(impl Abort + Alloc<A = Global>), table: &str) -> Result<(), Fail> {
    let table = table.replace(rt.alloc(), "\\\n", "")?;
    let mut lines = table.lines();
    while let Some(words) = lines.next() {
        if !is_row(&words) {
            continue;
        }
        let row = Run {
            words,
            source: lines.next().unwrap_or(""),
            script: lines.next().unwrap_or(""),
            ends: lines.next().unwrap_or(""),
            printed: lines.next().unwrap_or(""),
        };
        assert!(rt; is_right(rt.alloc(), row)?, "{words}: {}", row.source);
    }
    Ok(())
}

#[test]
fn runs(rt: HostRuntime) -> Result<(), Fail> {
    for table in &[RUNS, LAYOUT_RUNS, TRACE_RUNS, SHADOW_RUNS, HOST_RUNS] {
        check_runs(&rt, table)?;
    }
    Ok(())
}

#[test]
fn long_runs(rt: HostRuntime) -> Result<(), Fail> {
    check_runs(&rt, LONG_RUNS)
}

#[test]
fn runs_on_files(rt: HostRuntime) -> Result<(), Fail> {
    check_runs(&rt, FILE_RUNS)
}

/// Returns whether a source compiles to these bytes.
fn is_compiled_to(alloc: Global, source: &str, file: &[u8]) -> Result<bool, Fail> {
    Ok(compiled(alloc, source)?.as_slice() == file)
}

#[test]
fn worked_files(rt: HostRuntime) -> Result<(), Fail> {
    assert!(rt; is_compiled_to(rt.alloc(), ONE_RULE_SOURCE, &ONE_RULE)?);
    assert!(rt; is_compiled_to(rt.alloc(), TWO_KEYS_SOURCE, &TWO_KEYS)?);
    Ok(())
}

/// Returns whether the compiled keyboard of the first source decompiles to this text.
fn is_decompiled_to(alloc: Global, text: &[u8]) -> Result<bool, Fail> {
    let file = compiled(alloc, ONE_RULE_SOURCE)?;
    let mut folder = folder(alloc, "", file.as_slice(), "", 0)?;
    let mut sink = sink(alloc, 0)?;
    ended(alloc, "decompile a.kmx out", &mut folder, &mut sink)?;
    Ok(folder.file(b"out") == Some(text))
}

#[test]
fn first_text(rt: HostRuntime) -> Result<(), Fail> {
    assert!(rt; is_decompiled_to(rt.alloc(), TEXT.as_bytes())?);
    Ok(())
}

/// Returns whether a run of the file of one rule ends and prints like this. Its script has `count` edits that each insert 4,096
/// characters at the start of the text, and then the lines `last`.
fn is_right_behind(
    alloc: Global,
    count: usize,
    last: &str,
    ends: &str,
    printed: &str,
) -> Result<bool, Fail> {
    let mut script = "edit 0 0 '⟨x×4096⟩'¶".repeat(alloc, count)?;
    script.push_str(last)?;
    is_right(
        alloc,
        Run {
            words: "test a.kmn out a.keys",
            source: ONE_RULE_SOURCE,
            script: script.as_str(),
            ends,
            printed,
        },
    )
}

/// Checks a text that grows to its limit: a key press is refused if the text is too long for it, and an edit that would make the text
/// too long is refused.
#[test]
fn long_texts(rt: HostRuntime) -> Result<(), Fail> {
    let printed = "?243 del=0 ins=- pass=0 beep=0 ent=0 ctx=-¶refused E2 event 244¶";
    assert!(rt; is_right_behind(rt.alloc(), 243, "[K_A]", "1 122", printed)?);
    let printed = "?244 del=0 ins=- pass=0 beep=0 ent=0 ctx=-¶refused E2 event 245¶";
    assert!(rt; is_right_behind(rt.alloc(), 245, "", "1 122", printed)?);
    Ok(())
}

/// Checks many presses that are passed on in a long text. Each of them looks only at the last items of the text.
#[test]
fn many_presses_in_a_long_text(rt: HostRuntime) -> Result<(), Fail> {
    let last = "caret 991232¶⟨[K_F5]¶×99000⟩";
    let printed = "?242 del=0 ins=- pass=0 beep=0 ent=0 ctx=-¶\
        243 del=0 ins=- pass=0 beep=0 ent=0 ctx=⟨0078.×63⟩0078¶\
        244 del=0 ins=- pass=1 beep=0 ent=1 ctx=⟨0078.×63⟩0078¶\
        99243 del=0 ins=- pass=1 beep=0 ent=1 ctx=⟨0078.×63⟩0078¶\
        text ⟨0078.×991231⟩0078|-¶end events=99243 failed=0¶";
    assert!(rt; is_right_behind(rt.alloc(), 242, last, "0 122", printed)?);
    Ok(())
}
