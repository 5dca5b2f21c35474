//! Sources that the parser reads, each with the expected result.

use crate::fixtures::{is_row, parted, source_of};
use crate::rows::{ITEMS, LIMITS, LINES, LimitRow, STATEMENTS, TOKENS};
use crate::telling::{write_error, write_program};
use kmn_base::{Code, CompileError, Refusal};
use kmn_parser::parse;
use std::alloc::{AllocError, Global};
use std::fmt::Write;
use std::test::Fail;

/// The two lines of a keyboard with the group `main`, which uses keys.
const KEYBOARD: &str = "begin Unicode > use(main)\ngroup(main) using keys\n";

/// The line of a group that does not use keys.
const WITHOUT_KEYS: &str = "group(g)\n";

/// Returns the lines with which a row's source begins, and their number: for `K` the group `main`, for `G` a group that does not use
/// keys, and for any other word no lines.
fn opening(word: &str) -> (&'static str, u32) {
    match word {
        "K" => (KEYBOARD, 2),
        "G" => (WITHOUT_KEYS, 1),
        _ => ("", 0),
    }
}

/// Returns what the parser reads from a source after its opening lines, or the error.
fn answer(alloc: Global, opened: u32, source: &[u8]) -> Result<String, Fail> {
    let mut out = String::new(alloc);
    match parse(alloc, source) {
        Ok(program) => write_program(&mut out, opened, &program)?,
        Err(error) => {
            out.push_str("; ")?;
            write_error(&mut out, &error)?;
        }
    }
    Ok(out)
}

/// Returns the source of a row, and the number of its opening lines.
fn opened_source(alloc: Global, row: &str) -> Result<(String, u32), Fail> {
    let (word, text) = row.split_once(':').ok_or("a row without an opening")?;
    let (lines, opened) = opening(word);
    let mut source = String::from_str(alloc, lines)?;
    source.push_str(source_of(alloc, text)?.as_str())?;
    Ok((source, opened))
}

/// Returns whether the parser's result for a row's source is the row's result.
fn is_answered(alloc: Global, row: &str) -> Result<bool, Fail> {
    let (text, wanted) = parted(row)?;
    let (source, opened) = opened_source(alloc, text)?;
    let given = answer(alloc, opened, source.as_bytes())?;
    Ok(given.as_str().strip_prefix("; ").unwrap_or("nothing") == wanted)
}

/// Returns the source with a row's name.
fn source_with(alloc: Global, row: LimitRow) -> Result<String, AllocError> {
    let (before, c, count, after, _) = row;
    let mut source = String::from_str(alloc, WITHOUT_KEYS)?;
    source.push_str(before)?;
    for _ in 0..count {
        source.push(c)?;
    }
    source.push_str(after)?;
    Ok(source)
}

/// Writes how many stores a source states, or its refusal.
fn write_count(alloc: Global, out: &mut String, source: &[u8]) -> Result<(), AllocError> {
    match parse(alloc, source) {
        Ok(program) => write!(out, "{}", program.stores.len()),
        Err(error) => write_error(out, &error),
    }
}

/// Returns whether the parser's result for the source with a row's name is the row's result.
fn is_limited(alloc: Global, row: LimitRow) -> Result<bool, Fail> {
    let source = source_with(alloc, row)?;
    let mut out = String::new(alloc);
    write_count(alloc, &mut out, source.as_bytes())?;
    Ok(out.as_str() == row.4)
}

/// Returns whether the parser refuses bytes in line 1 with this code.
fn is_refused(alloc: Global, source: &[u8], code: Code) -> bool {
    match parse(alloc, source) {
        Err(CompileError::Refused(refusal)) => refusal == Refusal { line: 1, code },
        _ => false,
    }
}

#[test]
fn worked_rows(rt: HostRuntime) -> Result<(), Fail> {
    for table in &[TOKENS, LINES, STATEMENTS, ITEMS] {
        for row in table.lines().filter(is_row) {
            assert!(rt; is_answered(rt.alloc(), row)?, "{row}");
        }
    }
    Ok(())
}

#[test]
fn limits(rt: HostRuntime) -> Result<(), Fail> {
    for row in LIMITS {
        assert!(rt; is_limited(rt.alloc(), *row)?, "{} {}", row.0, row.2);
    }
    assert!(rt; is_refused(rt.alloc(), &[b'\n', 0xFF, b'\''], Code::L01));
    Ok(())
}
