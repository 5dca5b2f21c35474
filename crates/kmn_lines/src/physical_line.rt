//! Reads one physical line at a time.

ghost use Rattle.std.specs.Prelude.{◌≡◌, ◌+◌, ◌^◌, ◌<◌, ◌∷◌, length};
ghost use Rattle.kmn_lines.specs.Lines.{ends_line, starts_comment, line_start, outside, after_byte, physical_line, physical_lines_at};
ghost use Rattle.kmn_lines.specs.Places.{IsPhysicalLineWithin};

use crate::bytes::byte_or_end;
use crate::line_state::{LineState, PhysicalLine};
use kmn_base::bytes::{is_blank, is_quote};

/// Returns the physical line with a number at a position before the end.
pub(crate) fn physical_line_at(bytes: &[u8], line: u32, from: usize) -> PhysicalLine
    requires { from < length bytes.now }
    ensures is { physical_lines_at line from bytes.now ≡ result ∷ physical_lines_at (line + 1) result.next bytes.now }
    ensures line { result.line ≡ line }
    ensures from { result.from ≡ from }
    ensures within { IsPhysicalLineWithin from (length bytes.now) result }
{
    let mut state = line_start();
    let mut at = from;
    while at < bytes.len() {
        let byte = bytes[at];
        let next = byte_or_end(bytes, at + 1);
        if ends_line(byte, next) {
            return physical_line(line, from, at, at + 1, state);
        }
        state = after_byte(state, at, byte, next);
        at += 1;
    }
    physical_line(line, from, at, at, state)
}

/// Returns the state at the start of a physical line.
fn line_start() -> LineState
    ensures { result ≡ line_start }
{
    LineState {
        quote: None,
        after_blank: true,
        slash: None,
        stop: None,
    }
}

/// Returns whether a byte ends its physical line, given the next byte.
fn ends_line(byte: u8, next: u8) -> bool
    ensures { result ≡ ends_line byte next }
{
    byte == b'\n' || (byte == b'\r' && next != b'\n')
}

/// Returns the physical line that has been read up to a position.
fn physical_line(line: u32, from: usize, at: usize, next: usize, state: LineState) -> PhysicalLine
    ensures { result ≡ physical_line line from at next state }
{
    PhysicalLine {
        line,
        from,
        to: state.slash.unwrap_or(state.stop.unwrap_or(at)),
        next,
        joined: state.slash.is_some(),
    }
}

/// Returns the state after a byte that does not end the line.
fn after_byte(state: LineState, at: usize, byte: u8, next: u8) -> LineState
    ensures { result ≡ after_byte state at byte next }
{
    if state.stop.is_some() {
        return state;
    }
    if byte == b'\r' {
        return LineState {
            stop: Some(at),
            ..state
        };
    }
    match state.quote {
        None => outside(state, at, byte, next),
        Some(quote) if byte == quote => LineState {
            quote: None,
            ..state
        },
        Some(_) => state,
    }
}

fn outside(state: LineState, at: usize, byte: u8, next: u8) -> LineState
    ensures { result ≡ outside state at byte next }
{
    if is_blank(byte) {
        LineState {
            after_blank: true,
            ..state
        }
    } else if starts_comment(state.after_blank, byte, next) {
        LineState {
            slash: None,
            stop: Some(at),
            ..state
        }
    } else if byte == b'\\' {
        LineState {
            after_blank: false,
            slash: Some(at),
            ..state
        }
    } else {
        LineState {
            quote: is_quote(byte).then_some(byte),
            after_blank: false,
            slash: None,
            ..state
        }
    }
}

/// Returns whether a byte outside quotes begins a comment.
fn starts_comment(after_blank: bool, byte: u8, next: u8) -> bool
    ensures { result ≡ starts_comment after_blank byte next }
{
    after_blank
        && (byte == b'c' || byte == b'C')
        && (is_blank(next) || next == b'\n' || next == b'\r')
}
