//! Begin and group statements.

ghost use Rattle.std.specs.Prelude.{◌≡◌, ◌+◌, ◌<◌, ◌^◌, length};
ghost use Rattle.kmn_items.specs.TokenTexts.{texts, Reads};
ghost use Rattle.kmn_parser.specs.Line.{begins_kind, is_use, begin_head, begin_fault, read_begin, is_using_keys, group_head, group_fault, read_group};

use crate::signs::{begins_word, place_of, tokens_after_close};
use crate::statement::{Line, Sign, Statement};
use kmn_base::{Code, Seq};
use kmn_items::{LineError, LineTokens, Slot, TokenRefusal, begins_open, broken};
use rule_model::{BeginDef, GroupDef};
use std::alloc::Global;

/// Reads a begin statement.
#[tactic(auto, unfolding(crate::specs::Line::read_begin))]
pub(crate) fn read_begin(alloc: Global, line: Line<'_>) -> Result<Statement, LineError>
    requires { length (texts line.tokens) < 2 ^ 59 }
    ensures { Reads (read_begin line.entry.number line.entry.last (texts line.entry.tokens)) result }
{
    let Line {
        number,
        last,
        tokens,
        ..
    } = line;
    if let Some(fault) = begin_fault(last, tokens) {
        return Err(LineError::Refused(fault));
    }
    Ok(Statement::Begin(BeginDef {
        line: number,
        unicode: begins_word(b"Unicode", tokens.behind(1)),
        group: tokens.name(alloc, 5)?,
    }))
}

/// Returns the first fault of a begin statement.
#[tactic(auto, unfolding(crate::specs::Line::begin_fault))]
fn begin_fault(last: usize, tokens: LineTokens<'_>) -> Option<TokenRefusal>
    requires { length (texts tokens) < 2 ^ 59 }
    ensures { result ≡ begin_fault last (texts tokens.entry) }
{
    match begin_head(place_of(Sign::Arrow, tokens), tokens) {
        Some(code) => Some(TokenRefusal { at: 0, code }),
        None => {
            let slots = [Slot::Name, Slot::Close];
            broken(last, 5, &slots, tokens.behind(5))
        }
    }
}

/// Returns the code of a begin statement's fault outside its parentheses, given the index of its first `>`.
fn begin_head(arrow: usize, tokens: LineTokens<'_>) -> Option<Code>
    ensures { result ≡ begin_head arrow (texts tokens.entry) }
{
    let call = if arrow == 2 { 3 } else { 2 };
    if !(begins_kind(tokens.behind(1)) && is_use(tokens.behind(call))) {
        return Some(Code::S01);
    }
    if arrow == 2 { None } else { Some(Code::S04) }
}

/// Returns whether tokens begin with one of the two kinds of a begin statement.
fn begins_kind(tokens: LineTokens<'_>) -> bool
    ensures { result ≡ begins_kind (texts tokens.entry) }
{
    begins_word(b"Unicode", tokens) || begins_word(b"ANSI", tokens)
}

/// Returns whether tokens are `use` and parentheses, without tokens after them.
fn is_use(tokens: LineTokens<'_>) -> bool
    ensures { result ≡ is_use (texts tokens.entry) }
{
    begins_word(b"use", tokens)
        && begins_open(tokens.behind(1))
        && tokens_after_close(tokens.behind(2)).is_empty()
}

/// Reads a group statement.
#[tactic(auto, unfolding(crate::specs::Line::read_group))]
pub(crate) fn read_group(alloc: Global, line: Line<'_>) -> Result<Statement, LineError>
    requires { length (texts line.tokens) < 2 ^ 59 }
    ensures { Reads (read_group line.entry.number line.entry.last (texts line.entry.tokens)) result }
{
    let Line {
        number,
        last,
        tokens,
        ..
    } = line;
    if let Some(fault) = group_fault(last, tokens) {
        return Err(LineError::Refused(fault));
    }
    Ok(Statement::Group(GroupDef {
        line: number,
        name: tokens.name(alloc, 2)?,
        using_keys: is_using_keys(tokens_after_close(tokens.behind(2))),
        rules: Seq::new(alloc),
    }))
}

/// Returns the first fault of a group statement.
#[tactic(auto, unfolding(crate::specs::Line::group_fault))]
fn group_fault(last: usize, tokens: LineTokens<'_>) -> Option<TokenRefusal>
    requires { length (texts tokens) < 2 ^ 59 }
    ensures { result ≡ group_fault last (texts tokens.entry) }
{
    let named = tokens.behind(2);
    match group_head(tokens, tokens_after_close(named)) {
        Some(code) => Some(TokenRefusal { at: 0, code }),
        None => broken(last, 2, &[Slot::Name, Slot::Close], named),
    }
}

/// Returns the code of a group statement's fault outside its parentheses, which are followed by `tail`.
fn group_head(tokens: LineTokens<'_>, tail: LineTokens<'_>) -> Option<Code>
    ensures { result ≡ group_head (texts tokens.entry) (texts tail.entry) }
{
    if begins_open(tokens.behind(1)) && (tail.is_empty() || is_using_keys(tail)) {
        None
    } else {
        Some(Code::S01)
    }
}

/// Returns whether tokens are `using keys`, without tokens after it.
fn is_using_keys(tokens: LineTokens<'_>) -> bool
    ensures { result ≡ is_using_keys (texts tokens.entry) }
{
    begins_word(b"using", tokens)
        && begins_word(b"keys", tokens.behind(1))
        && tokens.behind(2).is_empty()
}
