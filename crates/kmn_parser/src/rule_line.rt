//! Rules, and what a group does after a match or if no rule matches.

ghost use Rattle.std.specs.Prelude.{◌≡◌, ◌+◌, ◌<◌, ◌≤◌, ◌^◌, length};
ghost use Rattle.kmn_items.specs.TokenTexts.{texts, with_text, Reads};
ghost use Rattle.kmn_parser.specs.Line.{no_group, is_empty_quote, has_items, no_output, match_fault, read_match, begins_rule, uses_keys, rule_head, rule_key, rule_body, is_lesser, earlier, rule_at, read_rule};

use crate::signs::place_of;
use crate::statement::{LastGroup, Line, Sign, Statement};
use kmn_base::{Code, Seq};
use kmn_items::{
    LineError, LineTokens, TokenRefusal, Where, is_item_word, read_items, read_key, text_in,
};
use kmn_lines::{Token, TokenKind};
use rule_model::{RuleDef, RuleKind, SrcItem};
use std::alloc::Global;

/// The indexes of a rule's first `>`, and of its first `+` before it. If there is none, the index is the end of the searched tokens.
#[derive(Clone, Copy)]
struct Signs {
    arrow: usize,
    plus: usize,
}

/// Reads a match or nomatch statement.
#[tactic(auto, unfolding(crate::specs::Line::read_match))]
pub(crate) fn read_match(
    alloc: Global,
    kind: RuleKind,
    line: Line<'_>,
) -> Result<Statement, LineError>
    requires { length (texts line.tokens) < 2 ^ 59 }
    ensures { Reads (read_match kind line.entry.group line.entry.number line.entry.last (texts line.entry.tokens)) result }
{
    let Line {
        number,
        group,
        last,
        tokens,
    } = line;
    let arrow = place_of(Sign::Arrow, tokens);
    if let Some(fault) = match_fault(group, arrow, tokens) {
        return Err(LineError::Refused(fault));
    }
    Ok(Statement::Rule(RuleDef {
        line: number,
        kind,
        context: Seq::new(alloc),
        key: None,
        output: read_items(alloc, Where::Output, last, 2, tokens.behind(2))?,
    }))
}

/// Returns the first fault of a match or nomatch statement before its output.
#[tactic(auto, unfolding(crate::specs::Line::match_fault))]
fn match_fault(group: LastGroup, arrow: usize, tokens: LineTokens<'_>) -> Option<TokenRefusal>
    ensures { result ≡ match_fault group arrow (texts tokens.entry) }
{
    if let Some(code) = no_group(group) {
        return Some(TokenRefusal { at: 0, code });
    }
    if let Some(code) = no_output(arrow, tokens) {
        return Some(TokenRefusal { at: 0, code });
    }
    if arrow == 1 {
        None
    } else {
        Some(TokenRefusal {
            at: 1,
            code: Code::S05,
        })
    }
}

/// Returns the code of a statement that requires a group before it.
fn no_group(group: LastGroup) -> Option<Code>
    ensures { result ≡ no_group group }
{
    match group {
        LastGroup::Missing => Some(Code::S03),
        LastGroup::UsingKeys | LastGroup::WithoutKeys => None,
    }
}

/// Returns the code of a statement without an output, given the index of the first `>`.
fn no_output(arrow: usize, tokens: LineTokens<'_>) -> Option<Code>
    ensures { result ≡ no_output arrow (texts tokens.entry) }
{
    if tokens.len() <= arrow {
        Some(Code::S04)
    } else if has_items(tokens.behind(arrow + 1)) {
        None
    } else {
        Some(Code::S06)
    }
}

/// Returns whether some token denotes an item.
fn has_items(tokens: LineTokens<'_>) -> bool
    ensures { result ≡ has_items (texts tokens.entry) }
{
    let LineTokens {
        source,
        tokens: all,
    } = tokens;
    for token in all {
        if !is_empty_quote(source, *token) {
            return true;
        }
    }
    false
}

/// Returns whether a token is two quotes with nothing between them.
fn is_empty_quote(source: &[u8], token: Token) -> bool
    ensures { result ≡ is_empty_quote (with_text source.now token) }
{
    token.kind == TokenKind::Quoted && text_in(source, token).len() == 2
}

/// Reads a rule.
#[tactic(auto, unfolding(crate::specs::Line::read_rule))]
pub(crate) fn read_rule(alloc: Global, line: Line<'_>) -> Result<Statement, LineError>
    requires { length (texts line.tokens) < 2 ^ 59 }
    ensures { Reads (read_rule line.entry.group line.entry.number line.entry.last (texts line.entry.tokens)) result }
{
    let arrow = place_of(Sign::Arrow, line.tokens);
    let plus = place_of(Sign::Plus, line.tokens.before(arrow));
    rule_at(alloc, line, Signs { arrow, plus })
}

/// Reads a rule, given the indexes of its symbols.
fn rule_at(alloc: Global, line: Line<'_>, signs: Signs) -> Result<Statement, LineError>
    requires few { length (texts line.tokens) < 2 ^ 59 }
    requires within { signs.arrow ≤ length (texts line.tokens) }
    ensures { Reads (rule_at line.entry.group line.entry.number line.entry.last signs.arrow signs.plus (texts line.entry.tokens)) result }
{
    let head = rule_head(line.group, signs, line.tokens);
    match rule_body(alloc, line, signs) {
        Ok(rule) => match head {
            None => Ok(Statement::Rule(rule)),
            Some(code) => Err(LineError::Refused(TokenRefusal { at: 0, code })),
        },
        Err(LineError::Refused(found)) => match head {
            None => Err(LineError::Refused(found)),
            Some(code) => Err(LineError::Refused(earlier(code, found))),
        },
        Err(LineError::Memory) => Err(LineError::Memory),
    }
}

/// Returns the least code of a rule at its first token.
#[tactic(auto, unfolding(crate::specs::Line::rule_head))]
fn rule_head(group: LastGroup, signs: Signs, tokens: LineTokens<'_>) -> Option<Code>
    ensures { result ≡ rule_head group signs.arrow signs.plus (texts tokens.entry) }
{
    if tokens.len() <= signs.arrow && !begins_rule(tokens) {
        return Some(Code::S01);
    }
    if let Some(code) = no_group(group) {
        return Some(code);
    }
    if let Some(code) = no_output(signs.arrow, tokens) {
        return Some(code);
    }
    if uses_keys(group) && signs.arrow <= signs.plus {
        Some(Code::S08)
    } else {
        None
    }
}

/// Returns whether tokens without `>` begin like a rule.
fn begins_rule(tokens: LineTokens<'_>) -> bool
    ensures { result ≡ begins_rule (texts tokens.entry) }
{
    match tokens.tokens {
        [token, ..] => match token.kind {
            TokenKind::Quoted | TokenKind::Number(_) | TokenKind::Plus => true,
            TokenKind::Word => is_item_word(text_in(tokens.source, *token)),
            _ => false,
        },
        [] => false,
    }
}

/// Returns whether the group before uses keys.
fn uses_keys(group: LastGroup) -> bool
    ensures { result ≡ uses_keys group }
{
    match group {
        LastGroup::UsingKeys => true,
        LastGroup::Missing | LastGroup::WithoutKeys => false,
    }
}

/// Reads the items of a rule, section by section.
#[tactic(auto, unfolding(crate::specs::Line::rule_body))]
fn rule_body(alloc: Global, line: Line<'_>, signs: Signs) -> Result<RuleDef, LineError>
    requires few { length (texts line.tokens) < 2 ^ 59 }
    requires within { signs.arrow ≤ length (texts line.tokens) }
    ensures { Reads (rule_body line.entry.group line.entry.number line.entry.last signs.arrow signs.plus (texts line.entry.tokens)) result }
{
    let Line {
        number,
        last,
        tokens,
        ..
    } = line;
    let place = signs.arrow + 1;
    Ok(RuleDef {
        line: number,
        kind: RuleKind::Plain,
        context: read_items(alloc, Where::Context, last, 0, tokens.before(signs.plus))?,
        key: rule_key(alloc, line, signs)?,
        output: read_items(alloc, Where::Output, last, place, tokens.behind(place))?,
    })
}

/// Returns the key of a rule between `+` and `>`.
#[tactic(auto, unfolding(crate::specs::Line::rule_key))]
fn rule_key(alloc: Global, line: Line<'_>, signs: Signs) -> Result<Option<SrcItem>, LineError>
    requires few { length (texts line.tokens) < 2 ^ 59 }
    requires within { signs.arrow ≤ length (texts line.tokens) }
    ensures { Reads (rule_key line.entry.group line.entry.last signs.arrow signs.plus (texts line.entry.tokens)) result }
{
    if signs.arrow <= signs.plus {
        return Ok(None);
    }
    if !uses_keys(line.group) {
        return Err(LineError::Refused(TokenRefusal {
            at: signs.plus,
            code: Code::S07,
        }));
    }
    let key = line.tokens.before(signs.arrow).behind(signs.plus + 1);
    Ok(Some(read_key(alloc, line.last, signs.plus + 1, key)?))
}

/// Returns the earlier of a code at the first token and a fault.
fn earlier(head: Code, found: TokenRefusal) -> TokenRefusal
    ensures { result ≡ earlier head found }
{
    if found.at == 0 && is_lesser(found.code, head) {
        found
    } else {
        TokenRefusal { at: 0, code: head }
    }
}

/// Returns whether a code is less than another, as they are printed.
fn is_lesser(code: Code, other: Code) -> bool
    ensures { result ≡ is_lesser code other }
{
    code.text() < other.text()
}
