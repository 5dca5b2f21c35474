//! Reads all lines of a source, and continues after refused lines.

ghost use Rattle.std.specs.Prelude.{◌≡◌, ◌-◌, ◌^◌, ◌<◌, ◌≤◌, None, length, slice_get, IfOk, OnOk};
ghost use Rattle.std.specs.Option.{option_copied};
ghost use Rattle.kmn_base.specs.declared.limits.TheConstants.{TEXT_BYTES};
ghost use Rattle.kmn_items.specs.TokenTexts.{texts};
ghost use Rattle.kmn_lines.specs.Places.{IsPlaced};
ghost use Rattle.kmn_lines.specs.Tokens.{line_refusal, line_tokens};
ghost use Rattle.source_faults.specs.Reading.{accepted, fits, group_for, is_fresh_after, is_group, is_opening, is_rule, hides_group, is_begin, is_of_group, is_sure_after, noted, opens_after, read_all, read_on, statement_refused, token_refused, with_begin, with_room};

use crate::found::Found;
use crate::words::{begins_with, has_word, words_of};
use kmn_base::{Code, CompileError, Memory, Refusal, Seq, Text};
use kmn_items::{LineError, LineTokens};
use kmn_lines::{Logical, Token, lines};
use kmn_parser::{LastGroup, Sign, Statement, add_statement, group_after, place_of, read_line};
use kmn_tokens::tokens;
use rule_model::{BeginDef, GroupDef, Program, RuleDef};
use std::alloc::Global;

/// Reads all lines of a source in UTF-8. Errors: `Memory` if an allocation fails.
#[tactic(auto, using(kmn_parser::proofs::LineLemmas::by_recursion), unfolding(crate::specs::Reading::read_all))]
pub fn read_all(alloc: Global, source: &str) -> Result<Found, Memory>
    requires { length source.now ≤ TEXT_BYTES }
    ensures { IfOk result (λ found. found ≡ read_all source.now) }
{
    let mut found = Found {
        program: Program {
            stores: Seq::new(alloc),
            begins: Seq::new(alloc),
            groups: Seq::new(alloc),
        },
        group: LastGroup::Missing,
        sure: true,
        fresh: false,
        opens: false,
        tokens: Seq::new(alloc),
        statements: Seq::new(alloc),
        words: Seq::new(alloc),
    };
    for logical in lines(source) {
        read_on(alloc, source, &mut found, logical)?;
    }
    Ok(found)
}

/// Reads another line.
#[tactic(auto, using(crate::proofs::ReadLines::scanned_tokens, crate::proofs::ReadLines::scanned_refusal))]
fn read_on(alloc: Global, source: &str, found: &mut Found, logical: Logical) -> Result<(), Memory>
    requires few { length source.now ≤ TEXT_BYTES }
    requires placed { IsPlaced source.now logical }
    ensures { OnOk result (found.new ≡ read_on source.now found.old logical) }
{
    match tokens(alloc, source, logical) {
        Ok(tokens) => read_tokens(alloc, source, found, logical, tokens.as_slice()),
        Err(CompileError::Refused(refusal)) => {
            let words = words_of(alloc, source, logical)?;
            refuse_tokens(alloc, found, refusal, words)
        }
        Err(_) => Err(Memory),
    }
}

/// Reads the statement of a line whose tokens are not refused.
fn read_tokens(
    alloc: Global,
    source: &str,
    found: &mut Found,
    logical: Logical,
    tokens: &[Token],
) -> Result<(), Memory>
    requires text { length source.now ≤ TEXT_BYTES }
    requires placed { IsPlaced source.now logical }
    requires few { length tokens.now < 2 ^ 59 }
    requires whole { tokens.now ≡ line_tokens source.now logical }
    requires clean { line_refusal source.now logical ≡ None }
    ensures { OnOk result (found.new ≡ read_on source.now found.old logical) }
{
    let line = logical.first_line;
    let tokens = LineTokens {
        source: source.as_bytes(),
        tokens,
    };
    match read_line(alloc, group_for(found, tokens), line, tokens) {
        Ok(statement) => accept(alloc, found, statement),
        Err(LineError::Refused(fault)) => {
            let words = words_of(alloc, source, logical)?;
            let code = fault.code;
            refuse_statement(alloc, found, Refusal { line, code }, words)
        }
        Err(LineError::Memory) => Err(Memory),
    }
}

/// Returns the group that a line is read in: if it is unknown, one of the kind that the line needs.
fn group_for(found: &Found, tokens: LineTokens<'_>) -> LastGroup
    ensures { result ≡ group_for found.now (texts tokens.entry) }
{
    if found.sure {
        found.group
    } else if place_of(Sign::Plus, tokens) < place_of(Sign::Arrow, tokens) {
        LastGroup::UsingKeys
    } else {
        LastGroup::WithoutKeys
    }
}

/// Adds a line that is read as a statement.
fn accept(alloc: Global, found: &mut Found, statement: Statement) -> Result<(), Memory>
    ensures { OnOk result (found.new ≡ accepted found.old statement) }
{
    if !found.sure {
        make_room(alloc, &mut found.program, found.opens, &statement)?;
    }
    let group = is_group(&statement);
    found.opens = found.opens && !(group || is_rule(&statement));
    found.fresh = is_fresh_after(found.fresh, &statement);
    found.sure = found.sure || group;
    found.group = group_after(found.group, &statement);
    add_statement(&mut found.program, statement)
}

/// Returns whether a statement is a group.
fn is_group(statement: &Statement) -> bool
    ensures { result ≡ is_group statement.now }
{
    match statement {
        Statement::Group(_) => true,
        _ => false,
    }
}

/// Returns whether a statement is a rule, match or nomatch.
fn is_rule(statement: &Statement) -> bool
    ensures { result ≡ is_rule statement.now }
{
    match statement {
        Statement::Rule(_) => true,
        _ => false,
    }
}

/// Returns whether the last group has no rule yet, after a statement.
fn is_fresh_after(fresh: bool, statement: &Statement) -> bool
    ensures { result ≡ is_fresh_after fresh statement.now }
{
    match statement {
        Statement::Group(_) => true,
        Statement::Rule(_) => false,
        _ => fresh,
    }
}

/// Opens a nameless group if the last group does not fit a rule, or if one has to be opened.
fn make_room(
    alloc: Global,
    program: &mut Program,
    opens: bool,
    statement: &Statement,
) -> Result<(), Memory>
    ensures { OnOk result (program.new ≡ with_room opens program.old statement.now) }
{
    match statement {
        Statement::Rule(rule) => make_room_for(alloc, program, opens, rule),
        _ => Ok(()),
    }
}

/// Opens a nameless group if the last group does not fit this rule, or if one has to be opened.
fn make_room_for(
    alloc: Global,
    program: &mut Program,
    opens: bool,
    rule: &RuleDef,
) -> Result<(), Memory>
    ensures { OnOk result (program.new ≡ with_room opens program.old (Statement.Rule rule.now)) }
{
    let keys = rule.key.is_some();
    if !opens && last_fits(keys, program.groups.as_slice()) {
        return Ok(());
    }
    program.groups.add(GroupDef {
        line: 0,
        name: Seq::new(alloc),
        using_keys: keys,
        rules: Seq::new(alloc),
    })
}

/// Returns whether the last group fits rules with a key, or without.
fn last_fits(keys: bool, groups: &[GroupDef]) -> bool
    ensures { result ≡ fits keys (slice_get groups.now (length groups.now - 1)) }
{
    fits(keys, groups.last())
}

/// Returns whether a group fits rules with a key, or without.
fn fits(keys: bool, group: Option<&GroupDef>) -> bool
    ensures { result ≡ fits keys (option_copied group.entry) }
{
    match group {
        Some(group) => {
            if keys {
                group.using_keys
            } else {
                !group.using_keys
            }
        }
        None => false,
    }
}

/// Adds a line whose tokens are refused.
fn refuse_tokens(
    alloc: Global,
    found: &mut Found,
    refusal: Refusal,
    words: Seq<Text>,
) -> Result<(), Memory>
    ensures { OnOk result (found.new ≡ token_refused found.old refusal words) }
{
    note_words(alloc, found, refusal, words.as_slice())?;
    found.tokens.add(refusal)?;
    found.words.append(words)
}

/// Adds a line whose statement is refused.
fn refuse_statement(
    alloc: Global,
    found: &mut Found,
    refusal: Refusal,
    words: Seq<Text>,
) -> Result<(), Memory>
    ensures { OnOk result (found.new ≡ statement_refused found.old refusal words) }
{
    note_words(alloc, found, refusal, words.as_slice())?;
    found.statements.add(refusal)?;
    found.words.append(words)
}

/// Keeps what later lines need of a refused line.
fn note_words(
    alloc: Global,
    found: &mut Found,
    refusal: Refusal,
    words: &[Text],
) -> Result<(), Memory>
    ensures { OnOk result (found.new ≡ noted found.old refusal words.now) }
{
    let sure = is_sure_after(found, refusal.code, words);
    let opens = opens_after(found, refusal.code, words);
    found.sure = sure;
    found.opens = opens;
    note_begin(alloc, &mut found.program, refusal.line, words)
}

/// Adds a begin for a refused line that may be one.
fn note_begin(alloc: Global, program: &mut Program, line: u32, words: &[Text]) -> Result<(), Memory>
    ensures { OnOk result (program.new ≡ with_begin program.old line words.now) }
{
    if !is_begin(words) {
        return Ok(());
    }
    program.begins.add(BeginDef {
        line,
        unicode: !has_word(b"ansi", words),
        group: Seq::new(alloc),
    })
}

/// Returns whether a refused line may be a begin.
fn is_begin(words: &[Text]) -> bool
    ensures { result ≡ is_begin words.now }
{
    begins_with(b"begin", words) || has_word(b"unicode", words)
}

/// Returns whether the last group is known after a refused line.
fn is_sure_after(found: &Found, code: Code, words: &[Text]) -> bool
    ensures { result ≡ is_sure_after found.now code words.now }
{
    let hides = begins_with(b"group", words) || hides_group(code);
    found.sure && !(hides || found.fresh && is_of_group(code))
}

/// Returns whether the last group is unknown after a line that is refused with this code.
fn hides_group(code: Code) -> bool
    ensures { result ≡ hides_group code }
{
    match code {
        Code::S01 | Code::S03 => true,
        _ => false,
    }
}

/// Returns whether a code refuses a rule for the kind of its group.
fn is_of_group(code: Code) -> bool
    ensures { result ≡ is_of_group code }
{
    match code {
        Code::S07 | Code::S08 => true,
        _ => false,
    }
}

/// Returns whether the next rule opens a group, after a refused line.
fn opens_after(found: &Found, code: Code, words: &[Text]) -> bool
    ensures { result ≡ opens_after found.now code words.now }
{
    found.opens || (begins_with(b"group", words) || is_opening(code))
}

/// Returns whether a line that is refused with this code may have opened a group.
fn is_opening(code: Code) -> bool
    ensures { result ≡ is_opening code }
{
    match code {
        Code::S01 => true,
        _ => false,
    }
}
