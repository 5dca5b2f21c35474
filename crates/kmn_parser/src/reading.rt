//! Parses a source in one pass over its lines. Faults of bytes precede faults of tokens, which precede faults of statements.

ghost use Rattle.std.specs.Prelude.{◌≡◌, ◌≤◌, ◌<◌, ◌^◌, length, OnOk};
ghost use Rattle.kmn_base.specs.Answers.{Answers};
ghost use Rattle.kmn_lines.specs.Tokens.{line_tokens};
ghost use Rattle.kmn_parser.specs.Source.{parsed, read_text, last_group, group_after, with_rule, with_statement};
ghost use Rattle.kmn_parser.specs.Reading.{reading_after};

use crate::line::read_line;
use crate::statement::{LastGroup, Statement};
use kmn_base::limits::TEXT_BYTES;
use kmn_base::{Code, CompileError, Memory, Refusal, Seq};
use kmn_items::{LineError, LineTokens};
use kmn_lines::{Logical, Token, lines};
use kmn_tokens::tokens;
use rule_model::{GroupDef, Program, RuleDef};
use std::alloc::Global;
use std::str;

/// Parses a source as a program. Errors: `Memory` if an allocation fails; else the first refusal of the source. Bytes are
/// checked first (`L05`, `L01`, at line 1), then the tokens of all lines (`L02` to `L04`), then their statements (`S01` to
/// `S12`, and `L02` and `L04` of numbers in words). A refusal has the number of its logical line's first physical line.
/// `TooLarge` is never returned. The language is that of the Keyman language reference. The order of faults, and what the
/// reference leaves open, are our own choice (`docs/LANGUAGE.md`).
#[tactic(auto, unfolding(crate::specs::Source::parsed))]
pub fn parse(alloc: Global, source: &[u8]) -> Result<Program, CompileError>
    ensures { Answers (parsed source.now) result }
{
    if source.len() > TEXT_BYTES {
        return Err(refused(1, Code::L05));
    }
    match str::from_utf8(source) {
        Ok(text) => read_text(alloc, text),
        Err(_) => Err(refused(1, Code::L01)),
    }
}

/// Returns the error of a code at a line.
fn refused(line: u32, code: Code) -> CompileError
    ensures { result ≡ CompileError.Refused (record { line = line; code = code }) }
{
    CompileError::Refused(Refusal { line, code })
}

/// The result of the lines of a source so far: the program of their statements with its last group, or the first refusal among
/// these. A refused source is read to its end, since faults in the tokens of any line precede faults in statements.
#[derive(Drop)]
struct Reading {
    program: Program,
    group: LastGroup,
    refused: Option<Refusal>,
}

/// Reads the lines of a source in UTF-8, each once. Errors: as in `parse`.
#[tactic(auto, using(crate::proofs::LineLemmas::by_recursion, crate::proofs::LineLemmas::reads_on))]
fn read_text(alloc: Global, source: &str) -> Result<Program, CompileError>
    requires { length source.now ≤ TEXT_BYTES }
    ensures { Answers (read_text source.now) result }
{
    let mut reading = Reading {
        program: Program {
            stores: Seq::new(alloc),
            begins: Seq::new(alloc),
            groups: Seq::new(alloc),
        },
        group: LastGroup::Missing,
        refused: None,
    };
    for logical in lines(source) {
        let tokens = tokens(alloc, source, logical)?;
        read_on(alloc, source, &mut reading, logical, tokens.as_slice())?;
    }
    match reading.refused {
        Some(refusal) => Err(CompileError::Refused(refusal)),
        None => Ok(reading.program),
    }
}

/// Reads the tokens of another line. Errors: `Memory` if an allocation fails; the reading is then unspecified.
fn read_on(
    alloc: Global,
    source: &str,
    reading: &mut Reading,
    logical: Logical,
    tokens: &[Token],
) -> Result<(), Memory>
    requires few { length tokens.now < 2 ^ 59 }
    requires whole { tokens.now ≡ line_tokens source.now logical }
    ensures { OnOk result (reading.new ≡ reading_after source.now reading.old logical) }
{
    if reading.refused.is_some() {
        return Ok(());
    }
    let line = logical.first_line;
    let tokens = LineTokens {
        source: source.as_bytes(),
        tokens,
    };
    match read_line(alloc, reading.group, line, tokens) {
        Ok(statement) => {
            reading.group = group_after(reading.group, &statement);
            add_statement(&mut reading.program, statement)
        }
        Err(LineError::Refused(fault)) => {
            reading.refused = Some(Refusal {
                line,
                code: fault.code,
            });
            Ok(())
        }
        Err(LineError::Memory) => Err(Memory),
    }
}

/// Returns the last group after a statement.
pub fn group_after(group: LastGroup, statement: &Statement) -> LastGroup
    ensures { result ≡ group_after group statement.now }
{
    match statement {
        Statement::Group(opened) => last_group(opened.using_keys),
        _ => group,
    }
}

/// Returns a group as the last one.
fn last_group(using_keys: bool) -> LastGroup
    ensures { result ≡ last_group using_keys }
{
    if using_keys {
        LastGroup::UsingKeys
    } else {
        LastGroup::WithoutKeys
    }
}

/// Appends a statement to a program.
pub fn add_statement(program: &mut Program, statement: Statement) -> Result<(), Memory>
    ensures { OnOk result (program.new ≡ with_statement program.old statement) }
{
    match statement {
        Statement::Nothing => Ok(()),
        Statement::Store(store) => program.stores.add(store),
        Statement::Begin(begin) => program.begins.add(begin),
        Statement::Group(group) => program.groups.add(group),
        Statement::Rule(rule) => add_rule(&mut program.groups, rule),
    }
}

/// Appends a rule to the last of the groups.
#[tactic(auto, using(crate::proofs::LineLemmas::rule_goes_last))]
fn add_rule(groups: &mut Seq<GroupDef>, rule: RuleDef) -> Result<(), Memory>
    ensures { OnOk result (groups.new ≡ with_rule groups.old rule) }
{
    match groups.pop() {
        Some(mut group) => {
            group.rules.add(rule)?;
            groups.add(group)
        }
        None => Ok(()),
    }
}
