//! Writes what a program states, in the notation of the rows.

use kmn_base::{CompileError, Seq};
use rule_model::{GroupDef, KeyName, Program, RuleDef, RuleKind, SrcItem, StoreDef};
use std::alloc::AllocError;
use std::fmt::Write;
use std::str;

fn name(bytes: &Seq<u8>) -> &str {
    str::from_utf8(bytes.as_slice()).unwrap_or("?")
}

fn write_chars(out: &mut String, chars: &Seq<char>) -> Result<(), AllocError> {
    let mut parting = "";
    for c in chars.as_slice() {
        write!(out, "{parting}{:X}", *c as u32)?;
        parting = " ";
    }
    Ok(())
}

fn write_key(out: &mut String, key: &KeyName) -> Result<(), AllocError> {
    write!(out, "[{:X} {}", u32::from(key.flags), key.code)?;
    if key.code == 0 {
        write!(out, " {}", name(&key.name))?;
    }
    out.push(']')
}

/// Writes an item with a word, a store, an operator and a value.
fn write_value(
    out: &mut String,
    word: &str,
    store: &Seq<u8>,
    sign: &str,
    value: &Seq<char>,
) -> Result<(), AllocError> {
    write!(out, "{word}({}{sign}", name(store))?;
    write_chars(out, value)?;
    out.push(')')
}

/// Writes an item on a system option, with the id of the option.
fn write_system(
    out: &mut String,
    word: &str,
    id: u32,
    sign: &str,
    value: &Seq<char>,
) -> Result<(), AllocError> {
    write!(out, "{word}(&{id}{sign}")?;
    write_chars(out, value)?;
    out.push(')')
}

/// Writes an item that has a number or a value.
fn write_item(out: &mut String, item: &SrcItem) -> Result<(), AllocError> {
    match item {
        SrcItem::Char(c) => write!(out, "{:X}", *c as u32),
        SrcItem::Key(key) => write_key(out, key),
        SrcItem::Index(store, offset) => write!(out, "index({},{offset})", name(store)),
        SrcItem::ContextAt(offset) => write!(out, "context({offset})"),
        SrcItem::Equal(store, value) => write_value(out, "if", store, "=", value),
        SrcItem::Unequal(store, value) => write_value(out, "if", store, "!=", value),
        SrcItem::Set(store, value) => write_value(out, "set", store, "=", value),
        SrcItem::SystemEqual(id, value) => write_system(out, "if", *id, "=", value),
        SrcItem::SystemUnequal(id, value) => write_system(out, "if", *id, "!=", value),
        SrcItem::SetSystem(id, value) => write_system(out, "set", *id, "=", value),
        other => write_named(out, other),
    }
}

fn write_call(out: &mut String, word: &str, argument: &Seq<u8>) -> Result<(), AllocError> {
    write!(out, "{word}({})", name(argument))
}

/// Writes an item that has at most a name.
fn write_named(out: &mut String, item: &SrcItem) -> Result<(), AllocError> {
    match item {
        SrcItem::Dead(mark) => write_call(out, "dk", mark),
        SrcItem::Any(store) => write_call(out, "any", store),
        SrcItem::NotAny(store) => write_call(out, "notany", store),
        SrcItem::Outs(store) => write_call(out, "outs", store),
        SrcItem::Enter(group) => write_call(out, "use", group),
        SrcItem::Save(store) => write_call(out, "save", store),
        SrcItem::Reset(store) => write_call(out, "reset", store),
        SrcItem::Call(library) => write_call(out, "call", library),
        other => out.push_str(word_of(other)),
    }
}

/// Returns the keyword of an item without a name, or `-` for an item that the compiler does not support.
fn word_of(item: &SrcItem) -> &'static str {
    match item {
        SrcItem::Context => "context",
        SrcItem::Nul => "nul",
        SrcItem::Beep => "beep",
        SrcItem::Stop => "return",
        _ => "-",
    }
}

fn write_items(out: &mut String, items: &Seq<SrcItem>) -> Result<(), AllocError> {
    for item in items.as_slice() {
        out.push(' ')?;
        write_item(out, item)?;
    }
    Ok(())
}

fn write_store(out: &mut String, store: &StoreDef) -> Result<(), AllocError> {
    write!(out, "; {} store ", store.line)?;
    if store.system == 0 {
        out.push_str(name(&store.name))?;
    } else {
        write!(out, "{}", store.system)?;
    }
    out.push(':')?;
    write_items(out, &store.items)
}

fn write_rule(out: &mut String, rule: &RuleDef) -> Result<(), AllocError> {
    write!(out, "; {}", rule.line)?;
    match rule.kind {
        RuleKind::Plain => write_items(out, &rule.context)?,
        RuleKind::OnMatch => out.push_str(" match")?,
        RuleKind::OnNoMatch => out.push_str(" nomatch")?,
    }
    if let Some(key) = &rule.key {
        out.push_str(" + ")?;
        write_item(out, key)?;
    }
    out.push_str(" >")?;
    write_items(out, &rule.output)
}

/// Writes a group with its rules. Writes its own line only if it comes after the `opened` lines.
fn write_group(out: &mut String, opened: u32, group: &GroupDef) -> Result<(), AllocError> {
    if opened < group.line {
        let keys = if group.using_keys { " keys" } else { "" };
        write!(out, "; {} group {}{keys}", group.line, name(&group.name))?;
    }
    for rule in group.rules.as_slice() {
        write_rule(out, rule)?;
    }
    Ok(())
}

/// Writes the begin statements after the first `opened` lines.
fn write_begins(out: &mut String, opened: u32, program: &Program) -> Result<(), AllocError> {
    for begin in program.begins.as_slice() {
        if opened < begin.line {
            let kind = if begin.unicode { "Unicode" } else { "ANSI" };
            write!(out, "; {} {kind} {}", begin.line, name(&begin.group))?;
        }
    }
    Ok(())
}

/// Writes the begin statements and groups after the first `opened` lines.
fn write_groups(out: &mut String, opened: u32, program: &Program) -> Result<(), AllocError> {
    write_begins(out, opened, program)?;
    for group in program.groups.as_slice() {
        write_group(out, opened, group)?;
    }
    Ok(())
}

/// Writes what a program states after the first `opened` lines.
pub fn write_program(out: &mut String, opened: u32, program: &Program) -> Result<(), AllocError> {
    for store in program.stores.as_slice() {
        write_store(out, store)?;
    }
    write_groups(out, opened, program)
}

pub fn write_error(out: &mut String, error: &CompileError) -> Result<(), AllocError> {
    match error {
        CompileError::Refused(refusal) => write!(out, "{} {}", refusal.code, refusal.line),
        _ => out.push_str("another error"),
    }
}
