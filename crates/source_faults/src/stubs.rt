//! Replaces refused statements by what other statements need of them.

ghost use Rattle.std.specs.Prelude.{◌≡◌, ◌++◌, map, IfOk, OnOk};
ghost use Rattle.rule_model.specs.declared.program.RuleDef.{RuleDef};
ghost use Rattle.rule_model.specs.declared.program.StoreDef.{StoreDef};
ghost use Rattle.store_table.specs.Names.{group_names, store_names};
ghost use Rattle.source_faults.specs.Stubs.{code_at, new_words, stub_group, stub_items, stub_name, stub_rule, stub_store, stubbed, with_words, word_group, word_store};

use crate::refused_lines::RefusedLines;
use kmn_base::{Code, Memory, Seq, Text};
use rule_model::{GroupDef, Program, RuleDef, SrcItem, StoreDef};
use source_names::{group_names, store_names};
use std::alloc::Global;
use store_table::NameTable;

/// Adds a store and a group for each word of a refused line, or for each name that is not defined, where a program does not define it. Errors: `Memory` if an allocation fails.
pub(crate) fn with_words(alloc: Global, program: Program, words: &[Text]) -> Result<Program, Memory>
    ensures { IfOk result (λ whole. whole ≡ with_words program words.now) }
{
    let Program {
        stores,
        begins,
        groups,
    } = program;
    let stores = with_word_stores(alloc, stores, words)?;
    let groups = with_word_groups(alloc, groups, words)?;
    Ok(Program {
        stores,
        begins,
        groups,
    })
}

/// Puts a store for each new word before stores.
fn with_word_stores(
    alloc: Global,
    stores: Seq<StoreDef>,
    words: &[Text],
) -> Result<Seq<StoreDef>, Memory>
    ensures { IfOk result (λ all. all ≡ map word_store (new_words (store_names stores) words.now) ++ stores) }
{
    let names = store_names(alloc, stores.as_slice())?;
    let words = new_words(alloc, names, words)?;
    let mut all = word_stores(alloc, words.as_slice())?;
    all.append(stores)?;
    Ok(all)
}

/// Puts a group for each new word before groups.
fn with_word_groups(
    alloc: Global,
    groups: Seq<GroupDef>,
    words: &[Text],
) -> Result<Seq<GroupDef>, Memory>
    ensures { IfOk result (λ all. all ≡ map word_group (new_words (group_names groups) words.now) ++ groups) }
{
    let names = group_names(alloc, groups.as_slice())?;
    let words = new_words(alloc, names, words)?;
    let mut all = word_groups(alloc, words.as_slice())?;
    all.append(groups)?;
    Ok(all)
}

/// Returns the words that are not among names, each once.
fn new_words(alloc: Global, mut names: NameTable, words: &[Text]) -> Result<Seq<Text>, Memory>
    ensures { IfOk result (λ new. new ≡ new_words names words.now) }
{
    let mut new = Seq::new(alloc);
    for word in words {
        if !names.has(word.as_slice()) {
            names.push(word.as_slice())?;
            new.add(word.copy(alloc)?)?;
        }
    }
    Ok(new)
}

/// Returns a store for each word.
fn word_stores(alloc: Global, words: &[Text]) -> Result<Seq<StoreDef>, Memory>
    ensures { IfOk result (λ stores. stores ≡ map word_store words.now) }
{
    let mut stores = Seq::new(alloc);
    for word in words {
        stores.add(StoreDef {
            line: 0,
            system: 0,
            name: word.copy(alloc)?,
            items: stub_items(alloc)?,
        })?;
    }
    Ok(stores)
}

/// Returns a group for each word.
fn word_groups(alloc: Global, words: &[Text]) -> Result<Seq<GroupDef>, Memory>
    ensures { IfOk result (λ groups. groups ≡ map word_group words.now) }
{
    let mut groups = Seq::new(alloc);
    for word in words {
        groups.add(GroupDef {
            line: 0,
            name: word.copy(alloc)?,
            using_keys: true,
            rules: Seq::new(alloc),
        })?;
    }
    Ok(groups)
}

/// Returns the items of a store of which only the name is known.
fn stub_items(alloc: Global) -> Result<Seq<SrcItem>, Memory>
    ensures { IfOk result (λ items. items ≡ stub_items) }
{
    let mut items = Seq::new(alloc);
    items.add(SrcItem::Char('a'))?;
    Ok(items)
}

/// Replaces the refused stores, groups and rules of a program. Errors: `Memory` if an allocation fails.
pub(crate) fn stub_refused(
    alloc: Global,
    refused: &RefusedLines<'_>,
    program: &mut Program,
) -> Result<(), Memory>
    ensures { OnOk result (program.new ≡ stubbed refused.now program.old) }
{
    stub_stores(alloc, refused, program.stores.as_mut_slice())?;
    stub_groups(alloc, refused, program.groups.as_mut_slice());
    Ok(())
}

/// Replaces the refused stores.
fn stub_stores(
    alloc: Global,
    refused: &RefusedLines<'_>,
    stores: &mut [StoreDef],
) -> Result<(), Memory>
    ensures { OnOk result (stores.new ≡ map (λ (store : StoreDef). stub_store (code_at refused.now store.line) store) stores.old) }
{
    for store in stores.iter_mut() {
        stub_store(alloc, refused, store)?;
    }
    Ok(())
}

/// Replaces a store if it is refused.
fn stub_store(alloc: Global, refused: &RefusedLines<'_>, store: &mut StoreDef) -> Result<(), Memory>
    ensures { OnOk result (store.new ≡ stub_store (code_at refused.now store.old.line) store.old) }
{
    let Some(code) = refused.code_at(store.line) else {
        return Ok(());
    };
    store.items = stub_items(alloc)?;
    if code == Code::C03 {
        store.name = Seq::new(alloc);
    }
    Ok(())
}

/// Replaces the refused groups and rules.
fn stub_groups(alloc: Global, refused: &RefusedLines<'_>, groups: &mut [GroupDef])
    ensures { groups.new ≡ map (stub_group refused.now) groups.old }
{
    for group in groups.iter_mut() {
        stub_group(alloc, refused, group);
    }
}

/// Replaces a group if it is refused, and its refused rules.
fn stub_group(alloc: Global, refused: &RefusedLines<'_>, group: &mut GroupDef)
    ensures { group.new ≡ stub_group refused.now group.old }
{
    if refused.code_at(group.line).is_some() {
        group.name = Seq::new(alloc);
    }
    stub_rules(alloc, refused, group.rules.as_mut_slice());
}

/// Replaces the refused rules.
fn stub_rules(alloc: Global, refused: &RefusedLines<'_>, rules: &mut [RuleDef])
    ensures { rules.new ≡ map (λ (rule : RuleDef). stub_rule (code_at refused.now rule.line) rule) rules.old }
{
    for rule in rules.iter_mut() {
        stub_rule(alloc, refused, rule);
    }
}

/// Replaces a rule if it is refused.
fn stub_rule(alloc: Global, refused: &RefusedLines<'_>, rule: &mut RuleDef)
    ensures { rule.new ≡ stub_rule (code_at refused.now rule.old.line) rule.old }
{
    if refused.code_at(rule.line).is_some() {
        rule.context = Seq::new(alloc);
        rule.key = None;
        rule.output = Seq::new(alloc);
    }
}
