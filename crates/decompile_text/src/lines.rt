//! Writes the lines of a text: stores, begin statements, groups and their records.

ghost use Rattle.std.specs.Prelude.{◌≡◌, ◌++◌, ◌∷◌, [], None, unwrap_or, codes, nat_eq, slice_get, OnOk, if◌then◌else◌};
ghost use Rattle.rule_model.specs.declared.system.TheConstants.{NO_GROUP};
ghost use Rattle.kmn_parser.specs.Statements.{system_name};
ghost use Rattle.decompile_text.specs.Pages.{with_text};
ghost use Rattle.decompile_text.specs.OneByOne.{with_elements, with_context, with_outputs, with_rules, with_groups, with_stores};
ghost use Rattle.decompile_text.specs.Texts.{outputs_text, some_outputs_text, rule_text, statement_text, group_text, store_text, begin_text, begins_text, call_text, if_called};

use crate::items::{put_call, put_element, put_key_part, put_output, put_pattern};
use crate::page::Page;
use crate::values::SizedNames;
use decompile_program::Called;
use kmn_base::{Element, Memory};
use kmn_parser::system_store_name;
use kmx_parts::{FileGroup, FileRule, FileTables, Outputs, Patterns};
use rule_model::system::NO_GROUP;
use rule_model::{Out, Store};

/// Appends the lines of the groups of a file.
pub(crate) fn put_groups(
    page: &mut Page,
    names: &SizedNames<'_>,
    file: &FileTables<'_>,
) -> Result<(), Memory>
    ensures { OnOk result (page.new ≡ with_groups names.now 0 page.old file.now.groups) }
{
    let called = names.called();
    for number in 0..file.group_count() {
        let Some(group) = file.group(number) else {
            return Ok(());
        };
        put_group(page, names, called.group(number), &group)?;
    }
    Ok(())
}

/// Appends the lines of a group that has this name.
#[tactic(auto, using(crate::proofs::MoreText::with_text_append, crate::proofs::MoreText::with_no_text, crate::proofs::OneByOne::elements_are, crate::proofs::OneByOne::context_is, crate::proofs::OneByOne::outputs_are, crate::proofs::OneByOne::rules_are), unfolding(crate::specs::Texts::group_text))]
fn put_group(
    page: &mut Page,
    names: &SizedNames<'_>,
    name: &[u8],
    group: &FileGroup<'_>,
) -> Result<(), Memory>
    ensures { OnOk result (page.new ≡ with_text page.old (group_text names.now name.now group.now)) }
{
    put_call(page, b"group", name)?;
    page.put(keys_part(group.using_keys()))?;
    put_rules(page, names, group)?;
    put_statement(page, names, b"match", group.on_match())?;
    put_statement(page, names, b"nomatch", group.on_nomatch())
}

/// Returns the rest of a group's line after the name.
fn keys_part(using_keys: bool) -> &'static [u8]
    ensures { result.now ≡ (if using_keys then codes " using keys\n" else codes "\n") }
{
    if using_keys { b" using keys\n" } else { b"\n" }
}

/// Appends the lines of the records of a group.
fn put_rules(page: &mut Page, names: &SizedNames<'_>, group: &FileGroup<'_>) -> Result<(), Memory>
    ensures { OnOk result (page.new ≡ with_rules names.now page.old group.now.rules) }
{
    for rule in group.rules() {
        put_rule(page, names, &rule)?;
    }
    Ok(())
}

/// Appends the line of a record.
#[tactic(auto, using(crate::proofs::MoreText::with_text_append, crate::proofs::MoreText::with_no_text, crate::proofs::OneByOne::elements_are, crate::proofs::OneByOne::context_is, crate::proofs::OneByOne::outputs_are, crate::proofs::OneByOne::rules_are), unfolding(crate::specs::Texts::rule_text))]
fn put_rule(page: &mut Page, names: &SizedNames<'_>, rule: &FileRule<'_>) -> Result<(), Memory>
    ensures { OnOk result (page.new ≡ with_text page.old (rule_text names.now rule.now)) }
{
    put_context(page, names, rule.context())?;
    put_key_part(page, names.called(), &rule.key())?;
    page.put(b">")?;
    put_some_outputs(page, names, rule.output())?;
    page.put(b"\n")
}

/// Appends the items of a context, each followed by a space.
fn put_context(page: &mut Page, names: &SizedNames<'_>, context: Patterns<'_>) -> Result<(), Memory>
    ensures { OnOk result (page.new ≡ with_context names.now page.old context.entry) }
{
    for pattern in context {
        put_pattern(page, names, &pattern)?;
        page.put(b" ")?;
    }
    Ok(())
}

/// Appends the output of a record, or `nul` if the output is empty.
#[tactic(auto, using(crate::proofs::MoreText::with_text_append, crate::proofs::MoreText::with_no_text, crate::proofs::OneByOne::elements_are, crate::proofs::OneByOne::context_is, crate::proofs::OneByOne::outputs_are, crate::proofs::OneByOne::rules_are))]
fn put_some_outputs(
    page: &mut Page,
    names: &SizedNames<'_>,
    outputs: Outputs<'_>,
) -> Result<(), Memory>
    ensures { OnOk result (page.new ≡ with_text page.old (some_outputs_text names.now outputs.entry)) }
{
    let mut others = outputs;
    match others.next() {
        Some(first) => put_all_outputs(page, names, &first, others),
        None => page.put(b" nul"),
    }
}

/// Appends the items of an output, each preceded by a space: the first one and the others.
fn put_all_outputs(
    page: &mut Page,
    names: &SizedNames<'_>,
    first: &Out,
    others: Outputs<'_>,
) -> Result<(), Memory>
    ensures { OnOk result (page.new ≡ with_outputs names.now page.old (first.now ∷ others.entry)) }
{
    page.put(b" ")?;
    put_output(page, names, first)?;
    put_outputs(page, names, others)
}

/// Appends the items of an output, each preceded by a space.
fn put_outputs(page: &mut Page, names: &SizedNames<'_>, outputs: Outputs<'_>) -> Result<(), Memory>
    ensures { OnOk result (page.new ≡ with_outputs names.now page.old outputs.entry) }
{
    for output in outputs {
        page.put(b" ")?;
        put_output(page, names, &output)?;
    }
    Ok(())
}

/// Appends a match or nomatch line that begins with this word, if the output is not empty.
#[tactic(auto, using(crate::proofs::MoreText::with_no_text))]
fn put_statement(
    page: &mut Page,
    names: &SizedNames<'_>,
    word: &[u8],
    outputs: Outputs<'_>,
) -> Result<(), Memory>
    ensures { OnOk result (page.new ≡ with_text page.old (statement_text names.now word.now outputs.entry)) }
{
    let mut others = outputs;
    match others.next() {
        Some(first) => put_some_statement(page, names, word, &first, others),
        None => Ok(()),
    }
}

/// Appends a match or nomatch line that begins with this word, with the first item of the output and the others.
#[tactic(auto, using(crate::proofs::MoreText::with_text_append, crate::proofs::OneByOne::outputs_are))]
fn put_some_statement(
    page: &mut Page,
    names: &SizedNames<'_>,
    word: &[u8],
    first: &Out,
    others: Outputs<'_>,
) -> Result<(), Memory>
    ensures { OnOk result (page.new ≡ with_text page.old (word.now ++ (codes " >" ++ (outputs_text names.now (first.now ∷ others.entry) ++ 10 ∷ [])))) }
{
    page.put(word)?;
    page.put(b" >")?;
    put_all_outputs(page, names, first, others)?;
    page.put(b"\n")
}

/// Appends the lines of those stores that the text contains.
pub(crate) fn put_stores(
    page: &mut Page,
    names: &Called<'_>,
    stores: &[Store],
) -> Result<(), Memory>
    ensures { OnOk result (page.new ≡ with_stores names.now 0 page.old stores.now) }
{
    for (number, store) in stores.iter().enumerate() {
        put_if_called(page, names, number, store)?;
    }
    Ok(())
}

/// Appends the line of the store of a number if the text contains this store.
fn put_if_called(
    page: &mut Page,
    names: &Called<'_>,
    number: usize,
    store: &Store,
) -> Result<(), Memory>
    ensures { OnOk result (page.new ≡ with_text page.old (if_called names.now (unwrap_or (slice_get names.now.stores number) None) store.now)) }
{
    match names.store_at(number) {
        Some(name) => put_store(page, names, name, store),
        None => Ok(()),
    }
}

/// Appends the line of a store under its name.
#[tactic(auto, using(crate::proofs::MoreText::with_text_append, crate::proofs::MoreText::with_no_text, crate::proofs::OneByOne::elements_are, crate::proofs::OneByOne::context_is, crate::proofs::OneByOne::outputs_are, crate::proofs::OneByOne::rules_are), unfolding(crate::specs::Texts::store_text))]
fn put_store(page: &mut Page, names: &Called<'_>, name: &[u8], store: &Store) -> Result<(), Memory>
    ensures { OnOk result (page.new ≡ with_text page.old (store_text names.now name.now store.now)) }
{
    put_store_name(page, name, store.system)?;
    put_elements(page, names, store.elements.as_slice())?;
    page.put(b"\n")
}

/// Appends the word `store` and the name of a store: the name of its system id if it has one, else this name.
fn put_store_name(page: &mut Page, name: &[u8], system: u32) -> Result<(), Memory>
    ensures { OnOk result (page.new ≡ with_text page.old (call_text (codes "store") (if nat_eq system 0 then name.now else system_name system))) }
{
    if system == 0 {
        put_call(page, b"store", name)
    } else {
        put_system_name(page, system)
    }
}

/// Appends the word `store` and the name of a system store, with its `&`.
#[tactic(auto, using(crate::proofs::MoreText::with_text_append, crate::proofs::MoreText::with_no_text))]
fn put_system_name(page: &mut Page, system: u32) -> Result<(), Memory>
    ensures { OnOk result (page.new ≡ with_text page.old (call_text (codes "store") (system_name system))) }
{
    page.put(b"store(&")?;
    page.put(system_store_name(system))?;
    page.put(b")")
}

/// Appends elements, each preceded by a space.
fn put_elements(page: &mut Page, names: &Called<'_>, elements: &[Element]) -> Result<(), Memory>
    ensures { OnOk result (page.new ≡ with_elements names.now page.old elements.now) }
{
    for element in elements {
        page.put(b" ")?;
        put_element(page, names, element)?;
    }
    Ok(())
}

/// Appends the begin statements.
#[tactic(auto, using(crate::proofs::MoreText::with_text_append))]
pub(crate) fn put_begins(
    page: &mut Page,
    names: &Called<'_>,
    unicode: u32,
    ansi: u32,
) -> Result<(), Memory>
    ensures { OnOk result (page.new ≡ with_text page.old (begins_text names.now unicode ansi)) }
{
    put_begin(page, b"Unicode", names.group(unicode))?;
    put_ansi(page, is_no_group(ansi), names.group(ansi))
}

/// Appends a begin statement of a kind, with the name of its group.
#[tactic(auto, using(crate::proofs::MoreText::with_text_append, crate::proofs::MoreText::with_no_text, crate::proofs::OneByOne::elements_are, crate::proofs::OneByOne::context_is, crate::proofs::OneByOne::outputs_are, crate::proofs::OneByOne::rules_are), unfolding(crate::specs::Texts::begin_text))]
fn put_begin(page: &mut Page, kind: &[u8], name: &[u8]) -> Result<(), Memory>
    ensures { OnOk result (page.new ≡ with_text page.old (begin_text kind.now name.now)) }
{
    page.put(b"begin ")?;
    page.put(kind)?;
    page.put(b" > ")?;
    put_call(page, b"use", name)?;
    page.put(b"\n")
}

/// Appends the begin statement of the kind `ANSI`, unless it is absent.
#[tactic(auto, using(crate::proofs::MoreText::with_no_text))]
fn put_ansi(page: &mut Page, is_none: bool, name: &[u8]) -> Result<(), Memory>
    ensures { OnOk result (page.new ≡ with_text page.old (if is_none then [] else begin_text (codes "ANSI") name.now)) }
{
    if is_none {
        Ok(())
    } else {
        put_begin(page, b"ANSI", name)
    }
}

/// Returns whether the number of a start group is the number for no group.
fn is_no_group(group: u32) -> bool
    ensures { result ≡ nat_eq group NO_GROUP }
{
    group == NO_GROUP
}
