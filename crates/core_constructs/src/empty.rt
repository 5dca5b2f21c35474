//! Records with an empty context in groups without keys.

ghost use Rattle.std.specs.Prelude.{◌≡◌};
ghost use Rattle.std.specs.List.{list_all};
ghost use Rattle.core_constructs.specs.Empty.{item_numbers, same_item, same_outputs, has_empty_context, from_empty, fits_nomatch, is_nomatch_for, is_empty_converted};

use crate::outputs::{acts, ends, some_puts_match};
use kmn_base::slices::behind;
use rule_model::{Group, Out, Rule};

/// Returns whether the nomatch output of a group does what its records with an empty context do.
pub(crate) fn is_empty_converted(group: &Group) -> bool
    ensures { result ≡ is_empty_converted group.now }
{
    is_nomatch_for(group, from_empty(group.rules.as_slice()))
}

/// Returns the records from the first one with an empty context on.
fn from_empty(rules: &[Rule]) -> &[Rule]
    ensures { result.now ≡ from_empty rules.now }
{
    for i in 0..rules.len() {
        if has_empty_context(&rules[i]) {
            return behind(rules, i);
        }
    }
    &[]
}

/// Returns whether a record has an empty context.
pub(crate) fn has_empty_context(rule: &Rule) -> bool
    ensures { result ≡ has_empty_context rule.now }
{
    rule.context.is_empty()
}

/// Returns whether the nomatch output is that of the first of these records, and does the same.
fn is_nomatch_for(group: &Group, rules: &[Rule]) -> bool
    ensures { result ≡ is_nomatch_for group.now rules.now }
{
    match rules {
        [rule, rest @ ..] => {
            all_empty(rest)
                && fits_nomatch(group, rule.output.as_slice())
                && same_outputs(group.on_nomatch.as_slice(), rule.output.as_slice())
        }
        [] => false,
    }
}

/// Returns whether all records have an empty context.
fn all_empty(rules: &[Rule]) -> bool
    ensures { result ≡ list_all has_empty_context rules.now }
{
    rules.iter().all(|rule| has_empty_context(rule))
}

/// Returns whether an output does the same as the nomatch output of a group.
fn fits_nomatch(group: &Group, outputs: &[Out]) -> bool
    ensures { result ≡ fits_nomatch group.now outputs.now }
{
    !outputs.is_empty()
        && !some_puts_match(outputs)
        && (!acts(group.on_match.as_slice()) || ends(outputs))
}

/// Returns whether two outputs are the same.
#[tactic(auto, using(crate::proofs::Same::different_lengths))]
fn same_outputs(a: &[Out], b: &[Out]) -> bool
    ensures { result ≡ same_outputs a.now b.now }
{
    if a.len() != b.len() {
        return false;
    }
    for i in 0..a.len() {
        if !same_item(&a[i], &b[i]) {
            return false;
        }
    }
    true
}

/// Returns whether two items are the same.
fn same_item(a: &Out, b: &Out) -> bool
    ensures { result ≡ same_item a.now b.now }
{
    let (kind, first, second) = item_numbers(a);
    let (other_kind, other_first, other_second) = item_numbers(b);
    kind == other_kind && first == other_first && second == other_second
}

/// Returns an item as three numbers: its kind, and the numbers in it.
fn item_numbers(item: &Out) -> (u32, u32, u32)
    ensures { result ≡ item_numbers item.now }
{
    match item {
        Out::Char(c) => (0, u32::from(*c), 0),
        Out::Mark(mark) => (1, u32::from(*mark), 0),
        Out::Index(store, offset) => (2, *store, *offset),
        Out::Context => (3, 0, 0),
        Out::ContextAt(offset) => (4, *offset, 0),
        Out::Enter(group) => (5, *group, 0),
        Out::Set(store, value) => (6, *store, *value),
        Out::SetSystem(id, value) => (7, *id, *value),
        Out::Save(store) => (8, *store, 0),
        Out::Reset(store) => (9, *store, 0),
        Out::Nul => (10, 0, 0),
        Out::Beep => (11, 0, 0),
        Out::Stop => (12, 0, 0),
    }
}
