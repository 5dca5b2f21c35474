//! Tests which keys, elements, items and contexts no source can express.

ghost use Rattle.std.specs.Prelude.{◌≡◌, option_to_list, slice_get};
ghost use Rattle.std.specs.List.{list_any};
ghost use Rattle.decompile_program.specs.WrittenOut.{has_key_name};
ghost use Rattle.kmx_decompiler.specs.Causes.{has_unspelled_value, is_system_store, is_unspelled_context, is_unspelled_element, is_unspelled_key, is_unspelled_output, is_unspelled_pattern, names_system_store};

use crate::items::{
    are_shift_flags, is_far_mark, is_far_output, is_far_pattern, is_nameable, nul_count,
    output_value, pattern_value, stands_behind_match,
};
use crate::value_causes::JudgedNames;
use decompile_program::{Called, named_by_output, named_by_pattern};
use kmn_base::{Element, RuleKey};
use kmx_parts::{FileRule, Outputs, Patterns};
use rule_model::{Out, Pat};

/// Returns whether at least one of the elements has no spelling.
pub(crate) fn has_unspelled_element(names: &Called<'_>, elements: &[Element]) -> bool
    ensures { result ≡ list_any (is_unspelled_element names.now) elements.now }
{
    elements
        .iter()
        .any(|element| is_unspelled_element(names, element))
}

/// Returns whether an element has no spelling.
fn is_unspelled_element(names: &Called<'_>, element: &Element) -> bool
    ensures { result ≡ is_unspelled_element names.now element.now }
{
    match element {
        Element::Char(_) => false,
        Element::Mark(mark) => is_far_mark(*mark),
        Element::Key { flags, code } => !has_key_name(names, *code) || !are_shift_flags(*flags),
    }
}

/// Returns whether a virtual key has a name.
fn has_key_name(names: &Called<'_>, code: u16) -> bool
    ensures { result ≡ has_key_name names.now.keys code }
{
    names.key(code).is_some()
}

/// Returns whether the key of a record has no spelling.
pub(crate) fn is_unspelled_key(names: &Called<'_>, key: &RuleKey) -> bool
    ensures { result ≡ is_unspelled_key names.now key.now }
{
    match key {
        RuleKey::Any => false,
        RuleKey::Char(unit) => !is_nameable(*unit),
        RuleKey::Virtual { code, .. } => !has_key_name(names, *code),
    }
}

/// Returns whether at least one item of an output has no spelling.
pub(crate) fn are_unspelled_outputs(names: &JudgedNames<'_>, outputs: Outputs<'_>) -> bool
    ensures { result ≡ list_any (is_unspelled_output names.now) outputs.entry }
{
    for output in outputs {
        if is_unspelled_output(names, &output) {
            return true;
        }
    }
    false
}

/// Returns whether an item of an output has no spelling.
fn is_unspelled_output(names: &JudgedNames<'_>, output: &Out) -> bool
    ensures { result ≡ is_unspelled_output names.now output.now }
{
    is_far_output(output)
        || names_system_store(names.called(), named_by_output(output))
        || has_unspelled_value(names, output_value(output))
}

/// Returns whether the store that an item names, if any, has a system id.
fn names_system_store(names: &Called<'_>, store: Option<u32>) -> bool
    ensures { result ≡ names_system_store names.now (option_to_list store) }
{
    match store {
        Some(store) => is_system_store(names, store),
        None => false,
    }
}

/// Returns whether the store of a number has a system id.
fn is_system_store(names: &Called<'_>, number: u32) -> bool
    ensures { result ≡ is_system_store (slice_get names.now.elements number) }
{
    match names.elements().get(number as usize) {
        Some(store) => store.system != 0,
        None => false,
    }
}

/// Returns whether the value of an item, if any, has no spelling.
fn has_unspelled_value(names: &JudgedNames<'_>, value: Option<u32>) -> bool
    ensures { result ≡ has_unspelled_value names.now (option_to_list value) }
{
    match value {
        Some(value) => names.is_unspelled_value(value),
        None => false,
    }
}

/// Returns whether the context of a record has no spelling.
pub(crate) fn is_unspelled_context(names: &JudgedNames<'_>, rule: &FileRule<'_>) -> bool
    ensures { result ≡ is_unspelled_context names.now rule.now.context }
{
    are_unspelled_patterns(names, rule.context())
        || stands_behind_match(rule.context())
        || 1 < nul_count(rule.context())
}

/// Returns whether at least one item of a context has no spelling.
fn are_unspelled_patterns(names: &JudgedNames<'_>, context: Patterns<'_>) -> bool
    ensures { result ≡ list_any (is_unspelled_pattern names.now) context.entry }
{
    for pattern in context {
        if is_unspelled_pattern(names, &pattern) {
            return true;
        }
    }
    false
}

/// Returns whether an item of a context has no spelling.
fn is_unspelled_pattern(names: &JudgedNames<'_>, pattern: &Pat) -> bool
    ensures { result ≡ is_unspelled_pattern names.now pattern.now }
{
    is_far_pattern(pattern)
        || names_system_store(names.called(), named_by_pattern(pattern))
        || has_unspelled_value(names, pattern_value(pattern))
}
