//! Comparison of tables.

ghost use Rattle.std.specs.Prelude.{◌≡◌};
ghost use Rattle.std.specs.Bool.{Decides};

use kmn_base::{Element, RuleKey};
use rule_model::{Group, Out, Pat, Rule, Store, Tables};

/// Returns whether two tables are the same.
pub(crate) fn same_tables(a: &Tables, b: &Tables) -> bool
    ensures { Decides result (a.now ≡ b.now) }
{
    a.version == b.version
        && a.start_ansi == b.start_ansi
        && a.start_unicode == b.start_unicode
        && same_stores(a.stores.as_slice(), b.stores.as_slice())
        && same_groups(a.groups.as_slice(), b.groups.as_slice())
}

/// Returns whether the stores of two tables are the same.
fn same_stores(a: &[Store], b: &[Store]) -> bool
    ensures { Decides result (a.now ≡ b.now) }
{
    if a.len() != b.len() {
        return false;
    }
    for i in 0..a.len() {
        if !same_store(&a[i], &b[i]) {
            return false;
        }
    }
    true
}

/// Returns whether two stores are the same.
fn same_store(a: &Store, b: &Store) -> bool
    ensures { Decides result (a.now ≡ b.now) }
{
    a.system == b.system
        && same_names(a.name.as_slice(), b.name.as_slice())
        && same_elements(a.elements.as_slice(), b.elements.as_slice())
}

/// Returns whether two names are the same, byte by byte.
fn same_names(a: &[u8], b: &[u8]) -> bool
    ensures { Decides result (a.now ≡ b.now) }
{
    a == b
}

/// Returns whether two contents of stores are the same.
fn same_elements(a: &[Element], b: &[Element]) -> bool
    ensures { Decides result (a.now ≡ b.now) }
{
    a == b
}

/// Returns whether the groups of two tables are the same.
fn same_groups(a: &[Group], b: &[Group]) -> bool
    ensures { Decides result (a.now ≡ b.now) }
{
    if a.len() != b.len() {
        return false;
    }
    for i in 0..a.len() {
        if !same_group(&a[i], &b[i]) {
            return false;
        }
    }
    true
}

/// Returns whether two groups are the same.
fn same_group(a: &Group, b: &Group) -> bool
    ensures { Decides result (a.now ≡ b.now) }
{
    a.using_keys == b.using_keys
        && same_names(a.name.as_slice(), b.name.as_slice())
        && same_rules(a.rules.as_slice(), b.rules.as_slice())
        && same_outputs(a.on_match.as_slice(), b.on_match.as_slice())
        && same_outputs(a.on_nomatch.as_slice(), b.on_nomatch.as_slice())
}

/// Returns whether the records of two groups are the same.
fn same_rules(a: &[Rule], b: &[Rule]) -> bool
    ensures { Decides result (a.now ≡ b.now) }
{
    if a.len() != b.len() {
        return false;
    }
    for i in 0..a.len() {
        if !same_rule(&a[i], &b[i]) {
            return false;
        }
    }
    true
}

/// Returns whether two records are the same.
fn same_rule(a: &Rule, b: &Rule) -> bool
    ensures { Decides result (a.now ≡ b.now) }
{
    a.line == b.line
        && a.place == b.place
        && same_keys(a.key, b.key)
        && same_contexts(a.context.as_slice(), b.context.as_slice())
        && same_outputs(a.output.as_slice(), b.output.as_slice())
}

/// Returns whether two keys are the same.
fn same_keys(a: RuleKey, b: RuleKey) -> bool
    ensures { Decides result (a ≡ b) }
{
    a == b
}

/// Returns whether two contexts are the same.
fn same_contexts(a: &[Pat], b: &[Pat]) -> bool
    ensures { Decides result (a.now ≡ b.now) }
{
    a == b
}

/// Returns whether two outputs are the same.
fn same_outputs(a: &[Out], b: &[Out]) -> bool
    ensures { Decides result (a.now ≡ b.now) }
{
    a == b
}
