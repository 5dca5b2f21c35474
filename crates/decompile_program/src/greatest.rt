//! The greatest deadkey number in a file.

ghost use Rattle.std.specs.Prelude.{◌≡◌, flat_map, fold, max};
ghost use Rattle.decompile_program.specs.Marks.{element_marks, pattern_marks, output_marks, rule_marks, group_marks, store_marks, table_marks, greatest_mark};

use kmn_base::Element;
use kmx_parts::{Elements, FileGroup, FileRule, FileTables, Outputs, Patterns};
use rule_model::{Out, Pat};

/// Returns the greatest deadkey number, or 0 if there is no deadkey.
#[tactic(auto, using(crate::proofs::Folds::fold_append), unfolding(crate::specs::Marks::table_marks))]
pub fn greatest_mark(file: &FileTables<'_>) -> u16
    ensures { result ≡ greatest_mark file.now }
{
    let greatest = in_stores(0, file);
    in_groups(greatest, file)
}

#[tactic(auto, using(crate::proofs::Folds::fold_append))]
fn in_stores(least: u16, file: &FileTables<'_>) -> u16
    ensures { result ≡ fold max least (flat_map store_marks file.now.stores) }
{
    let mut greatest = least;
    for store in file.stores() {
        greatest = in_elements(greatest, store.elements());
    }
    greatest
}

#[tactic(auto, using(crate::proofs::Folds::fold_append))]
fn in_elements(least: u16, elements: Elements<'_>) -> u16
    ensures { result ≡ fold max least (flat_map element_marks elements.entry) }
{
    let mut greatest = least;
    for element in elements {
        if let Element::Mark(mark) = element {
            greatest = greatest.max(mark);
        }
    }
    greatest
}

#[tactic(auto, using(crate::proofs::Folds::fold_append))]
fn in_groups(least: u16, file: &FileTables<'_>) -> u16
    ensures { result ≡ fold max least (flat_map group_marks file.now.groups) }
{
    let mut greatest = least;
    for group in file.groups() {
        greatest = in_group(greatest, &group);
    }
    greatest
}

#[tactic(auto, using(crate::proofs::Folds::fold_append))]
fn in_group(least: u16, group: &FileGroup<'_>) -> u16
    ensures { result ≡ fold max least (group_marks group.now) }
{
    let greatest = in_rules(least, group);
    let greatest = in_outputs(greatest, group.on_match());
    in_outputs(greatest, group.on_nomatch())
}

#[tactic(auto, using(crate::proofs::Folds::fold_append))]
fn in_rules(least: u16, group: &FileGroup<'_>) -> u16
    ensures { result ≡ fold max least (flat_map rule_marks group.now.rules) }
{
    let mut greatest = least;
    for rule in group.rules() {
        greatest = in_rule(greatest, &rule);
    }
    greatest
}

#[tactic(auto, using(crate::proofs::Folds::fold_append))]
fn in_rule(least: u16, rule: &FileRule<'_>) -> u16
    ensures { result ≡ fold max least (rule_marks rule.now) }
{
    let greatest = in_context(least, rule.context());
    in_outputs(greatest, rule.output())
}

#[tactic(auto, using(crate::proofs::Folds::fold_append))]
fn in_context(least: u16, context: Patterns<'_>) -> u16
    ensures { result ≡ fold max least (flat_map pattern_marks context.entry) }
{
    let mut greatest = least;
    for pattern in context {
        if let Pat::Mark(mark) = pattern {
            greatest = greatest.max(mark);
        }
    }
    greatest
}

#[tactic(auto, using(crate::proofs::Folds::fold_append))]
fn in_outputs(least: u16, outputs: Outputs<'_>) -> u16
    ensures { result ≡ fold max least (flat_map output_marks outputs.entry) }
{
    let mut greatest = least;
    for output in outputs {
        if let Out::Mark(mark) = output {
            greatest = greatest.max(mark);
        }
    }
    greatest
}
