//! The stores that a keyboard uses as options.

ghost use Rattle.std.specs.Prelude.{◌≡◌, flat_map, option_to_list, IfOk, OnOk};
ghost use Rattle.std.specs.List.{fold};
ghost use Rattle.std.specs.Ordering.{nat_cmp};
ghost use Rattle.std.specs.BTreeSet.{insert_key};
ghost use Rattle.kmn_base.specs.Rising.{rising};
ghost use Rattle.rule_model.specs.Tab.{pattern_options, output_options, rule_options, group_options, tab_options};

use crate::sets::add_some;
use kmn_base::{LineSet, Memory};
use rule_model::{Group, Out, Pat, Rule, Tables};
use std::alloc::Global;

/// Returns the stores that are options.
#[tactic(auto, unfolding(rule_model::specs::Tab::tab_options), using(crate::proofs::Folds::folds))]
pub(crate) fn options(alloc: Global, tables: &Tables) -> Result<LineSet, Memory>
    ensures { IfOk result (λ options. options ≡ rising (tab_options tables.now)) }
{
    let mut options = LineSet::new(alloc);
    let groups = tables.groups.as_slice();
    for group in groups {
        add_group(&mut options, group)?;
    }
    Ok(options)
}

/// Adds the options of a group.
#[tactic(auto, using(crate::proofs::Folds::folds))]
fn add_group(options: &mut LineSet, group: &Group) -> Result<(), Memory>
    ensures { OnOk result (options.new ≡ fold (insert_key nat_cmp) options.old (group_options group.now)) }
{
    add_rules(options, group.rules.as_slice())?;
    add_output(options, group.on_match.as_slice())?;
    add_output(options, group.on_nomatch.as_slice())
}

/// Adds the options of records.
#[tactic(auto, using(crate::proofs::Folds::folds))]
fn add_rules(options: &mut LineSet, rules: &[Rule]) -> Result<(), Memory>
    ensures { OnOk result (options.new ≡ fold (insert_key nat_cmp) options.old (flat_map rule_options rules.now)) }
{
    for rule in rules {
        add_context(options, rule.context.as_slice())?;
        add_output(options, rule.output.as_slice())?;
    }
    Ok(())
}

/// Adds the options of a context.
#[tactic(auto, using(crate::proofs::Folds::folds))]
fn add_context(options: &mut LineSet, context: &[Pat]) -> Result<(), Memory>
    ensures { OnOk result (options.new ≡ fold (insert_key nat_cmp) options.old (flat_map pattern_options context.now)) }
{
    for item in context {
        add_some(options, pattern_option(item))?;
    }
    Ok(())
}

/// Returns the option that an item of a context names, if any.
fn pattern_option(item: &Pat) -> Option<u32>
    ensures { option_to_list result ≡ pattern_options item.now }
{
    match item {
        Pat::Equal(store, _) | Pat::Unequal(store, _) => Some(*store),
        _ => None,
    }
}

/// Adds the options of an output.
#[tactic(auto, using(crate::proofs::Folds::folds))]
fn add_output(options: &mut LineSet, outputs: &[Out]) -> Result<(), Memory>
    ensures { OnOk result (options.new ≡ fold (insert_key nat_cmp) options.old (flat_map output_options outputs.now)) }
{
    for item in outputs {
        add_some(options, output_option(item))?;
    }
    Ok(())
}

/// Returns the option that an item of an output names, if any.
fn output_option(item: &Out) -> Option<u32>
    ensures { option_to_list result ≡ output_options item.now }
{
    match item {
        Out::Set(store, _) | Out::Save(store) | Out::Reset(store) => Some(*store),
        _ => None,
    }
}
