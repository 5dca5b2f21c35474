//! The stores of tables that are options, and the option number of each.

ghost use Rattle.std.specs.Prelude.{◌≡◌, ◌++◌, ◌∷◌, [], false, IfOk, length, replicate, flat_map};
ghost use Rattle.rule_model.specs.Tab.{pattern_options, output_options, rule_options, group_options, tab_options, with_options};
ghost use Rattle.rule_model.specs.System.{system_options};
ghost use Rattle.rule_model.specs.Plain.{option_numbers};
ghost use Rattle.indexed_tables.specs.OptionFlags.{with_flags};

use crate::flags::{mark, numbers_by_flags};
use kmn_base::Memory;
use rule_model::{Group, Out, Pat, Rule, Tables};
use std::alloc::Global;

/// Sets the flag of each store that some item of the tables uses as an option, and leaves the other flags unchanged. Stores
/// past the last flag are ignored.
#[tactic(auto, unfolding(rule_model::specs::Tab::tab_options))]
pub fn mark_options(flags: &mut [bool], tables: &Tables)
    ensures { flags.new ≡ with_flags flags.old (tab_options tables.now) }
{
    mark_groups(flags, tables.groups.as_slice());
}

#[tactic(auto, using(crate::proofs::OptionFlags::with_flags_append))]
fn mark_groups(flags: &mut [bool], groups: &[Group])
    ensures { flags.new ≡ with_flags flags.old (flat_map group_options groups.now) }
{
    for group in groups {
        mark_group(flags, group);
    }
}

#[tactic(auto, using(crate::proofs::OptionFlags::with_flags_append))]
fn mark_group(flags: &mut [bool], group: &Group)
    ensures { flags.new ≡ with_flags flags.old (group_options group.now) }
{
    mark_rules(flags, group.rules.as_slice());
    mark_outputs(flags, group.on_match.as_slice());
    mark_outputs(flags, group.on_nomatch.as_slice());
}

#[tactic(auto, using(crate::proofs::OptionFlags::with_flags_append))]
fn mark_rules(flags: &mut [bool], rules: &[Rule])
    ensures { flags.new ≡ with_flags flags.old (flat_map rule_options rules.now) }
{
    for rule in rules {
        mark_rule(flags, rule);
    }
}

#[tactic(auto, using(crate::proofs::OptionFlags::with_flags_append))]
fn mark_rule(flags: &mut [bool], rule: &Rule)
    ensures { flags.new ≡ with_flags flags.old (rule_options rule.now) }
{
    mark_context(flags, rule.context.as_slice());
    mark_outputs(flags, rule.output.as_slice());
}

fn mark_context(flags: &mut [bool], context: &[Pat])
    ensures { flags.new ≡ with_flags flags.old (flat_map pattern_options context.now) }
{
    for pattern in context {
        if let Pat::Equal(store, _) | Pat::Unequal(store, _) = pattern {
            mark(flags, *store);
        }
    }
}

fn mark_outputs(flags: &mut [bool], outputs: &[Out])
    ensures { flags.new ≡ with_flags flags.old (flat_map output_options outputs.now) }
{
    for output in outputs {
        if let Out::Set(store, _) | Out::Save(store) | Out::Reset(store) = output {
            mark(flags, *store);
        }
    }
}

/// Returns a flag for each store: whether some item uses it as an option. Errors: `Memory` if an allocation fails.
pub fn option_flags(alloc: Global, tables: &Tables) -> Result<Vec<bool>, Memory>
    ensures { IfOk result (λ flags. flags.items ≡ with_flags (replicate (length tables.now.stores) false) (tab_options tables.now)) }
{
    let mut flags = vec![in alloc; false; tables.stores.len()]?;
    mark_options(flags.as_mut_slice(), tables);
    Ok(flags)
}

/// Returns the option number of each store, followed by those of the system options. Errors: `Memory` if an allocation fails.
pub fn option_numbers(alloc: Global, tables: &Tables) -> Result<Vec<Option<usize>>, Memory>
    ensures { IfOk result (λ numbers. numbers.items ≡ option_numbers 0 (with_options (tab_options tables.now) 0 tables.now.stores ++ system_options)) }
{
    let flags = option_flags(alloc, tables)?;
    numbers_by_flags(alloc, flags)
}
