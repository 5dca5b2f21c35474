//! The option number of each store of a file, followed by the option numbers of the system options.

ghost use Rattle.std.specs.Prelude.{◌≡◌, ◌++◌, false, IfOk, length, replicate, flat_map};
ghost use Rattle.rule_model.specs.Tab.{pattern_options, output_options, rule_options, group_options, tab_options, with_options};
ghost use Rattle.rule_model.specs.System.{system_options};
ghost use Rattle.rule_model.specs.Plain.{option_numbers};
ghost use Rattle.indexed_tables.specs.OptionFlags.{with_flags};

use indexed_tables::{mark, numbers_by_flags};
use kmn_base::Memory;
use kmx_parts::{FileGroup, FileRule, FileTables, Outputs, Patterns};
use rule_model::{Out, Pat};
use std::alloc::Global;

/// Returns the option number of each store, followed by the option numbers of the system options.
pub fn option_numbers(alloc: Global, file: &FileTables<'_>) -> Result<Vec<Option<usize>>, Memory>
    ensures { IfOk result (λ numbers. numbers.items ≡ option_numbers 0 (with_options (tab_options file.now) 0 file.now.stores ++ system_options)) }
{
    let flags = option_flags(alloc, file)?;
    numbers_by_flags(alloc, flags)
}

/// Returns a flag for each store: whether some item uses it as an option.
#[tactic(auto, unfolding(rule_model::specs::Tab::tab_options))]
fn option_flags(alloc: Global, file: &FileTables<'_>) -> Result<Vec<bool>, Memory>
    ensures { IfOk result (λ flags. flags.items ≡ with_flags (replicate (length file.now.stores) false) (tab_options file.now)) }
{
    let mut flags = vec![in alloc; false; file.store_count() as usize]?;
    mark_groups(flags.as_mut_slice(), file);
    Ok(flags)
}

#[tactic(auto, using(indexed_tables::proofs::OptionFlags::with_flags_append))]
fn mark_groups(flags: &mut [bool], file: &FileTables<'_>)
    ensures { flags.new ≡ with_flags flags.old (flat_map group_options file.now.groups) }
{
    for group in file.groups() {
        mark_group(flags, &group);
    }
}

#[tactic(auto, using(indexed_tables::proofs::OptionFlags::with_flags_append))]
fn mark_group(flags: &mut [bool], group: &FileGroup<'_>)
    ensures { flags.new ≡ with_flags flags.old (group_options group.now) }
{
    mark_rules(flags, group);
    mark_outputs(flags, group.on_match());
    mark_outputs(flags, group.on_nomatch());
}

#[tactic(auto, using(indexed_tables::proofs::OptionFlags::with_flags_append))]
fn mark_rules(flags: &mut [bool], group: &FileGroup<'_>)
    ensures { flags.new ≡ with_flags flags.old (flat_map rule_options group.now.rules) }
{
    for rule in group.rules() {
        mark_rule(flags, &rule);
    }
}

#[tactic(auto, using(indexed_tables::proofs::OptionFlags::with_flags_append))]
fn mark_rule(flags: &mut [bool], rule: &FileRule<'_>)
    ensures { flags.new ≡ with_flags flags.old (rule_options rule.now) }
{
    mark_context(flags, rule.context());
    mark_outputs(flags, rule.output());
}

fn mark_context(flags: &mut [bool], context: Patterns<'_>)
    ensures { flags.new ≡ with_flags flags.old (flat_map pattern_options context.entry) }
{
    for pattern in context {
        if let Pat::Equal(store, _) | Pat::Unequal(store, _) = pattern {
            mark(flags, store);
        }
    }
}

fn mark_outputs(flags: &mut [bool], outputs: Outputs<'_>)
    ensures { flags.new ≡ with_flags flags.old (flat_map output_options outputs.entry) }
{
    for output in outputs {
        if let Out::Set(store, _) | Out::Save(store) | Out::Reset(store) = output {
            mark(flags, store);
        }
    }
}
