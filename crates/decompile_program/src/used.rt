//! The stores that items of a file name, except as a value.

ghost use Rattle.std.specs.Prelude.{◌≡◌, IfOk, false, length, replicate, flat_map, option_to_list};
ghost use Rattle.decompile_program.specs.Names.{named_by_pattern, named_by_output, named_by_rule, named_by_group, named_stores};
ghost use Rattle.indexed_tables.specs.OptionFlags.{with_flags};

use kmn_base::Memory;
use kmx_parts::{FileGroup, FileRule, FileTables, Outputs, Patterns};
use rule_model::{Out, Pat};
use std::alloc::Global;

/// Returns the store that an item of a context names, except as a value, if any.
pub fn named_by_pattern(pattern: &Pat) -> Option<u32>
    ensures { option_to_list result ≡ named_by_pattern pattern.now }
{
    match pattern {
        Pat::Any(store)
        | Pat::NotAny(store)
        | Pat::Index(store, _)
        | Pat::Equal(store, _)
        | Pat::Unequal(store, _) => Some(*store),
        _ => None,
    }
}

/// Returns the store that an item of an output names, except as a value, if any.
pub fn named_by_output(output: &Out) -> Option<u32>
    ensures { option_to_list result ≡ named_by_output output.now }
{
    match output {
        Out::Index(store, _) | Out::Set(store, _) | Out::Save(store) | Out::Reset(store) => {
            Some(*store)
        }
        _ => None,
    }
}

/// Returns a flag for each store: whether some item names it, except as a value.
#[tactic(auto, unfolding(crate::specs::Names::named_stores))]
pub(crate) fn named_flags(alloc: Global, file: &FileTables<'_>) -> Result<Vec<bool>, Memory>
    ensures { IfOk result (λ flags. flags.items ≡ with_flags (replicate (length file.now.stores) false) (named_stores file.now)) }
{
    let mut flags = vec![in alloc; false; file.store_count() as usize]?;
    mark_groups(flags.as_mut_slice(), file);
    Ok(flags)
}

#[tactic(auto, using(indexed_tables::proofs::OptionFlags::with_flags_append))]
fn mark_groups(flags: &mut [bool], file: &FileTables<'_>)
    ensures { flags.new ≡ with_flags flags.old (flat_map named_by_group file.now.groups) }
{
    for group in file.groups() {
        mark_group(flags, &group);
    }
}

#[tactic(auto, using(indexed_tables::proofs::OptionFlags::with_flags_append))]
fn mark_group(flags: &mut [bool], group: &FileGroup<'_>)
    ensures { flags.new ≡ with_flags flags.old (named_by_group group.now) }
{
    mark_rules(flags, group);
    mark_outputs(flags, group.on_match());
    mark_outputs(flags, group.on_nomatch());
}

#[tactic(auto, using(indexed_tables::proofs::OptionFlags::with_flags_append))]
fn mark_rules(flags: &mut [bool], group: &FileGroup<'_>)
    ensures { flags.new ≡ with_flags flags.old (flat_map named_by_rule group.now.rules) }
{
    for rule in group.rules() {
        mark_rule(flags, &rule);
    }
}

#[tactic(auto, using(indexed_tables::proofs::OptionFlags::with_flags_append))]
fn mark_rule(flags: &mut [bool], rule: &FileRule<'_>)
    ensures { flags.new ≡ with_flags flags.old (named_by_rule rule.now) }
{
    mark_context(flags, rule.context());
    mark_outputs(flags, rule.output());
}

#[tactic(auto, using(indexed_tables::proofs::OptionFlags::with_flags_append))]
fn mark_context(flags: &mut [bool], context: Patterns<'_>)
    ensures { flags.new ≡ with_flags flags.old (flat_map named_by_pattern context.entry) }
{
    for pattern in context {
        mark(flags, named_by_pattern(&pattern));
    }
}

/// Sets the flag of a store, if any.
fn mark(flags: &mut [bool], store: Option<u32>)
    ensures { flags.new ≡ with_flags flags.old (option_to_list store) }
{
    if let Some(store) = store {
        indexed_tables::mark(flags, store);
    }
}

#[tactic(auto, using(indexed_tables::proofs::OptionFlags::with_flags_append))]
fn mark_outputs(flags: &mut [bool], outputs: Outputs<'_>)
    ensures { flags.new ≡ with_flags flags.old (flat_map named_by_output outputs.entry) }
{
    for output in outputs {
        mark(flags, named_by_output(&output));
    }
}
