//! The stores of a file that items use as options.

ghost use Rattle.std.specs.Prelude.{◌≡◌, ◌<◌, IfOk, false, flat_map, length, nat_eq, replicate};
ghost use Rattle.std.specs.List.{list_any};
ghost use Rattle.rule_model.specs.Tab.{pattern_options, output_options, rule_options, group_options, tab_options};
ghost use Rattle.indexed_tables.specs.OptionFlags.{with_flags};

use indexed_tables::{flag_at, mark};
use kmn_base::Memory;
use kmx_parts::{FileGroup, FileRule, FileTables, Outputs, Patterns};
use rule_model::{Out, Pat};
use std::alloc::Global;
use std::marker::Model;

/// For each store of a file, whether some item uses it as an option. Contracts see the tables of the file.
#[derive(Drop)]
pub(crate) struct UsedOptions<'a> {
    file: FileTables<'a>,
    flags: Vec<bool>,
}

impl<'a> Model for UsedOptions<'a> {
    ghost use Rattle.std.specs.Prelude.{◌≡◌, false, length, replicate};
    ghost use Rattle.rule_model.specs.declared.tables.Tables.{Tables};
    ghost use Rattle.rule_model.specs.Tab.{tab_options};
    ghost use Rattle.indexed_tables.specs.OptionFlags.{with_flags};

    ghost Value = { Tables };

    ghost view = { λ options. options.file };

    ghost invariant = { λ options. options.flags.items ≡ with_flags (replicate (length options.file.stores) false) (tab_options options.file) };
}

impl<'a> UsedOptions<'a> {
    /// Finds the options of a file. Goes through its items once.
    pub(crate) fn new(alloc: Global, file: &FileTables<'a>) -> Result<UsedOptions<'a>, Memory>
        ensures { IfOk result (λ options. options ≡ file.now) }
    {
        let flags = option_flags(alloc, file)?;
        Ok(UsedOptions {
            file: file.copy(),
            flags,
        })
    }

    /// Returns whether some item uses the store of a number as an option.
    #[tactic(auto, using(indexed_tables::proofs::OptionFlags::flag_is))]
    pub(crate) fn is_option(&self, number: u32) -> bool
        requires { number < length self.now.stores }
        ensures { result ≡ list_any (nat_eq number) (tab_options self.now) }
    {
        flag_at(self.flags.as_slice(), number as usize)
    }
}

/// Returns a flag for each store: whether some item uses it as an option.
#[tactic(auto, unfolding(rule_model::specs::Tab::tab_options))]
fn option_flags(alloc: Global, file: &FileTables<'_>) -> Result<Vec<bool>, Memory>
    ensures { IfOk result (λ flags. flags.items ≡ with_flags (replicate (length file.now.stores) false) (tab_options file.now)) }
{
    let mut flags = vec![in alloc; false; file.store_count() as usize]?;
    mark_groups(flags.as_mut_slice(), file);
    Ok(flags)
}

#[tactic(auto, using(indexed_tables::proofs::OptionFlags::with_flags_append))]
fn mark_groups(flags: &mut [bool], file: &FileTables<'_>)
    ensures { flags.new ≡ with_flags flags.old (flat_map group_options file.now.groups) }
{
    for group in file.groups() {
        mark_group(flags, &group);
    }
}

#[tactic(auto, using(indexed_tables::proofs::OptionFlags::with_flags_append))]
fn mark_group(flags: &mut [bool], group: &FileGroup<'_>)
    ensures { flags.new ≡ with_flags flags.old (group_options group.now) }
{
    mark_rules(flags, group);
    mark_outputs(flags, group.on_match());
    mark_outputs(flags, group.on_nomatch());
}

#[tactic(auto, using(indexed_tables::proofs::OptionFlags::with_flags_append))]
fn mark_rules(flags: &mut [bool], group: &FileGroup<'_>)
    ensures { flags.new ≡ with_flags flags.old (flat_map rule_options group.now.rules) }
{
    for rule in group.rules() {
        mark_rule(flags, &rule);
    }
}

#[tactic(auto, using(indexed_tables::proofs::OptionFlags::with_flags_append))]
fn mark_rule(flags: &mut [bool], rule: &FileRule<'_>)
    ensures { flags.new ≡ with_flags flags.old (rule_options rule.now) }
{
    mark_context(flags, rule.context());
    mark_outputs(flags, rule.output());
}

fn mark_context(flags: &mut [bool], context: Patterns<'_>)
    ensures { flags.new ≡ with_flags flags.old (flat_map pattern_options context.entry) }
{
    for pattern in context {
        if let Pat::Equal(store, _) | Pat::Unequal(store, _) = pattern {
            mark(flags, store);
        }
    }
}

fn mark_outputs(flags: &mut [bool], outputs: Outputs<'_>)
    ensures { flags.new ≡ with_flags flags.old (flat_map output_options outputs.entry) }
{
    for output in outputs {
        if let Out::Set(store, _) | Out::Save(store) | Out::Reset(store) = output {
            mark(flags, store);
        }
    }
}
