//! Tests for the constructs of a record that Keyman's own engine treats differently.

ghost use Rattle.std.specs.Prelude.{◌≡◌};
ghost use Rattle.core_constructs.specs.Changes.{saves_early};
ghost use Rattle.core_constructs.specs.Reached.{played};
ghost use Rattle.core_constructs.specs.Records.{is_matched_behind_use, is_passed_over, uses_layer, uses_option_value, has_construct, can_match, is_told};

use crate::changes::saves_early;
use crate::construct::Construct;
use crate::contexts::{
    counts_differently, has_late_nul, some_asks_empty_word, some_asks_from_option, some_asks_layer,
    some_asks_unput,
};
use crate::empty::has_empty_context;
use crate::facts::{Facts, GroupFacts};
use crate::keys::{has_both_sides, is_alt_graph, is_keypad_character};
use crate::outputs::{
    acts, acts_after_use, ends, live, some_sets_from_option, some_sets_layer, some_use,
};
use crate::widths::is_long;
use rule_model::{Group, Rule, Tables};

/// Returns whether a construct of a record is told.
pub(crate) fn is_told(
    construct: Construct,
    tables: &Tables,
    facts: &Facts,
    known: GroupFacts,
    group: &Group,
    rule: &Rule,
) -> bool
    ensures { result ≡ is_told construct tables.now facts.now known group.now rule.now }
{
    can_match(facts, rule) && has_construct(construct, tables, facts, known, group, rule)
}

/// Returns whether a record can match: no item of its context is a mark that no output puts.
pub(crate) fn can_match(facts: &Facts, rule: &Rule) -> bool
    ensures { result ≡ can_match facts.now rule.now }
{
    !some_asks_unput(&facts.marks, rule.context.as_slice())
}

/// Returns whether a record of a group has a construct.
#[tactic(auto, unfolding(crate::specs::Records::has_construct))]
fn has_construct(
    construct: Construct,
    tables: &Tables,
    facts: &Facts,
    known: GroupFacts,
    group: &Group,
    rule: &Rule,
) -> bool
    ensures { result ≡ has_construct construct tables.now facts.now known group.now rule.now }
{
    let context = rule.context.as_slice();
    let output = rule.output.as_slice();
    match construct {
        Construct::Use => acts_after_use(live(output)),
        Construct::Match => is_matched_behind_use(group, rule),
        Construct::Nul => has_late_nul(context),
        Construct::Offset => counts_differently(context, live(output)),
        Construct::Empty => is_passed_over(known.converted, group, rule),
        Construct::Sides => has_both_sides(rule.key),
        Construct::Right => is_alt_graph(rule.key),
        Construct::Long => is_long(facts, known.spent, context),
        Construct::Layer => uses_layer(rule),
        Construct::Platform => some_asks_empty_word(tables, context),
        Construct::Save => saves_early_in(facts, group, rule),
        Construct::Keypad => is_keypad_character(rule.key),
        Construct::Value => uses_option_value(facts, rule),
    }
}

/// Returns whether an output has a `use` and no `return`, and the match output of its group does something.
fn is_matched_behind_use(group: &Group, rule: &Rule) -> bool
    ensures { result ≡ is_matched_behind_use group.now rule.now }
{
    let output = rule.output.as_slice();
    some_use(live(output)) && !ends(output) && acts(group.on_match.as_slice())
}

/// Returns whether a record has an empty context in a group without keys, and the nomatch output does not stand for it.
fn is_passed_over(converted: bool, group: &Group, rule: &Rule) -> bool
    ensures { result ≡ is_passed_over converted group.now rule.now }
{
    !group.using_keys && has_empty_context(rule) && !converted
}

/// Returns whether a record has a condition on the layer, or sets it.
fn uses_layer(rule: &Rule) -> bool
    ensures { result ≡ uses_layer rule.now }
{
    some_asks_layer(rule.context.as_slice()) || some_sets_layer(live(rule.output.as_slice()))
}

/// Returns whether a record, or the match output after it, saves an option that is set or reset after it in the event.
#[tactic(auto, using(crate::proofs::Live::played_ended, crate::proofs::Live::played_on))]
fn saves_early_in(facts: &Facts, group: &Group, rule: &Rule) -> bool
    ensures { result ≡ saves_early facts.now.changes (played group.now rule.now) }
{
    let output = rule.output.as_slice();
    let changes = facts.changes.as_slice();
    if ends(output) {
        saves_early(changes, live(output), &[])
    } else {
        saves_early(changes, live(output), live(group.on_match.as_slice()))
    }
}

/// Returns whether the value store of a condition or of a `set` is an option.
fn uses_option_value(facts: &Facts, rule: &Rule) -> bool
    ensures { result ≡ uses_option_value facts.now rule.now }
{
    some_asks_from_option(&facts.options, rule.context.as_slice())
        || some_sets_from_option(&facts.options, live(rule.output.as_slice()))
}
