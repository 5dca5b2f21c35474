//! The values that conditions compare and that `set` sets.

ghost use Rattle.std.specs.Prelude.{◌≡◌, ◌++◌, [], ◌∷◌, flat_map, IfOk, OnOk};
ghost use Rattle.source_uses.specs.Choices.{choice_at, item_choices, items_choices, program_choices, rule_choices};

use kmn_base::{Memory, Seq, Text};
use rule_model::{GroupDef, Program, RuleDef, SrcItem};
use std::alloc::Global;

/// A value of an option, in a statement at a line. Lines count from 1.
#[derive(Drop)]
pub struct Choice {
    pub line: u32,
    pub option: Text,
    pub value: Seq<char>,
}

/// Returns the values that the contexts of a program ask for if `asked`, else the values that its outputs set, in the order of the
/// statements. Errors: `Memory` if an allocation fails.
pub fn program_choices(alloc: Global, asked: bool, program: &Program) -> Result<Vec<Choice>, Memory>
    ensures { IfOk result (λ choices. choices.items ≡ program_choices asked program.now) }
{
    let mut choices = Vec::new(alloc);
    for group in program.groups.as_slice() {
        add_group_choices(alloc, &mut choices, asked, group.rules.as_slice())?;
    }
    Ok(choices)
}

/// Appends the values in the statements of a group.
fn add_group_choices(
    alloc: Global,
    choices: &mut Vec<Choice>,
    asked: bool,
    rules: &[RuleDef],
) -> Result<(), Memory>
    ensures { OnOk result (choices.new.items ≡ choices.old.items ++ flat_map (rule_choices asked) rules.now) }
{
    for rule in rules {
        add_rule_choices(alloc, choices, asked, rule)?;
    }
    Ok(())
}

/// Appends the values in the context of a statement if `asked`, else those in its output.
fn add_rule_choices(
    alloc: Global,
    choices: &mut Vec<Choice>,
    asked: bool,
    rule: &RuleDef,
) -> Result<(), Memory>
    ensures { OnOk result (choices.new.items ≡ choices.old.items ++ rule_choices asked rule.now) }
{
    if asked {
        add_choices(alloc, choices, rule.line, rule.context.as_slice())
    } else {
        add_choices(alloc, choices, rule.line, rule.output.as_slice())
    }
}

/// Appends the values in items at a line.
fn add_choices(
    alloc: Global,
    choices: &mut Vec<Choice>,
    line: u32,
    items: &[SrcItem],
) -> Result<(), Memory>
    ensures { OnOk result (choices.new.items ≡ choices.old.items ++ items_choices line items.now) }
{
    for item in items {
        add_item_choice(alloc, choices, line, item)?;
    }
    Ok(())
}

/// Appends the value in an item at a line, if it has one.
fn add_item_choice(
    alloc: Global,
    choices: &mut Vec<Choice>,
    line: u32,
    item: &SrcItem,
) -> Result<(), Memory>
    ensures { OnOk result (choices.new.items ≡ choices.old.items ++ item_choices line item.now) }
{
    match item {
        SrcItem::Equal(option, value) => add_choice(alloc, choices, line, option, value),
        SrcItem::Unequal(option, value) => add_choice(alloc, choices, line, option, value),
        SrcItem::Set(option, value) => add_choice(alloc, choices, line, option, value),
        _ => Ok(()),
    }
}

/// Appends a value of an option at a line.
fn add_choice(
    alloc: Global,
    choices: &mut Vec<Choice>,
    line: u32,
    option: &Text,
    value: &Seq<char>,
) -> Result<(), Memory>
    ensures { OnOk result (choices.new.items ≡ choices.old.items ++ choice_at line option.now value.now ∷ []) }
{
    let option = option.copy(alloc)?;
    let value = value.copy(alloc)?;
    choices.push(Choice {
        line,
        option,
        value,
    })?;
    Ok(())
}
