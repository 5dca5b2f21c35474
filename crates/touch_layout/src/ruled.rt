//! The ids that the records of a keyboard have as their keys.

ghost use Rattle.std.specs.Prelude.{◌≡◌, [], IfOk, OnOk};
ghost use Rattle.rule_model.specs.Tab.{tab};
ghost use Rattle.store_table.specs.Numbering.{with_marks};
ghost use Rattle.touch_layout.specs.Ids.{recorded_name, recorded_names, rule_names};

use indexed_tables::IndexedTables;
use kmn_base::{Memory, RuleKey};
use rule_model::{Group, Rule};
use std::alloc::Global;
use store_table::NameTable;

/// Returns the names of the keys of all records, each once.
#[tactic(auto, using(crate::proofs::RecordedNames::next_group))]
pub(crate) fn recorded_names(
    alloc: Global,
    keyboard: &IndexedTables<'_>,
    groups: &[Group],
) -> Result<NameTable, Memory>
    ensures { IfOk result (λ names. names ≡ with_marks [] (recorded_names (tab keyboard.now).dictionary groups.now)) }
{
    let mut names = NameTable::new(alloc);
    for group in groups {
        add_names(&mut names, keyboard, group.rules.as_slice())?;
    }
    Ok(names)
}

/// Adds the names of the keys of records.
#[tactic(auto, using(crate::proofs::RecordedNames::next_rule))]
fn add_names(
    names: &mut NameTable,
    keyboard: &IndexedTables<'_>,
    rules: &[Rule],
) -> Result<(), Memory>
    ensures { OnOk result (names.new ≡ with_marks names.old (rule_names (tab keyboard.now).dictionary rules.now)) }
{
    for rule in rules {
        add_name(names, keyboard, rule.key)?;
    }
    Ok(())
}

/// Adds the dictionary's name for the key of a record, if any.
fn add_name(names: &mut NameTable, keyboard: &IndexedTables<'_>, key: RuleKey) -> Result<(), Memory>
    ensures { OnOk result (names.new ≡ with_marks names.old (recorded_name (tab keyboard.now).dictionary key)) }
{
    let RuleKey::Virtual { code, .. } = key else {
        return Ok(());
    };
    match keyboard.own_key(code) {
        Some(name) => names.add_new(name),
        None => Ok(()),
    }
}
