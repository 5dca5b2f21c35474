//! The uses of names by the statements of a program.

ghost use Rattle.std.specs.Prelude.{◌≡◌, ◌++◌, flat_map, option_to_list, IfOk, OnOk};
ghost use Rattle.std.specs.Option.{option_copied};
ghost use Rattle.source_uses.specs.declared.used.Part.TheVariants.{Whole};
ghost use Rattle.source_uses.specs.Uses.{begin_uses, group_uses, items_uses, part_uses, rule_uses, stated_store, stated_stores, store_uses, used};

use crate::used::{Part, Role, Use, named_as};
use kmn_base::{Memory, Text};
use rule_model::{BeginDef, GroupDef, Program, RuleDef, SrcItem, StoreDef};
use std::alloc::Global;

/// Returns the names that a part of the rules, match and nomatch statements of a program uses in a role, as often as they are used, in the
/// order of the statements. Errors: `Memory` if an allocation fails.
pub fn rule_uses(
    alloc: Global,
    role: Role,
    part: Part,
    program: &Program,
) -> Result<Vec<Use>, Memory>
    ensures { IfOk result (λ uses. uses.items ≡ rule_uses role part program.now) }
{
    let mut uses = Vec::new(alloc);
    for group in program.groups.as_slice() {
        add_group_uses(alloc, &mut uses, role, part, group.rules.as_slice())?;
    }
    Ok(uses)
}

/// Returns the names that a part of the statements of a group uses in a role. Errors: `Memory` if an allocation fails.
pub fn group_uses(
    alloc: Global,
    role: Role,
    part: Part,
    group: &GroupDef,
) -> Result<Vec<Use>, Memory>
    ensures { IfOk result (λ uses. uses.items ≡ group_uses role part group.now) }
{
    let mut uses = Vec::new(alloc);
    add_group_uses(alloc, &mut uses, role, part, group.rules.as_slice())?;
    Ok(uses)
}

/// Returns the start groups of begin statements. Errors: `Memory` if an allocation fails.
pub fn begin_uses(alloc: Global, begins: &[BeginDef]) -> Result<Vec<Use>, Memory>
    ensures { IfOk result (λ uses. uses.items ≡ begin_uses begins.now) }
{
    let mut uses = Vec::new(alloc);
    for start in begins {
        add_use(alloc, &mut uses, start.line, Some(&start.group))?;
    }
    Ok(uses)
}

/// Appends the uses by the statements of a group.
fn add_group_uses(
    alloc: Global,
    uses: &mut Vec<Use>,
    role: Role,
    part: Part,
    rules: &[RuleDef],
) -> Result<(), Memory>
    ensures { OnOk result (uses.new.items ≡ uses.old.items ++ flat_map (part_uses role part) rules.now) }
{
    for rule in rules {
        add_part_uses(alloc, uses, role, part, rule)?;
    }
    Ok(())
}

/// Appends the uses by a part of a statement.
fn add_part_uses(
    alloc: Global,
    uses: &mut Vec<Use>,
    role: Role,
    part: Part,
    rule: &RuleDef,
) -> Result<(), Memory>
    ensures { OnOk result (uses.new.items ≡ uses.old.items ++ part_uses role part rule.now) }
{
    match part {
        Part::Context => add_items_uses(alloc, uses, role, rule.line, rule.context.as_slice()),
        Part::Key => add_key_use(alloc, uses, role, rule.line, &rule.key),
        Part::Output => add_items_uses(alloc, uses, role, rule.line, rule.output.as_slice()),
        Part::Whole => add_whole_uses(alloc, uses, role, rule),
    }
}

/// Appends the uses by a whole statement.
#[tactic(auto, using(crate::proofs::Walks::items_append))]
fn add_whole_uses(
    alloc: Global,
    uses: &mut Vec<Use>,
    role: Role,
    rule: &RuleDef,
) -> Result<(), Memory>
    ensures { OnOk result (uses.new.items ≡ uses.old.items ++ part_uses role Whole rule.now) }
{
    add_items_uses(alloc, uses, role, rule.line, rule.context.as_slice())?;
    add_key_use(alloc, uses, role, rule.line, &rule.key)?;
    add_items_uses(alloc, uses, role, rule.line, rule.output.as_slice())
}

/// Appends the use by the key of a rule.
fn add_key_use(
    alloc: Global,
    uses: &mut Vec<Use>,
    role: Role,
    line: u32,
    key: &Option<SrcItem>,
) -> Result<(), Memory>
    ensures { OnOk result (uses.new.items ≡ uses.old.items ++ items_uses role line (option_to_list key.now)) }
{
    match key {
        Some(item) => add_use(alloc, uses, line, named_as(role, item)),
        None => Ok(()),
    }
}

/// Appends the uses by items at a line.
fn add_items_uses(
    alloc: Global,
    uses: &mut Vec<Use>,
    role: Role,
    line: u32,
    items: &[SrcItem],
) -> Result<(), Memory>
    ensures { OnOk result (uses.new.items ≡ uses.old.items ++ items_uses role line items.now) }
{
    for item in items {
        add_use(alloc, uses, line, named_as(role, item))?;
    }
    Ok(())
}

/// Appends the use of a name at a line, if there is a name.
fn add_use(alloc: Global, uses: &mut Vec<Use>, line: u32, name: Option<&Text>) -> Result<(), Memory>
    ensures { OnOk result (uses.new.items ≡ uses.old.items ++ used line (option_copied name.entry)) }
{
    match name {
        Some(name) => {
            let name = name.copy(alloc)?;
            uses.push(Use { line, name })?;
            Ok(())
        }
        None => Ok(()),
    }
}

/// Returns the names that store statements use in a role. Errors: `Memory` if an allocation fails.
pub fn store_uses(alloc: Global, role: Role, stores: &[StoreDef]) -> Result<Vec<Use>, Memory>
    ensures { IfOk result (λ uses. uses.items ≡ store_uses role stores.now) }
{
    let mut uses = Vec::new(alloc);
    for store in stores {
        add_items_uses(alloc, &mut uses, role, store.line, store.items.as_slice())?;
    }
    Ok(uses)
}

/// Returns the names of ordinary stores, each at its statement. Errors: `Memory` if an allocation fails.
pub fn stated_stores(alloc: Global, stores: &[StoreDef]) -> Result<Vec<Use>, Memory>
    ensures { IfOk result (λ uses. uses.items ≡ stated_stores stores.now) }
{
    let mut uses = Vec::new(alloc);
    for store in stores {
        add_stated(alloc, &mut uses, store)?;
    }
    Ok(uses)
}

/// Appends the name of a store, if it is ordinary.
fn add_stated(alloc: Global, uses: &mut Vec<Use>, store: &StoreDef) -> Result<(), Memory>
    ensures { OnOk result (uses.new.items ≡ uses.old.items ++ stated_store store.now) }
{
    if store.system == 0 {
        add_use(alloc, uses, store.line, Some(&store.name))
    } else {
        Ok(())
    }
}
