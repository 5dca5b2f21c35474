//! The names that the statements of a source define.

ghost use Rattle.std.specs.Prelude.{◌≡◌, ◌≤◌, length, map, IfOk};
ghost use Rattle.kmn_base.specs.declared.limits.TheConstants.{TEXT_BYTES};
ghost use Rattle.refusal_details.specs.Definitions.{group_definition, program_names, stated_names, store_definition};

use kmn_base::{Memory, Seq, Text};
use rule_model::{GroupDef, Program, StoreDef};
use source_faults::read_all;
use std::alloc::Global;

/// A name, and the number of the line that defines it, from 1. The name of a system store is empty.
#[derive(Drop)]
pub(crate) struct Definition {
    pub line: u32,
    pub name: Text,
}

/// The names of the stores and of the groups of a source, each list in the order of its statements.
#[derive(Drop)]
pub(crate) struct KnownNames {
    pub stores: Seq<Definition>,
    pub groups: Seq<Definition>,
}

/// Returns the names that the statements of a source in UTF-8 define. Errors: `Memory` if an allocation fails.
pub(crate) fn stated_names(alloc: Global, source: &str) -> Result<KnownNames, Memory>
    requires { length source.now ≤ TEXT_BYTES }
    ensures { IfOk result (λ names. names ≡ stated_names source.now) }
{
    let found = read_all(alloc, source)?;
    program_names(alloc, &found.program)
}

/// Returns the names that the statements of a program define.
#[tactic(auto, unfolding(crate::specs::Definitions::program_names))]
fn program_names(alloc: Global, program: &Program) -> Result<KnownNames, Memory>
    ensures { IfOk result (λ names. names ≡ program_names program.now) }
{
    let stores = store_definitions(alloc, program.stores.as_slice())?;
    let groups = group_definitions(alloc, program.groups.as_slice())?;
    Ok(KnownNames { stores, groups })
}

/// Returns the names of stores.
fn store_definitions(alloc: Global, stores: &[StoreDef]) -> Result<Seq<Definition>, Memory>
    ensures { IfOk result (λ list. list ≡ map store_definition stores.now) }
{
    let mut list = Seq::new(alloc);
    for store in stores {
        list.add(store_definition(alloc, store)?)?;
    }
    Ok(list)
}

/// Returns the name of a store.
fn store_definition(alloc: Global, store: &StoreDef) -> Result<Definition, Memory>
    ensures { IfOk result (λ definition. definition ≡ store_definition store.now) }
{
    let name = store.name.copy(alloc)?;
    Ok(Definition {
        line: store.line,
        name,
    })
}

/// Returns the names of groups.
fn group_definitions(alloc: Global, groups: &[GroupDef]) -> Result<Seq<Definition>, Memory>
    ensures { IfOk result (λ list. list ≡ map group_definition groups.now) }
{
    let mut list = Seq::new(alloc);
    for group in groups {
        list.add(group_definition(alloc, group)?)?;
    }
    Ok(list)
}

/// Returns the name of a group.
fn group_definition(alloc: Global, group: &GroupDef) -> Result<Definition, Memory>
    ensures { IfOk result (λ definition. definition ≡ group_definition group.now) }
{
    let name = group.name.copy(alloc)?;
    Ok(Definition {
        line: group.line,
        name,
    })
}
