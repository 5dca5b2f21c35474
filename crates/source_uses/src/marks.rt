//! The deadkeys that contexts look for and that outputs put.

ghost use Rattle.std.specs.Prelude.{◌≡◌, ◌++◌, flat_map, IfOk, OnOk};
ghost use Rattle.source_uses.specs.Lines.{in_lines};
ghost use Rattle.source_uses.specs.Marks.{element_marks, mark_uses, store_marks, use_line};

use crate::contents::{Contents, StoreElement};
use crate::first::new_uses;
use crate::used::{Part, Role, Use};
use crate::walking::rule_uses;
use kmn_base::Memory;
use rule_model::Program;
use std::alloc::Global;
use store_table::NameTable;

/// Returns the deadkeys that a part of all statements uses, in the order of lines: those that items name, and the elements of each store
/// at its first use. Errors: `Memory` if an allocation fails.
#[tactic(auto, unfolding(crate::specs::Marks::mark_uses))]
pub fn mark_uses(
    alloc: Global,
    contents: &Contents,
    part: Part,
    program: &Program,
) -> Result<Vec<Use>, Memory>
    ensures { IfOk result (λ uses. uses.items ≡ mark_uses contents.now part program.now) }
{
    let mut uses = rule_uses(alloc, Role::Mark, part, program)?;
    let stores = rule_uses(alloc, Role::Elements, part, program)?;
    let stores = new_uses(alloc, NameTable::new(alloc), stores.as_slice())?;
    add_stores_marks(alloc, &mut uses, contents, stores.as_slice())?;
    sort_uses(uses)
}

/// Appends the deadkeys of stores, each at the line of the use of its store.
fn add_stores_marks(
    alloc: Global,
    uses: &mut Vec<Use>,
    contents: &Contents,
    stores: &[Use],
) -> Result<(), Memory>
    ensures { OnOk result (uses.new.items ≡ uses.old.items ++ flat_map (store_marks contents.now) stores.now) }
{
    for store in stores {
        let elements = contents.named(store.name.as_slice());
        add_marks(alloc, uses, store.line, elements)?;
    }
    Ok(())
}

/// Appends the deadkeys among elements at a line.
fn add_marks(
    alloc: Global,
    uses: &mut Vec<Use>,
    line: u32,
    elements: &[StoreElement],
) -> Result<(), Memory>
    ensures { OnOk result (uses.new.items ≡ uses.old.items ++ flat_map (element_marks line) elements.now) }
{
    for element in elements {
        add_mark(alloc, uses, line, element)?;
    }
    Ok(())
}

/// Appends an element at a line, if it is a deadkey.
fn add_mark(
    alloc: Global,
    uses: &mut Vec<Use>,
    line: u32,
    element: &StoreElement,
) -> Result<(), Memory>
    ensures { OnOk result (uses.new.items ≡ uses.old.items ++ element_marks line element.now) }
{
    match element {
        StoreElement::Mark(name) => {
            let name = name.copy(alloc)?;
            uses.push(Use { line, name })?;
            Ok(())
        }
        _ => Ok(()),
    }
}

/// Returns uses in the order of their lines. Those at one line stay in their order. Errors: `Memory` if an allocation fails.
fn sort_uses(uses: Vec<Use>) -> Result<Vec<Use>, Memory>
    ensures { IfOk result (λ sorted. sorted.items ≡ in_lines use_line uses.items) }
{
    let mut sorted = uses;
    sorted.sort_by_key(
        |found: &Use| -> u32
            ensures { result ≡ found.now.line }
        { found.line },
    )?;
    Ok(sorted)
}
