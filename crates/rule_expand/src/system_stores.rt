//! Finds the elements of one system store.

ghost use Rattle.std.specs.Prelude.{◌≡◌, [], position, find, IfOk};
ghost use Rattle.rule_model.specs.Naming.{store_of, stores_of, stores_onto};
ghost use Rattle.rule_model.specs.Tab.{store_elements};
ghost use Rattle.store_table.specs.Numbering.{lists_of};
ghost use Rattle.rule_expand.specs.Expanded.{HasTables};
ghost use Rattle.rule_expand.specs.Lookups.{source_names, AreFew, BeginWith};
ghost use Rattle.rule_expand.specs.Stated.{is_of, states};

use crate::stores::{statement_stores, store_of};
use kmn_base::{Element, Memory, Seq};
use rule_checker::Checked;
use rule_model::system::DROPPED;
use rule_model::{Program, StoreDef};
use std::alloc::Global;
use store_table::Names;

/// Returns the elements of the first store of a system id, or no elements if there is no such store. It does not build the later
/// stores and the groups.
pub fn system_elements(
    alloc: Global,
    checked: &Checked,
    system: u32,
) -> Result<Seq<Element>, Memory>
    ensures { IfOk result (λ elements. elements ≡ store_elements (find (is_of system) (stores_of checked.now))) }
{
    first_elements(alloc, checked.program(), checked.names(), system)
}

/// Returns the elements of the first store of a system id, in a program with these names.
#[tactic(auto, using(crate::proofs::SystemStores::first_elements, crate::proofs::SystemStores::no_elements))]
fn first_elements(
    alloc: Global,
    program: &Program,
    names: &Names,
    system: u32,
) -> Result<Seq<Element>, Memory>
    requires tables { HasTables program.now }
    requires names { names.now ≡ lists_of program.now }
    ensures { IfOk result (λ elements. elements ≡ store_elements (find (is_of system) (stores_of program.now))) }
{
    let stores = program.stores.as_slice();
    match system_place(stores, system) {
        Some(place) => statement_elements(alloc, names, &stores[..place], &stores[place]),
        None => Ok(Seq::new(alloc)),
    }
}

/// Returns the index of the first statement whose store has a system id, if any.
fn system_place(stores: &[StoreDef], system: u32) -> Option<usize>
    ensures { result ≡ position (states system) stores.now }
{
    stores
        .iter()
        .position(|store| store.system == system && store.system != DROPPED)
}

/// Returns the elements of the store of a statement that follows these statements.
fn statement_elements(
    alloc: Global,
    names: &Names,
    before: &[StoreDef],
    store: &StoreDef,
) -> Result<Seq<Element>, Memory>
    requires few { AreFew names.now }
    requires first { BeginWith (stores_onto (source_names names.now) [] before.now) names.now.stores }
    ensures { IfOk result (λ elements. elements ≡ (store_of (source_names names.now) (stores_onto (source_names names.now) [] before.now) store.now).elements) }
{
    let stores = statement_stores(alloc, names, before, 0)?;
    let made = store_of(alloc, names, stores.as_slice(), store)?;
    Ok(made.elements)
}
