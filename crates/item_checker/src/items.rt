//! The refusals for items: C08 to C14, and C25.

ghost use Rattle.std.specs.Prelude.{◌≡◌, IfOk};
ghost use Rattle.store_table.specs.First.{first_among};
ghost use Rattle.item_checker.specs.Items.{items_refusal, items_refusals};

use crate::facts::Facts;
use crate::rules::{add_groups_refusals, groups_refusal};
use crate::stores::{add_stores_refusals, stores_refusal};
use kmn_base::{Memory, Refusal, Seq};
use rule_model::Program;
use std::alloc::Global;
use store_table::earlier;

/// Returns the first refusal for items, if any. Errors: `Memory` if an allocation fails.
#[tactic(auto, unfolding(crate::specs::Items::items_refusal))]
pub fn items_refusal(alloc: Global, program: &Program) -> Result<Option<Refusal>, Memory>
    ensures { IfOk result (λ refusal. refusal ≡ items_refusal program.now) }
{
    let facts = Facts::of(alloc, program)?;
    let stores = stores_refusal(alloc, &facts, program.stores.as_slice())?;
    let rules = groups_refusal(&facts, program.groups.as_slice());
    Ok(earlier(stores, rules))
}

/// Returns all refusals for items: of store statements, then of the statements of each group. A statement has at most one.
/// Errors: `Memory` if an allocation fails.
#[tactic(auto, using(crate::proofs::FirstItems::items_least))]
pub fn items_refusals(alloc: Global, program: &Program) -> Result<Seq<Refusal>, Memory>
    ensures all { IfOk result (λ refusals. refusals ≡ items_refusals program.now) }
    ensures first { IfOk result (λ refusals. items_refusal program.now ≡ first_among refusals) }
{
    let refusals = listed_refusals(alloc, program)?;
    Ok(refusals)
}

/// Returns all refusals for items in a list. Errors: `Memory` if an allocation fails.
#[tactic(auto, unfolding(crate::specs::Items::items_refusals))]
fn listed_refusals(alloc: Global, program: &Program) -> Result<Seq<Refusal>, Memory>
    ensures { IfOk result (λ refusals. refusals ≡ items_refusals program.now) }
{
    let facts = Facts::of(alloc, program)?;
    let mut refusals = Seq::new(alloc);
    add_stores_refusals(alloc, &mut refusals, &facts, program.stores.as_slice())?;
    add_groups_refusals(&mut refusals, &facts, program.groups.as_slice())?;
    Ok(refusals)
}
