//! Joins the warnings of a program with those of its dead rules.

ghost use Rattle.std.specs.Prelude.{◌≡◌, ◌++◌, IfOk};
ghost use Rattle.kmx_format.specs.Writable.{IsWritable};
ghost use Rattle.dead_rules.specs.DeadRules.{dead_warnings, with_dead_rules};

use crate::sorting::sort_by_rank;
use crate::sought::dead_warnings;
use kmn_base::{Memory, Seq};
use name_warnings::Warning;
use rule_model::Tables;
use std::alloc::Global;

/// Returns the warnings of a program with W07 of the tables that it compiles to, in the order of lines, and at a line in the order of
/// codes, if the warnings have this order. Errors: `Memory` if an allocation fails.
#[tactic(auto, unfolding(crate::specs::DeadRules::with_dead_rules))]
pub fn with_dead_rules(
    alloc: Global,
    tables: &Tables,
    found: Vec<Warning>,
) -> Result<Seq<Warning>, Memory>
    requires { IsWritable tables.now }
    ensures { IfOk result (λ all. all ≡ with_dead_rules tables.now found.items) }
{
    let all = joined(alloc, tables, found)?;
    let sorted = sort_by_rank(all)?;
    Ok(Seq::from_vec(sorted))
}

/// Returns the warnings of a program, and then W07 of its tables.
fn joined(alloc: Global, tables: &Tables, found: Vec<Warning>) -> Result<Vec<Warning>, Memory>
    requires { IsWritable tables.now }
    ensures { IfOk result (λ all. all.items ≡ found.items ++ dead_warnings tables.now found.items) }
{
    let mut all = found;
    let mut dead = dead_warnings(alloc, tables, all.as_slice())?;
    all.append(&mut dead)?;
    Ok(all)
}
