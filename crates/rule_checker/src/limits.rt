//! Finds the first limit that a program passes: C16 to C22.

ghost use Rattle.std.specs.Prelude.{◌≡◌, List, [], length, IfOk};
ghost use Rattle.store_table.specs.First.{first_of};
ghost use Rattle.store_table.specs.Known.{known};
ghost use Rattle.rule_model.specs.declared.program.GroupDef.{GroupDef};
ghost use Rattle.rule_model.specs.Naming.{all_rules};
ghost use Rattle.rule_checker.specs.Limits.{group_refusal, in_line_order, limits_refusal, statement_refusal};

use crate::cased::cased_codes;
use crate::counting::count_stores;
use crate::walking::first_passed;
use kmn_base::limits::GROUPS;
use kmn_base::{Code, Memory, Refusal};
use rule_model::{GroupDef, Program};
use std::alloc::Global;
use store_table::{at_line, earlier};

/// Returns the first refusal for limits, if any.
#[tactic(auto, unfolding(crate::specs::Limits::limits_refusal))]
pub(crate) fn limits_refusal(alloc: Global, program: &Program) -> Result<Option<Refusal>, Memory>
    ensures { IfOk result (λ refusal. refusal ≡ limits_refusal program.now) }
{
    let statements = statements_refusal(alloc, program)?;
    Ok(earlier(statements, groups_refusal(program.groups.as_slice())))
}

/// Returns the first refusal for C16 to C19, C21 and C22.
#[tactic(auto, using(crate::proofs::FirstPassed::first_passed))]
fn statements_refusal(alloc: Global, program: &Program) -> Result<Option<Refusal>, Memory>
    ensures { IfOk result (λ refusal. refusal ≡ first_of (statement_refusal (known program.now)) [] (in_line_order program.now.stores (all_rules program.now))) }
{
    let cased = cased_codes(alloc, program.stores.as_slice())?;
    let counted = count_stores(alloc, cased, program.stores.as_slice())?;
    first_passed(alloc, &counted, program)
}

/// Returns the first refusal for C20.
#[tactic(auto, using(store_table::proofs::Firsts::first_kept))]
fn groups_refusal(groups: &[GroupDef]) -> Option<Refusal>
    ensures { result ≡ first_of group_refusal [] groups.now }
{
    let mut first = None;
    for (before, group) in groups.iter().enumerate() {
        first = earlier(first, group_refusal(before, group));
    }
    first
}

/// Returns the refusal C20 of a group that follows `before` other groups, if there are too many.
fn group_refusal(before: usize, group: &GroupDef) -> Option<Refusal>
    ensures { (others : List GroupDef) → before ≡ length others → result ≡ group_refusal others group.now }
{
    let code = if before < GROUPS {
        None
    } else {
        Some(Code::C20)
    };
    at_line(group.line, code)
}
