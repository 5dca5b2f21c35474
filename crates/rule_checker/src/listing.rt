//! All refusals for limits, found statement by statement, in the order of lines.

ghost use Rattle.std.specs.Prelude.{◌≡◌, ◌++◌, true, List, [], length, map, flat_map, IfOk, OnOk};
ghost use Rattle.kmn_parser.specs.SourceLaws.{IsInOrder};
ghost use Rattle.store_table.specs.First.{all_of, first_among};
ghost use Rattle.store_table.specs.Known.{known};
ghost use Rattle.rule_model.specs.declared.program.RuleDef.{RuleDef};
ghost use Rattle.rule_model.specs.declared.program.GroupDef.{GroupDef};
ghost use Rattle.rule_model.specs.Naming.{all_rules, stores_after, stores_before};
ghost use Rattle.rule_checker.specs.Limits.{in_line_order, limits_refusal, OfStore};
ghost use Rattle.rule_checker.specs.AllLimits.{limits_refusals, listed_code, listed_group_refusal, listed_refusal};
ghost use Rattle.rule_checker.specs.Listing.{is_large, listed, listed_rule, listed_store, no_listing};

use crate::cased::cased_codes;
use crate::counting::{StoreCounts, count_stores, is_long_output, store_count};
use crate::totals::{Passed, Totals, add_rule, add_store, totals_passed};
use kmn_base::limits::{CONTEXT_ITEMS, GROUPS, STORE_ELEMENTS};
use kmn_base::{Code, Memory, Refusal, Seq};
use rule_model::system::DROPPED;
use rule_model::{GroupDef, Program, RuleDef, StoreDef};
use std::alloc::Global;
use store_table::{add_refusal, at_line, parted_by_line};

/// Returns all refusals for limits, C16 to C22: of stores and rules in the order of lines, then of groups. A statement has at most
/// one. The limits that all statements share (C18 of all stores, C19 to C22) are checked only if `shared` is true; each is reported
/// at the statement at which it is first passed. If they are checked and the statements are in the order of their lines, the first of
/// all refusals is the one that a check of the program reports. Errors: `Memory` if an allocation fails.
#[tactic(auto, using(crate::proofs::LimitsLeast::first_limit))]
pub fn limits_refusals(
    alloc: Global,
    shared: bool,
    program: &Program,
) -> Result<Seq<Refusal>, Memory>
    ensures all { IfOk result (λ refusals. refusals ≡ limits_refusals shared program.now) }
    ensures first { IfOk result (λ refusals. shared ≡ true → IsInOrder program.now → limits_refusal program.now ≡ first_among refusals) }
{
    let refusals = listed_refusals(alloc, shared, program)?;
    Ok(refusals)
}

/// Returns all refusals of stores and rules, then those of groups. Errors: `Memory` if an allocation fails.
#[tactic(auto, unfolding(crate::specs::AllLimits::limits_refusals))]
fn listed_refusals(alloc: Global, shared: bool, program: &Program) -> Result<Seq<Refusal>, Memory>
    ensures { IfOk result (λ refusals. refusals ≡ limits_refusals shared program.now) }
{
    let mut refusals = statements_refusals(alloc, shared, program)?;
    if shared {
        add_groups_refusals(&mut refusals, program.groups.as_slice())?;
    }
    Ok(refusals)
}

/// Returns all refusals of stores and rules. Errors: `Memory` if an allocation fails.
#[tactic(auto, using(crate::proofs::AllPassed::all_passed))]
fn statements_refusals(
    alloc: Global,
    shared: bool,
    program: &Program,
) -> Result<Seq<Refusal>, Memory>
    ensures { IfOk result (λ refusals. refusals ≡ all_of (listed_refusal shared (known program.now)) [] (in_line_order program.now.stores (all_rules program.now))) }
{
    let cased = cased_codes(alloc, program.stores.as_slice())?;
    let counted = count_stores(alloc, cased, program.stores.as_slice())?;
    listed(alloc, shared, &counted, program)
}

/// The counts up to a statement, and the refusals so far.
#[derive(Drop)]
pub struct Listing {
    pub totals: Totals,
    pub refusals: Seq<Refusal>,
}

/// Returns the refusals of stores and rules with these counts. Errors: `Memory` if an allocation fails.
fn listed(
    alloc: Global,
    shared: bool,
    counted: &StoreCounts,
    program: &Program,
) -> Result<Seq<Refusal>, Memory>
    ensures { IfOk result (λ refusals. refusals ≡ (listed shared counted.now no_listing (in_line_order program.now.stores (all_rules program.now))).refusals) }
{
    let mut listing = Listing {
        totals: Totals::new(alloc),
        refusals: Seq::new(alloc),
    };
    list_all(
        &mut listing,
        shared,
        counted,
        program.stores.as_slice(),
        program.groups.as_slice(),
    )?;
    Ok(listing.refusals)
}

/// Lists the refusals of stores and of the rules of groups.
fn list_all(
    listing: &mut Listing,
    shared: bool,
    counted: &StoreCounts,
    stores: &[StoreDef],
    groups: &[GroupDef],
) -> Result<(), Memory>
    ensures { OnOk result (listing.new ≡ listed shared counted.now listing.old (in_line_order stores.now (flat_map (λ (group : GroupDef). group.rules) groups.now))) }
{
    let mut waiting = stores;
    for group in groups {
        waiting = list_group(listing, shared, counted, waiting, group.rules.as_slice())?;
    }
    list_stores(listing, shared, counted, waiting)
}

/// Lists the refusals of the rules of a group, each after the stores before its line, and returns the other stores.
#[tactic(auto, using(crate::proofs::Listed::listed_next_rule))]
fn list_group<'a>(
    listing: &mut Listing,
    shared: bool,
    counted: &StoreCounts,
    stores: &'a [StoreDef],
    rules: &[RuleDef],
) -> Result<&'a [StoreDef], Memory>
    ensures { OnOk result (IfOk result (λ rest. (more : List RuleDef) → listed shared counted.now listing.new (in_line_order rest.now more) ≡ listed shared counted.now listing.old (in_line_order stores.now (rules.now ++ more)))) }
{
    let mut waiting = stores;
    for rule in rules {
        waiting = list_before(listing, shared, counted, waiting, rule.line)?;
        list_rule(listing, shared, counted, rule)?;
    }
    Ok(waiting)
}

/// Lists the refusals of the stores before a line and returns the others.
fn list_before<'a>(
    listing: &mut Listing,
    shared: bool,
    counted: &StoreCounts,
    stores: &'a [StoreDef],
    line: u32,
) -> Result<&'a [StoreDef], Memory>
    ensures rest { IfOk result (λ rest. rest.now ≡ stores_after line stores.now) }
    ensures listed { OnOk result (listing.new ≡ listed shared counted.now listing.old (map OfStore (stores_before line stores.now))) }
{
    let (before, others) = parted_by_line(stores, line);
    list_stores(listing, shared, counted, before)?;
    Ok(others)
}

/// Lists the refusals of store statements.
#[tactic(auto, using(crate::proofs::Listed::listed_next_store))]
fn list_stores(
    listing: &mut Listing,
    shared: bool,
    counted: &StoreCounts,
    stores: &[StoreDef],
) -> Result<(), Memory>
    ensures { OnOk result (listing.new ≡ listed shared counted.now listing.old (map OfStore stores.now)) }
{
    for store in stores {
        list_store(listing, shared, counted, store)?;
    }
    Ok(())
}

/// Counts a store statement and lists its refusal.
fn list_store(
    listing: &mut Listing,
    shared: bool,
    counted: &StoreCounts,
    store: &StoreDef,
) -> Result<(), Memory>
    ensures { OnOk result (listing.new ≡ listed_store shared counted.now listing.old store.now) }
{
    let before = totals_passed(&listing.totals);
    add_store(&mut listing.totals, counted, store)?;
    let now = totals_passed(&listing.totals);
    let large = is_large(counted, store);
    let code = listed_code(shared, before, now, false, false, large);
    add_refusal(&mut listing.refusals, at_line(store.line, code))
}

/// Returns whether the store of a statement has too many elements.
fn is_large(counted: &StoreCounts, store: &StoreDef) -> bool
    ensures { result ≡ is_large counted.now store.now }
{
    store.system != DROPPED
        && (STORE_ELEMENTS as u32) < store_count(counted, store.items.as_slice())
}

/// Counts a rule, match or nomatch statement and lists its refusal.
fn list_rule(
    listing: &mut Listing,
    shared: bool,
    counted: &StoreCounts,
    rule: &RuleDef,
) -> Result<(), Memory>
    ensures { OnOk result (listing.new ≡ listed_rule shared counted.now listing.old rule.now) }
{
    let before = totals_passed(&listing.totals);
    add_rule(&mut listing.totals, counted, rule)?;
    let now = totals_passed(&listing.totals);
    let context = CONTEXT_ITEMS < rule.context.len();
    let output = is_long_output(counted, rule.output.as_slice());
    let code = listed_code(shared, before, now, context, output, false);
    add_refusal(&mut listing.refusals, at_line(rule.line, code))
}

/// Returns the code of the first limit that a statement passes by itself (`context`, `output`, `large`), or that all statements pass
/// with it, but not before it.
fn listed_code(
    shared: bool,
    before: Passed,
    now: Passed,
    context: bool,
    output: bool,
    large: bool,
) -> Option<Code>
    ensures { result ≡ listed_code shared before now context output large }
{
    if context {
        Some(Code::C16)
    } else if output {
        Some(Code::C17)
    } else if large || shared && now.elements && !before.elements {
        Some(Code::C18)
    } else if shared && now.stores && !before.stores {
        Some(Code::C19)
    } else if shared && now.marks && !before.marks {
        Some(Code::C21)
    } else if shared && now.records && !before.records {
        Some(Code::C22)
    } else {
        None
    }
}

/// Appends the refusal of the group with which there are too many, if there is one.
#[tactic(auto, using(store_table::proofs::Firsts::all_kept))]
fn add_groups_refusals(refusals: &mut Seq<Refusal>, groups: &[GroupDef]) -> Result<(), Memory>
    ensures { OnOk result (refusals.new ≡ refusals.old ++ all_of listed_group_refusal [] groups.now) }
{
    for (before, group) in groups.iter().enumerate() {
        add_refusal(refusals, group_refusal(before, group))?;
    }
    Ok(())
}

/// Returns the refusal C20 of a group that follows `before` other groups, if it is the first of too many.
fn group_refusal(before: usize, group: &GroupDef) -> Option<Refusal>
    ensures { (others : List GroupDef) → before ≡ length others → result ≡ listed_group_refusal others group.now }
{
    let code = if before == GROUPS {
        Some(Code::C20)
    } else {
        None
    };
    at_line(group.line, code)
}
