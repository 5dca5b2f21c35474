//! The marks (deadkeys) that the outputs of a keyboard put.

ghost use Rattle.std.specs.Prelude.{◌≡◌, flat_map, option_to_list, IfOk, OnOk};
ghost use Rattle.std.specs.List.{fold};
ghost use Rattle.std.specs.Ordering.{nat_cmp};
ghost use Rattle.std.specs.BTreeSet.{insert_key};
ghost use Rattle.kmn_base.specs.Rising.{rising};
ghost use Rattle.core_constructs.specs.Marks.{rule_items, group_items, item_marks, element_marks, store_marks, put_store, put_stores, set_value, put_marks};
ghost use Rattle.core_constructs.specs.Collected.{collected_of};

use crate::outputs::live;
use crate::sets::add_some;
use kmn_base::{Element, LineSet, Memory};
use rule_model::{Group, Out, Rule, Tables};
use std::alloc::Global;

/// What is collected from the live items of all outputs.
#[derive(Clone, Copy)]
pub enum Collected {
    /// The marks among them.
    Marks,
    /// The stores of which they put an element.
    Stores,
    /// The values that they set one of some stores to.
    Values,
}

/// Returns the marks that a keyboard can put. The items are read in place.
#[tactic(auto, using(crate::proofs::Folds::folds))]
pub(crate) fn put_marks(alloc: Global, tables: &Tables) -> Result<LineSet, Memory>
    ensures { IfOk result (λ marks. marks ≡ put_marks tables.now) }
{
    let groups = tables.groups.as_slice();
    let stores = put_stores(alloc, groups)?;
    let values = set_values(alloc, &stores, groups)?.listed(alloc)?;
    let mut marks = LineSet::new(alloc);
    add_groups(&mut marks, Collected::Marks, &stores, groups)?;
    let stores = stores.listed(alloc)?;
    add_marks_of_stores(&mut marks, tables, stores.as_slice())?;
    add_marks_of_stores(&mut marks, tables, values.as_slice())?;
    Ok(marks)
}

/// Returns the stores of which the live items of outputs put an element.
fn put_stores(alloc: Global, groups: &[Group]) -> Result<LineSet, Memory>
    ensures { IfOk result (λ stores. stores ≡ put_stores (flat_map group_items groups.now)) }
{
    let none = LineSet::new(alloc);
    let mut stores = LineSet::new(alloc);
    add_groups(&mut stores, Collected::Stores, &none, groups)?;
    Ok(stores)
}

/// Returns the values that the live items of outputs set one of these stores to.
fn set_values(alloc: Global, stores: &LineSet, groups: &[Group]) -> Result<LineSet, Memory>
    ensures { IfOk result (λ values. values ≡ rising (flat_map (set_value stores.now) (flat_map group_items groups.now))) }
{
    let mut values = LineSet::new(alloc);
    add_groups(&mut values, Collected::Values, stores, groups)?;
    Ok(values)
}

/// Adds what is collected from the live items of the outputs of groups.
#[tactic(auto, using(crate::proofs::Folds::folds))]
fn add_groups(
    set: &mut LineSet,
    what: Collected,
    stores: &LineSet,
    groups: &[Group],
) -> Result<(), Memory>
    ensures { OnOk result (set.new ≡ fold (insert_key nat_cmp) set.old (flat_map (collected_of what stores.now) (flat_map group_items groups.now))) }
{
    for group in groups {
        add_group(set, what, stores, group)?;
    }
    Ok(())
}

/// Adds what is collected from the live items of the outputs of a group.
#[tactic(auto, using(crate::proofs::Folds::folds))]
fn add_group(
    set: &mut LineSet,
    what: Collected,
    stores: &LineSet,
    group: &Group,
) -> Result<(), Memory>
    ensures { OnOk result (set.new ≡ fold (insert_key nat_cmp) set.old (flat_map (collected_of what stores.now) (group_items group.now))) }
{
    add_rules(set, what, stores, group.rules.as_slice())?;
    add_items(set, what, stores, live(group.on_match.as_slice()))?;
    add_items(set, what, stores, live(group.on_nomatch.as_slice()))
}

/// Adds what is collected from the live items of the outputs of records.
#[tactic(auto, using(crate::proofs::Folds::folds))]
fn add_rules(
    set: &mut LineSet,
    what: Collected,
    stores: &LineSet,
    rules: &[Rule],
) -> Result<(), Memory>
    ensures { OnOk result (set.new ≡ fold (insert_key nat_cmp) set.old (flat_map (collected_of what stores.now) (flat_map rule_items rules.now))) }
{
    for rule in rules {
        add_items(set, what, stores, live(rule.output.as_slice()))?;
    }
    Ok(())
}

/// Adds what is collected from items.
#[tactic(auto, using(crate::proofs::Folds::folds))]
fn add_items(
    set: &mut LineSet,
    what: Collected,
    stores: &LineSet,
    items: &[Out],
) -> Result<(), Memory>
    ensures { OnOk result (set.new ≡ fold (insert_key nat_cmp) set.old (flat_map (collected_of what stores.now) items.now)) }
{
    for item in items {
        add_some(set, collected_of(what, stores, item))?;
    }
    Ok(())
}

/// Returns what is collected from an item, if anything.
fn collected_of(what: Collected, stores: &LineSet, item: &Out) -> Option<u32>
    ensures { option_to_list result ≡ collected_of what stores.now item.now }
{
    match what {
        Collected::Marks => item_mark(item),
        Collected::Stores => put_store(item),
        Collected::Values => set_value(stores, item),
    }
}

/// Returns the mark that an item is, if it is one.
fn item_mark(item: &Out) -> Option<u32>
    ensures { option_to_list result ≡ item_marks item.now }
{
    match item {
        Out::Mark(mark) => Some(u32::from(*mark)),
        _ => None,
    }
}

/// Returns the store of which an item puts an element, if any.
fn put_store(item: &Out) -> Option<u32>
    ensures { option_to_list result ≡ put_store item.now }
{
    match item {
        Out::Index(store, _) => Some(*store),
        _ => None,
    }
}

/// Returns the value that an item sets one of these stores to, if any.
fn set_value(stores: &LineSet, item: &Out) -> Option<u32>
    ensures { option_to_list result ≡ set_value stores.now item.now }
{
    match item {
        Out::Set(store, value) if stores.has(*store) => Some(*value),
        _ => None,
    }
}

/// Adds the marks among the elements of stores.
#[tactic(auto, using(crate::proofs::Folds::folds))]
fn add_marks_of_stores(marks: &mut LineSet, tables: &Tables, stores: &[u32]) -> Result<(), Memory>
    ensures { OnOk result (marks.new ≡ fold (insert_key nat_cmp) marks.old (flat_map (store_marks tables.now.stores) stores.now)) }
{
    for store in stores {
        add_element_marks(marks, tables.elements(*store))?;
    }
    Ok(())
}

/// Adds the marks among elements.
#[tactic(auto, using(crate::proofs::Folds::folds))]
fn add_element_marks(marks: &mut LineSet, elements: &[Element]) -> Result<(), Memory>
    ensures { OnOk result (marks.new ≡ fold (insert_key nat_cmp) marks.old (flat_map element_marks elements.now)) }
{
    for element in elements {
        add_some(marks, element_mark(element))?;
    }
    Ok(())
}

/// Returns the mark that an element is, if it is one.
fn element_mark(element: &Element) -> Option<u32>
    ensures { option_to_list result ≡ element_marks element.now }
{
    match element {
        Element::Mark(mark) => Some(u32::from(*mark)),
        _ => None,
    }
}
