//! W06: elements of the store of `any` that are in it before.

ghost use Rattle.std.specs.Prelude.{◌≡◌, ◌++◌, flat_map, map, slice_get, IfOk, OnOk};
ghost use Rattle.source_warnings.specs.Repeated.{are_different, character_name, deadkey_name, differ_at, element_name, first_hidden, hidden_among, hidden_number, is_hidden, is_hidden_from, is_other, key_name, key_numbers, line_at, pair_number, repeated_among, repeated_at, repeated_element, repeated_elements, store_line};

use kmn_base::names::same_name;
use kmn_base::slices::before;
use kmn_base::{Memory, Seq, Text};
use name_warnings::{Warning, WarningKind};
use rule_model::{KeyName, StoreDef};
use source_uses::{Contents, Pair, StoreElement, Use, add_names, distinct_pairs, stated_stores};
use std::alloc::Global;
use store_table::NameTable;

/// Appends W06: a warning at each store of `any` with an element that is in it before, at a place where the store of `index` has another
/// element, once for each two stores.
#[tactic(auto, unfolding(crate::specs::Repeated::repeated_elements))]
pub(crate) fn add_repeated_elements(
    alloc: Global,
    found: &mut Vec<Warning>,
    contents: &Contents,
    stores: &[StoreDef],
    pairs: &[Pair],
) -> Result<(), Memory>
    ensures { OnOk result (found.new.items ≡ found.old.items ++ repeated_elements contents.now stores.now pairs.now) }
{
    let stated = stated_stores(alloc, stores)?;
    let distinct = distinct_pairs(alloc, pairs)?;
    add_among(
        alloc,
        found,
        contents,
        stated.as_slice(),
        distinct.as_slice(),
    )
}

/// Appends the warnings of pairs of stores, which are among these stores.
#[tactic(auto, unfolding(crate::specs::Repeated::repeated_among))]
fn add_among(
    alloc: Global,
    found: &mut Vec<Warning>,
    contents: &Contents,
    stated: &[Use],
    pairs: &[Pair],
) -> Result<(), Memory>
    ensures { OnOk result (found.new.items ≡ found.old.items ++ repeated_among contents.now stated.now pairs.now) }
{
    let mut names = NameTable::new(alloc);
    add_names(&mut names, stated)?;
    add_repeated(alloc, found, contents, &names, stated, pairs)
}

/// Appends the warnings of pairs of stores, which are among these stores with these names.
fn add_repeated(
    alloc: Global,
    found: &mut Vec<Warning>,
    contents: &Contents,
    names: &NameTable,
    stated: &[Use],
    pairs: &[Pair],
) -> Result<(), Memory>
    ensures { OnOk result (found.new.items ≡ found.old.items ++ flat_map (repeated_element contents.now names.now stated.now) pairs.now) }
{
    for pair in pairs {
        add_repeated_element(alloc, found, contents, names, stated, pair)?;
    }
    Ok(())
}

/// Appends the warning of a pair of stores, if it has one.
#[tactic(auto, unfolding(crate::specs::Repeated::repeated_element))]
fn add_repeated_element(
    alloc: Global,
    found: &mut Vec<Warning>,
    contents: &Contents,
    names: &NameTable,
    stated: &[Use],
    pair: &Pair,
) -> Result<(), Memory>
    ensures { OnOk result (found.new.items ≡ found.old.items ++ repeated_element contents.now names.now stated.now pair.now) }
{
    let number = pair_number(alloc, contents, pair)?;
    let line = store_line(names, stated, pair.any.as_slice());
    add_at(alloc, found, pair, line, number)
}

/// Returns the number of the first hidden element of the store of an `any`.
#[tactic(auto, unfolding(crate::specs::Repeated::pair_number))]
fn pair_number(alloc: Global, contents: &Contents, pair: &Pair) -> Result<Option<usize>, Memory>
    ensures { IfOk result (λ number. number ≡ pair_number contents.now pair.now) }
{
    let elements = contents.named(pair.any.as_slice());
    let partners = contents.named(pair.index.as_slice());
    let number = hidden_number(alloc, elements, partners)?;
    Ok(number)
}

/// Appends the warning of a pair of stores at a line about the element with a number, if there are both.
#[tactic(auto, unfolding(crate::specs::Repeated::repeated_at))]
fn add_at(
    alloc: Global,
    found: &mut Vec<Warning>,
    pair: &Pair,
    line: Option<u32>,
    number: Option<usize>,
) -> Result<(), Memory>
    ensures { OnOk result (found.new.items ≡ found.old.items ++ repeated_at pair.now line number) }
{
    let Some(line) = line else {
        return Ok(());
    };
    let Some(place) = number else {
        return Ok(());
    };
    let any = pair.any.copy(alloc)?;
    let index = pair.index.copy(alloc)?;
    found.push(Warning {
        line,
        kind: WarningKind::RepeatedElement { place, any, index },
    })?;
    Ok(())
}

/// Returns the line of the store with a name, among stores with these names.
#[tactic(auto, unfolding(crate::specs::Repeated::store_line))]
fn store_line(names: &NameTable, stated: &[Use], name: &[u8]) -> Option<u32>
    ensures { result ≡ store_line names.now stated.now name.now }
{
    line_at(stated, names.place_of(name))
}

/// Returns the line of the use at a place, if there is one.
fn line_at(stated: &[Use], place: Option<usize>) -> Option<u32>
    ensures { result ≡ line_at stated.now place }
{
    let Some(place) = place else {
        return None;
    };
    stated.get(place).map(|found| found.line)
}

/// Returns the number, from 1, of the first element that is in its store before, at a place with another partner.
#[tactic(auto, unfolding(crate::specs::Repeated::hidden_number))]
fn hidden_number(
    alloc: Global,
    elements: &[StoreElement],
    partners: &[StoreElement],
) -> Result<Option<usize>, Memory>
    ensures { IfOk result (λ number. number ≡ hidden_number elements.now partners.now) }
{
    let number = hidden_among(alloc, before(elements, partners.len()), partners)?;
    Ok(number)
}

/// Returns the number, from 1, of the first such element, if each element has a partner.
#[tactic(auto, unfolding(crate::specs::Repeated::hidden_among))]
fn hidden_among(
    alloc: Global,
    elements: &[StoreElement],
    partners: &[StoreElement],
) -> Result<Option<usize>, Memory>
    ensures { IfOk result (λ number. number ≡ hidden_among elements.now partners.now) }
{
    let names = element_names(alloc, elements)?;
    let number = first_hidden(alloc, &names, partners, elements)?;
    Ok(number)
}

/// Returns a table with the names of elements.
fn element_names(alloc: Global, elements: &[StoreElement]) -> Result<NameTable, Memory>
    ensures { IfOk result (λ names. names ≡ map element_name elements.now) }
{
    let mut names = NameTable::new(alloc);
    for element in elements {
        let name = element_name(alloc, element)?;
        names.push(name.as_slice())?;
    }
    Ok(names)
}

/// Returns the number, from 1, of the first element whose partner is hidden, for elements with these names.
#[tactic(auto, using(crate::proofs::HiddenElements::hidden_step))]
fn first_hidden(
    alloc: Global,
    names: &NameTable,
    partners: &[StoreElement],
    elements: &[StoreElement],
) -> Result<Option<usize>, Memory>
    ensures { IfOk result (λ number. number ≡ first_hidden names.now partners.now 0 elements.now) }
{
    for place in 0..elements.len() {
        if is_hidden(alloc, names, partners, place, &elements[place])? {
            return Ok(Some(place + 1));
        }
    }
    Ok(None)
}

/// Returns whether the partner of an element at a place is another one than the partner at the first place of the element.
#[tactic(auto, unfolding(crate::specs::Repeated::is_hidden))]
fn is_hidden(
    alloc: Global,
    names: &NameTable,
    partners: &[StoreElement],
    place: usize,
    element: &StoreElement,
) -> Result<bool, Memory>
    ensures { IfOk result (λ hidden. hidden ≡ is_hidden names.now partners.now place element.now) }
{
    let name = element_name(alloc, element)?;
    let first = names.place_of(name.as_slice());
    let hidden = is_hidden_from(alloc, partners, place, first)?;
    Ok(hidden)
}

/// Returns whether the partner at a place is another one than the partner at a first place, if there is one.
#[tactic(auto, unfolding(crate::specs::Repeated::is_hidden_from))]
fn is_hidden_from(
    alloc: Global,
    partners: &[StoreElement],
    place: usize,
    first: Option<usize>,
) -> Result<bool, Memory>
    ensures { IfOk result (λ hidden. hidden ≡ is_hidden_from partners.now place first) }
{
    match first {
        Some(first) => differ_at(alloc, partners, place, first),
        None => Ok(false),
    }
}

/// Returns whether the partners at two places are there and are not the same.
fn differ_at(
    alloc: Global,
    partners: &[StoreElement],
    place: usize,
    first: usize,
) -> Result<bool, Memory>
    ensures { IfOk result (λ different. different ≡ differ_at partners.now place (slice_get partners.now first)) }
{
    match partners.get(first) {
        Some(one) => is_other(alloc, one, partners, place),
        None => Ok(false),
    }
}

/// Returns whether the partner at a place is there and is not this one.
fn is_other(
    alloc: Global,
    one: &StoreElement,
    partners: &[StoreElement],
    place: usize,
) -> Result<bool, Memory>
    ensures { IfOk result (λ different. different ≡ is_other one.now (slice_get partners.now place)) }
{
    match partners.get(place) {
        Some(other) => are_different(alloc, one, other),
        None => Ok(false),
    }
}

/// Returns whether two elements are not the same.
fn are_different(alloc: Global, one: &StoreElement, other: &StoreElement) -> Result<bool, Memory>
    ensures { IfOk result (λ different. different ≡ are_different one.now other.now) }
{
    let name = element_name(alloc, one)?;
    let other_name = element_name(alloc, other)?;
    Ok(!same_name(name.as_slice(), other_name.as_slice()))
}

/// Returns the name of an element.
#[tactic(auto, unfolding(crate::specs::Repeated::element_name))]
fn element_name(alloc: Global, element: &StoreElement) -> Result<Text, Memory>
    ensures { IfOk result (λ name. name ≡ element_name element.now) }
{
    match element {
        StoreElement::Char(c) => character_name(alloc, *c),
        StoreElement::Mark(name) => deadkey_name(alloc, name),
        StoreElement::Key(key) => key_name(alloc, key),
    }
}

/// Returns the name of a character as an element.
#[tactic(auto, unfolding(crate::specs::Repeated::character_name))]
fn character_name(alloc: Global, c: char) -> Result<Text, Memory>
    ensures { IfOk result (λ name. name ≡ character_name c) }
{
    let number = u32::from(c);
    let name = format!(in alloc; "character {number}")?;
    Ok(Text::from_string(name))
}

/// Returns the name of a deadkey as an element.
fn deadkey_name(alloc: Global, name: &Text) -> Result<Text, Memory>
    ensures { IfOk result (λ text. text ≡ deadkey_name name.now) }
{
    let mut text = Seq::from_slice(alloc, b"deadkey ")?;
    text.extend_from_slice(name.as_slice())?;
    Ok(text)
}

/// Returns the name of a virtual key as an element.
fn key_name(alloc: Global, key: &KeyName) -> Result<Text, Memory>
    ensures { IfOk result (λ name. name ≡ key_name key.now) }
{
    let mut name = key_numbers(alloc, key.flags, key.code)?;
    name.extend_from_slice(key.name.as_slice())?;
    Ok(name)
}

/// Returns the numbers of a virtual key, as the first part of its name.
#[tactic(auto, unfolding(crate::specs::Repeated::key_numbers))]
fn key_numbers(alloc: Global, flags: u16, code: u16) -> Result<Text, Memory>
    ensures { IfOk result (λ text. text ≡ key_numbers flags code) }
{
    let text = format!(in alloc; "key {flags} {code} ")?;
    Ok(Text::from_string(text))
}
