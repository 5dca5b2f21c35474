//! The properties of a whole file that Keyman's own engine treats differently.

ghost use Rattle.std.specs.Prelude.{◌≡◌, filter, slice_get, IfOk};
ghost use Rattle.std.specs.List.{list_any};
ghost use Rattle.std.specs.Str.{bytes_eq};
ghost use Rattle.core_constructs.specs.Told.{has_key_names, rule_fits_both, group_fits_both, fits_both_at, have_same_name, shares_name, file_has, file_differences};

use crate::construct::{FILE_CONSTRUCTS, FileConstruct};
use crate::facts::Facts;
use crate::keys::fits_both;
use crate::queued::overflows;
use crate::records::can_match;
use kmn_base::slices::behind;
use kmn_base::{Memory, Seq};
use rule_model::system::KEY_DICTIONARY;
use rule_model::{Group, Rule, Store, Tables};
use std::alloc::Global;

/// The flags of the header by which that engine turns caps lock on and off.
const CAPS_FLAGS: u32 = 7;

/// Returns the constructs that a file with these flags in its header has.
#[tactic(auto, unfolding(crate::specs::Told::file_differences))]
pub(crate) fn file_differences(
    alloc: Global,
    flags: u32,
    tables: &Tables,
    facts: &Facts,
) -> Result<Seq<FileConstruct>, Memory>
    ensures { IfOk result (λ list. list ≡ file_differences flags tables.now facts.now) }
{
    constructs_of(alloc, flags, tables, facts, &FILE_CONSTRUCTS)
}

/// Returns those of these constructs that a file has.
fn constructs_of(
    alloc: Global,
    flags: u32,
    tables: &Tables,
    facts: &Facts,
    constructs: &[FileConstruct],
) -> Result<Seq<FileConstruct>, Memory>
    ensures { IfOk result (λ list. list ≡ filter (file_has flags tables.now facts.now) constructs.now) }
{
    let mut list = Seq::new(alloc);
    for construct in constructs {
        if file_has(alloc, flags, tables, facts, *construct)? {
            list.add(*construct)?;
        }
    }
    Ok(list)
}

/// Returns whether a file with these flags in its header has a construct.
fn file_has(
    alloc: Global,
    flags: u32,
    tables: &Tables,
    facts: &Facts,
    construct: FileConstruct,
) -> Result<bool, Memory>
    ensures { IfOk result (λ has. has ≡ file_has flags tables.now facts.now construct) }
{
    match construct {
        FileConstruct::Marks => Ok(facts.marks.first().is_some()),
        FileConstruct::Own => Ok(some_key_names(tables.stores.as_slice())),
        FileConstruct::Both => Ok(some_fits_both_at(tables, facts)),
        FileConstruct::Budget => overflows(alloc, tables),
        FileConstruct::Caps => Ok(flags & CAPS_FLAGS != 0),
        FileConstruct::Names => {
            let options = facts.options.listed(alloc)?;
            Ok(shares_name(tables.stores.as_slice(), options.as_slice()))
        }
    }
}

/// Returns whether one of the stores is the dictionary of custom keys, with at least one name.
fn some_key_names(stores: &[Store]) -> bool
    ensures { result ≡ list_any has_key_names stores.now }
{
    stores.iter().any(|store| has_key_names(store))
}

fn has_key_names(store: &Store) -> bool
    ensures { result ≡ has_key_names store.now }
{
    store.system == KEY_DICTIONARY && !store.elements.is_empty()
}

/// Returns whether a record of a group that an event can enter fits no press with both sides of CTRL, or of ALT, held.
fn some_fits_both_at(tables: &Tables, facts: &Facts) -> bool
    ensures { result ≡ list_any (fits_both_at tables.now facts.now) facts.now.reached }
{
    let reached = facts.reached.as_slice();
    reached
        .iter()
        .any(|number| fits_both_at(tables, facts, *number))
}

fn fits_both_at(tables: &Tables, facts: &Facts, number: u32) -> bool
    ensures { result ≡ fits_both_at tables.now facts.now number }
{
    match tables.groups.as_slice().get(number as usize) {
        Some(group) => group_fits_both(facts, group),
        None => false,
    }
}

fn group_fits_both(facts: &Facts, group: &Group) -> bool
    ensures { result ≡ group_fits_both facts.now group.now }
{
    let rules = group.rules.as_slice();
    rules.iter().any(|rule| rule_fits_both(facts, rule))
}

fn rule_fits_both(facts: &Facts, rule: &Rule) -> bool
    ensures { result ≡ rule_fits_both facts.now rule.now }
{
    can_match(facts, rule) && fits_both(rule.key)
}

/// Returns whether two of these stores have the same name.
fn shares_name(stores: &[Store], options: &[u32]) -> bool
    ensures { result ≡ shares_name stores.now options.now }
{
    for i in 0..options.len() {
        if some_has_same_name(stores, options[i], behind(options, i + 1)) {
            return true;
        }
    }
    false
}

/// Returns whether one of these stores has the name of a store.
fn some_has_same_name(stores: &[Store], option: u32, options: &[u32]) -> bool
    ensures { result ≡ list_any (λ other. have_same_name (slice_get stores.now option) (slice_get stores.now other)) options.now }
{
    options
        .iter()
        .any(|other| have_same_name(stores, option, *other))
}

/// Returns whether two stores have a name, and the same one.
fn have_same_name(stores: &[Store], option: u32, other: u32) -> bool
    ensures { result ≡ have_same_name (slice_get stores.now option) (slice_get stores.now other) }
{
    match (stores.get(option as usize), stores.get(other as usize)) {
        (Some(store), Some(other)) => {
            !store.name.is_empty() && is_same_text(store.name.as_slice(), other.name.as_slice())
        }
        _ => false,
    }
}

/// Returns whether two texts are the same, byte by byte.
fn is_same_text(a: &[u8], b: &[u8]) -> bool
    ensures { result ≡ bytes_eq a.now b.now }
{
    a == b
}
