//! Finds what covers a record: the first earlier record that covers it, or the first position at which earlier records cover it
//! item by item.
//!
//! First, each earlier record is compared with the record. If none covers it, the earlier records are filtered once: those that
//! miss two positions can't cover it with one position narrowed (`near`). Then each position of an `any` is tried, with the
//! remaining records for each item of its store. So each result is the lowest possible one. Certificates with nested splits are
//! valid, but are not searched. For n earlier records, of which k remain, and m items in the tried stores, the cost is
//! O(n + mk) comparisons.

ghost use Rattle.std.specs.Prelude.{◌≡◌, ◌≤◌, ◌<◌, ◌^◌, ◌+◌, ◌&&◌, [], length, take, slice_get, IfOk, filter_map, map};
ghost use Rattle.std.specs.List.{list_any, position_from};
ghost use Rattle.kmn_base.specs.declared.limits.TheConstants.{CONTEXT_ITEMS};
ghost use Rattle.rule_model.specs.Match.{item_of};
ghost use Rattle.kmx_format.specs.Writable.{is_any};
ghost use Rattle.rule_shadow.specs.declared.cert.Cert.{By};
ghost use Rattle.rule_shadow.specs.Keys.{fitting_presses};
ghost use Rattle.rule_shadow.specs.Covers.{covers_rule, covers_if_any, narrowed, nothing_narrowed};
ghost use Rattle.rule_shadow.specs.Near.{is_at_most, near_before, first_near};
ghost use Rattle.rule_shadow.specs.Finding.{Says, least_by, least_onto, split_rules, first_split, found_for};

use crate::cert::{Cert, Place};
use crate::certs::{narrowed, nothing_narrowed, split_store};
use crate::covering::{conditions_too, cover_last, keeps_nul};
use crate::key_cover::{fits_each, fitting_presses};
use crate::near::{Near, is_at_most, near_rules};
use crate::place_list::places;
use crate::subject::Subject;
use kmn_base::limits::CONTEXT_ITEMS;
use kmn_base::{Element, Item, Memory, Seq};
use rule_model::{Pat, Rule, item_of};
use std::alloc::Global;
use virtual_keys::Pressed;

/// What covers a record: one record, or a position with a record for each item, or nothing.
#[derive(Drop)]
pub enum Found {
    NotFound,
    /// The lowest number of a record that covers it.
    ByRule(u32),
    /// A position, counted from 0, and for each item of its store the lowest number of a record that covers it with the
    /// position narrowed to the item.
    SplitAt(u32, Seq<u32>),
}

/// The input of the search for a split: the record, the presses to test that fit its key, and the earlier records that miss at
/// most one of its positions.
#[derive(Clone, Copy)]
struct Search<'a> {
    subject: &'a Subject<'a>,
    presses: &'a [Pressed],
    near: &'a [Near],
}

/// Returns what covers the subject.
pub fn found_for(alloc: Global, subject: &Subject) -> Result<Found, Memory>
    requires { length subject.now.rule.now.context ≤ CONTEXT_ITEMS }
    ensures { IfOk result (λ found. found ≡ found_for subject.now.tables.now subject.now.group.now subject.now.number subject.now.rule.now) }
{
    let presses = fitting_presses(alloc, subject.rule.key)?;
    let presses = presses.as_slice();
    match least_by(subject, presses, &nothing_narrowed()) {
        Some(q) => Ok(Found::ByRule(q)),
        None => split_for(alloc, subject, presses),
    }
}

/// Returns the lowest number of an earlier record that covers the subject under a narrowing.
fn least_by(
    subject: &Subject,
    presses: &[Pressed],
    narrowing: &[Option<Item>; CONTEXT_ITEMS],
) -> Option<u32>
    requires few { length subject.now.rule.now.context ≤ CONTEXT_ITEMS }
    requires fitting { presses.now ≡ fitting_presses subject.now.rule.now.key }
    ensures { result ≡ least_by subject.now.tables.now subject.now.group.now subject.now.number subject.now.rule.now narrowing.now }
{
    let places = places(subject.tables, narrowing, subject.rule.context.as_slice());
    first_covering(subject, presses, places.as_slice(), subject.rules_before())
}

/// Returns the number of the first of some records that covers the subject.
fn first_covering(
    subject: &Subject,
    presses: &[Pressed],
    places: &[Place],
    rules: &[Rule],
) -> Option<u32>
    requires few { length rules.now < 2 ^ 32 }
    requires fitting { presses.now ≡ fitting_presses subject.now.rule.now.key }
    ensures { result ≡ position_from (λ q. covers_rule subject.now.tables.now subject.now.group.now.using_keys places.now q subject.now.rule.now) 0 rules.now }
{
    for n in 0..rules.len() {
        if covers_record(subject, presses, places, &rules[n]) {
            return Some(n as u32);
        }
    }
    None
}

/// Returns whether record `q` covers the subject, whose positions have these ranges. The keys are compared first, since most
/// records fail at the first press.
#[tactic(auto, using(crate::proofs::Counts::asked_first, crate::proofs::Tried::fitting_tell))]
fn covers_record(subject: &Subject, presses: &[Pressed], places: &[Place], q: &Rule) -> bool
    requires { presses.now ≡ fitting_presses subject.now.rule.now.key }
    ensures { result ≡ covers_rule subject.now.tables.now subject.now.group.now.using_keys places.now q.now subject.now.rule.now }
{
    let of_q = q.context.as_slice();
    let of_r = subject.rule.context.as_slice();
    (!subject.group.using_keys || fits_each(q.key, presses))
        && cover_last(subject.tables, of_q, places)
        && keeps_nul(of_q, of_r)
        && conditions_too(subject.tables, of_r, of_q)
}

/// Returns the first position at which the subject splits.
#[tactic(auto, using(crate::proofs::NearRules::never_split))]
fn split_for(alloc: Global, subject: &Subject, presses: &[Pressed]) -> Result<Found, Memory>
    requires few { length subject.now.rule.now.context ≤ CONTEXT_ITEMS }
    requires fitting { presses.now ≡ fitting_presses subject.now.rule.now.key }
    ensures { IfOk result (λ found. found ≡ first_split subject.now.tables.now subject.now.group.now subject.now.number subject.now.rule.now 0 subject.now.rule.now.context) }
{
    let context = subject.rule.context.as_slice();
    if !has_any(context) {
        return Ok(Found::NotFound);
    }
    let near = near_before(alloc, subject, presses)?;
    let search = Search {
        subject,
        presses,
        near: near.as_slice(),
    };
    first_split(alloc, &search, 0, context)
}

/// Returns whether a context has an `any`. A record can split only at the position of an `any`.
fn has_any(context: &[Pat]) -> bool
    ensures { result ≡ list_any is_any context.now }
{
    for item in context {
        if matches!(item, Pat::Any(_)) {
            return true;
        }
    }
    false
}

/// Returns the earlier records that miss at most one position of the subject.
fn near_before(alloc: Global, subject: &Subject, presses: &[Pressed]) -> Result<Vec<Near>, Memory>
    requires few { length subject.now.rule.now.context ≤ CONTEXT_ITEMS }
    requires fitting { presses.now ≡ fitting_presses subject.now.rule.now.key }
    ensures { IfOk result (λ near. near.items ≡ near_before subject.now.tables.now subject.now.group.now subject.now.number subject.now.rule.now) }
{
    let narrowing = nothing_narrowed();
    let places = places(subject.tables, &narrowing, subject.rule.context.as_slice());
    near_rules(
        alloc,
        subject,
        presses,
        places.as_slice(),
        subject.rules_before(),
    )
}

/// Returns the first position, from one on, at which the subject splits.
fn first_split(alloc: Global, search: &Search, place: u32, context: &[Pat]) -> Result<Found, Memory>
    requires few { length search.now.subject.now.rule.now.context ≤ CONTEXT_ITEMS }
    requires fitting { search.now.presses.now ≡ fitting_presses search.now.subject.now.rule.now.key }
    requires near { search.now.near.now ≡ near_before search.now.subject.now.tables.now search.now.subject.now.group.now search.now.subject.now.number search.now.subject.now.rule.now }
    requires places { place + length context.now ≤ CONTEXT_ITEMS }
    ensures { IfOk result (λ found. found ≡ first_split search.now.subject.now.tables.now search.now.subject.now.group.now search.now.subject.now.number search.now.subject.now.rule.now place context.now) }
{
    let [pattern, rest @ ..] = context else {
        return Ok(Found::NotFound);
    };
    if !pattern.is_matched() {
        return first_split(alloc, search, place, rest);
    }
    match split_rules(alloc, search, place)? {
        Some(rules) => Ok(Found::SplitAt(place, rules)),
        None => first_split(alloc, search, place + 1, rest),
    }
}

/// Returns the lowest records by which the subject splits at a position, if it does.
fn split_rules(alloc: Global, search: &Search, place: u32) -> Result<Option<Seq<u32>>, Memory>
    requires few { length search.now.subject.now.rule.now.context ≤ CONTEXT_ITEMS }
    requires fitting { search.now.presses.now ≡ fitting_presses search.now.subject.now.rule.now.key }
    requires near { search.now.near.now ≡ near_before search.now.subject.now.tables.now search.now.subject.now.group.now search.now.subject.now.number search.now.subject.now.rule.now }
    ensures { IfOk result (λ rules. rules ≡ split_rules search.now.subject.now.tables.now search.now.subject.now.group.now search.now.subject.now.number search.now.subject.now.rule.now place) }
{
    match split_store(search.subject, &nothing_narrowed(), place) {
        Some(store) => {
            let elements = search.subject.tables.elements(store);
            least_each(alloc, search, place, elements)
        }
        None => Ok(None),
    }
}

/// Returns, for each item among these elements, the lowest record that covers the subject with the position narrowed to it, or
/// `None` if some item has no such record.
fn least_each(
    alloc: Global,
    search: &Search,
    place: u32,
    elements: &[Element],
) -> Result<Option<Seq<u32>>, Memory>
    requires few { length search.now.subject.now.rule.now.context ≤ CONTEXT_ITEMS }
    requires fitting { search.now.presses.now ≡ fitting_presses search.now.subject.now.rule.now.key }
    requires near { search.now.near.now ≡ near_before search.now.subject.now.tables.now search.now.subject.now.group.now search.now.subject.now.number search.now.subject.now.rule.now }
    ensures { IfOk result (λ rules. rules ≡ least_onto search.now.subject.now.tables.now search.now.subject.now.group.now search.now.subject.now.number search.now.subject.now.rule.now place (filter_map item_of elements.now) []) }
{
    let mut rules = Vec::new(alloc);
    for element in elements {
        if let Some(item) = item_of(*element) {
            match least_narrowed(search, place, item) {
                Some(q) => rules.push(q)?,
                None => return Ok(None),
            }
        }
    }
    Ok(Some(Seq::from_vec(rules)))
}

/// Returns the lowest number of an earlier record that covers the subject with a position narrowed to an item.
fn least_narrowed(search: &Search, place: u32, item: Item) -> Option<u32>
    requires few { length search.now.subject.now.rule.now.context ≤ CONTEXT_ITEMS }
    requires fitting { search.now.presses.now ≡ fitting_presses search.now.subject.now.rule.now.key }
    requires near { search.now.near.now ≡ near_before search.now.subject.now.tables.now search.now.subject.now.group.now search.now.subject.now.number search.now.subject.now.rule.now }
    ensures { result ≡ least_by search.now.subject.now.tables.now search.now.subject.now.group.now search.now.subject.now.number search.now.subject.now.rule.now (narrowed nothing_narrowed place item) }
{
    let narrowing = narrowed(&nothing_narrowed(), place, item);
    let subject = search.subject;
    let places = places(subject.tables, &narrowing, subject.rule.context.as_slice());
    first_near(search, place, places.as_slice())
}

/// Returns the first near record that misses at most this position and covers the subject, whose positions have these ranges.
fn first_near(search: &Search, place: u32, places: &[Place]) -> Option<u32>
    requires { search.now.presses.now ≡ fitting_presses search.now.subject.now.rule.now.key }
    ensures { result ≡ first_near (λ n. is_at_most place n.miss && covers_if_any search.now.subject.now.tables.now search.now.subject.now.group.now.using_keys places.now search.now.subject.now.rule.now (slice_get (take search.now.subject.now.number search.now.subject.now.group.now.rules) n.rule)) search.now.near.now }
{
    for one in search.near {
        if near_covers(search, place, places, *one) {
            return Some(one.rule);
        }
    }
    None
}

/// Returns whether a near record misses at most this position and covers the subject, whose positions have these ranges.
fn near_covers(search: &Search, place: u32, places: &[Place], near: Near) -> bool
    requires { search.now.presses.now ≡ fitting_presses search.now.subject.now.rule.now.key }
    ensures { result ≡ (is_at_most place near.miss && covers_if_any search.now.subject.now.tables.now search.now.subject.now.group.now.using_keys places.now search.now.subject.now.rule.now (slice_get (take search.now.subject.now.number search.now.subject.now.group.now.rules) near.rule)) }
{
    if !is_at_most(place, near.miss) {
        return false;
    }
    match search.subject.rules_before().get(near.rule as usize) {
        Some(q) => covers_record(search.subject, search.presses, places, q),
        None => false,
    }
}

/// Returns the certificate that states what was found.
pub fn certificate(alloc: Global, found: Found) -> Result<Option<Cert>, Memory>
    ensures { IfOk result (Says found) }
{
    match found {
        Found::NotFound => Ok(None),
        Found::ByRule(rule) => Ok(Some(Cert::By { rule })),
        Found::SplitAt(place, rules) => {
            let parts = parts_of(alloc, rules.as_slice())?;
            Ok(Some(Cert::Split { place, parts }))
        }
    }
}

/// Returns one part of a certificate for each record.
fn parts_of(alloc: Global, rules: &[u32]) -> Result<Vec<Cert>, Memory>
    ensures { IfOk result (λ parts. parts.items ≡ map By rules.now) }
{
    let mut parts = Vec::new(alloc);
    for rule in rules {
        parts.push(Cert::By { rule: *rule })?;
    }
    Ok(parts)
}
