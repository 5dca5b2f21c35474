//! Checks certificates. A valid certificate proves that its record is never selected.
//!
//! The check is a recursion over the certificate. A leaf is valid if an earlier record covers the subject, which then holds
//! whenever the subject does. A split distinguishes the items of the store of an `any`: whenever the subject holds, one of them
//! is at that position, so the split is valid if each item has a valid part with the position narrowed to the item. A narrowed
//! position can't be split again, so the recursion is not deeper than the context is long. Each leaf costs one comparison of
//! two records. The check does not rely on the search that found the certificate, and does not allocate.

ghost use Rattle.std.specs.Prelude.{◌≡◌, ◌≤◌, length, slice_get, filter_map, option_map};
ghost use Rattle.std.specs.Option.{option_flatten};
ghost use Rattle.kmn_base.specs.declared.limits.TheConstants.{CONTEXT_ITEMS};
ghost use Rattle.rule_model.specs.Match.{item_of};
ghost use Rattle.rule_shadow.specs.Places.{items_of, patterns_of};
ghost use Rattle.rule_shadow.specs.Covers.{items_at, narrowed, nothing_narrowed, covers_by, covers_under, covers_list};

use crate::cert::Cert;
use crate::covering::covers_rule;
use crate::place_list::places;
use crate::subject::Subject;
use kmn_base::limits::CONTEXT_ITEMS;
use kmn_base::{Element, Item};
use rule_model::{Pat, item_of};

/// Returns the store whose items a certificate may split by at a position: the store of an `any`, if the store is not an option
/// and the position is not narrowed.
pub fn split_store(subject: &Subject, narrowing: &[Option<Item>], place: u32) -> Option<u32>
    ensures { option_map (items_of subject.now.tables.now) result ≡ items_at subject.now.tables.now subject.now.rule.now narrowing.now place }
{
    if given_at(narrowing, place).is_some() {
        return None;
    }
    match pattern_at(subject.rule.context.as_slice(), place) {
        Some(Pat::Any(store)) => {
            if subject.tables.is_fixed(store) {
                Some(store)
            } else {
                None
            }
        }
        _ => None,
    }
}

/// Returns the item to which a narrowing restricts a position, if any.
fn given_at(narrowing: &[Option<Item>], place: u32) -> Option<Item>
    ensures { result ≡ option_flatten (slice_get narrowing.now place) }
{
    narrowing.get(place as usize).copied().flatten()
}

/// Returns the pattern at a position of a context. Positions count only patterns, from 0.
fn pattern_at(context: &[Pat], place: u32) -> Option<Pat>
    ensures { result ≡ slice_get (patterns_of context.now) place }
{
    let [pattern, rest @ ..] = context else {
        return None;
    };
    if !pattern.is_matched() {
        return pattern_at(rest, place);
    }
    if place == 0 {
        return Some(*pattern);
    }
    pattern_at(rest, place - 1)
}

/// Returns the narrowing that restricts no position.
pub fn nothing_narrowed() -> [Option<Item>; CONTEXT_ITEMS]
    ensures { result ≡ nothing_narrowed }
{
    [None; CONTEXT_ITEMS]
}

/// Returns a narrowing that also restricts a position to an item. A position past the longest context has no effect.
pub fn narrowed(
    narrowing: &[Option<Item>; CONTEXT_ITEMS],
    place: u32,
    item: Item,
) -> [Option<Item>; CONTEXT_ITEMS]
    ensures { result ≡ narrowed narrowing.now place item }
{
    let mut more = *narrowing;
    let place = place as usize;
    if place < CONTEXT_ITEMS {
        more[place] = Some(item);
    }
    more
}

/// Returns whether a certificate is valid for the subject under a narrowing.
#[cycle(certs)]
#[tactic(auto, using(crate::proofs::Rows::covers_row))]
pub fn covers_under(
    subject: &Subject,
    narrowing: &[Option<Item>; CONTEXT_ITEMS],
    cert: &Cert,
) -> bool
    requires { length subject.now.rule.now.context ≤ CONTEXT_ITEMS }
    ensures { result ≡ covers_under subject.now.tables.now subject.now.group.now subject.now.number subject.now.rule.now narrowing.now cert.now }
{
    match cert {
        Cert::By { rule } => covers_by(subject, narrowing, *rule),
        Cert::Split { place, parts } => match split_store(subject, narrowing, *place) {
            Some(store) => covers_parts(
                subject,
                narrowing,
                *place,
                subject.tables.elements(store),
                parts.as_slice(),
            ),
            None => false,
        },
    }
}

/// Returns whether record `by` is earlier than the subject and covers it under a narrowing.
fn covers_by(subject: &Subject, narrowing: &[Option<Item>], by: u32) -> bool
    requires { length subject.now.rule.now.context ≤ CONTEXT_ITEMS }
    ensures { result ≡ covers_by subject.now.tables.now subject.now.group.now subject.now.number subject.now.rule.now narrowing.now by }
{
    if by >= subject.number {
        return false;
    }
    match subject.group.rules.as_slice().get(by as usize) {
        Some(q) => {
            let places = places(subject.tables, narrowing, subject.rule.context.as_slice());
            covers_rule(
                subject.tables,
                subject.group.using_keys,
                places.as_slice(),
                q,
                subject.rule,
            )
        }
        None => false,
    }
}

/// Returns whether there is exactly one part for each item of a store, in order, and each part is valid with the position
/// narrowed to its item. Virtual keys in the store are not items.
#[cycle(certs)]
fn covers_parts(
    subject: &Subject,
    narrowing: &[Option<Item>; CONTEXT_ITEMS],
    place: u32,
    elements: &[Element],
    parts: &[Cert],
) -> bool
    requires { length subject.now.rule.now.context ≤ CONTEXT_ITEMS }
    ensures { result ≡ covers_list subject.now.tables.now subject.now.group.now subject.now.number subject.now.rule.now narrowing.now place (filter_map item_of elements.now) parts.now }
{
    let mut next = 0;
    for element in elements {
        if let Some(item) = item_of(*element) {
            if next >= parts.len() {
                return false;
            }
            let inner = narrowed(narrowing, place, item);
            if !covers_under(subject, &inner, &parts[next]) {
                return false;
            }
            next += 1;
        }
    }
    next == parts.len()
}
