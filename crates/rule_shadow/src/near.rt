//! Earlier records that miss at most one position of a record, apart from the positions of `context` items. Only these can
//! cover the record once one position is narrowed, since that does not change the items of other positions, except those of
//! `context` items that refer to it. Filtering n records costs n comparisons.

ghost use Rattle.std.specs.Prelude.{◌≡◌, ◌+◌, ◌<◌, ◌^◌, ◌++◌, length, option_to_list, IfOk};
ghost use Rattle.rule_shadow.specs.Keys.{fitting_presses};
ghost use Rattle.rule_shadow.specs.Places.{patterns_of};
ghost use Rattle.rule_shadow.specs.Near.{hands_on, missed_from, miss_of, missed_last, miss_by, is_several, is_at_most, near_rules};

use crate::cert::Place;
use crate::covering::{covers_place, pattern_count};
use crate::flagged::FlaggedTables;
use crate::key_cover::fits_each;
use crate::subject::Subject;
use kmn_base::Memory;
use rule_model::{Pat, Rule};
use std::alloc::Global;
use virtual_keys::Pressed;

/// The positions of a record that another record does not cover, without the positions of `context` items.
#[derive(Clone, Copy)]
pub enum Miss {
    Nowhere,
    At(usize),
    Several,
}

/// The number of a record, and the position that it misses, if any.
#[derive(Clone, Copy, Drop)]
pub struct Near {
    /// From 0, in its group.
    pub rule: u32,
    pub miss: Miss,
}

/// Returns whether no position but this one is missed.
pub fn is_at_most(place: u32, miss: Miss) -> bool
    ensures { result ≡ is_at_most place miss }
{
    match miss {
        Miss::Nowhere => true,
        Miss::At(other) => other == place as usize,
        Miss::Several => false,
    }
}

/// Returns the records that miss at most one position.
pub fn near_rules(
    alloc: Global,
    subject: &Subject,
    presses: &[Pressed],
    places: &[Place],
    rules: &[Rule],
) -> Result<Vec<Near>, Memory>
    requires few { length rules.now < 2 ^ 32 }
    requires fitting { presses.now ≡ fitting_presses subject.now.rule.now.key }
    ensures { IfOk result (λ near. near.items ≡ near_rules (miss_by subject.now.tables.now subject.now.group.now.using_keys places.now subject.now.rule.now) 0 rules.now) }
{
    let mut near = Vec::new(alloc);
    for n in 0..rules.len() {
        let miss = miss_by(subject, presses, places, &rules[n]);
        if !is_several(miss) {
            near.push(Near {
                rule: n as u32,
                miss,
            })?;
        }
    }
    Ok(near)
}

/// Returns which positions of the subject record `q` does not cover, or `Several` if its key does not cover the subject's key.
#[tactic(auto, using(crate::proofs::Tried::fitting_tell))]
fn miss_by(subject: &Subject, presses: &[Pressed], places: &[Place], q: &Rule) -> Miss
    requires { presses.now ≡ fitting_presses subject.now.rule.now.key }
    ensures { result ≡ miss_by subject.now.tables.now subject.now.group.now.using_keys places.now subject.now.rule.now q.now }
{
    if !subject.group.using_keys || fits_each(q.key, presses) {
        missed_last(subject.tables, q.context.as_slice(), places)
    } else {
        Miss::Several
    }
}

/// Returns which of the last positions the patterns of a context don't cover.
fn missed_last(tables: &FlaggedTables, context: &[Pat], places: &[Place]) -> Miss
    ensures { result ≡ missed_last tables.now (patterns_of context.now) places.now }
{
    let count = pattern_count(context);
    if count > places.len() {
        return Miss::Several;
    }
    let from = places.len() - count;
    missed_from(tables, None, from, context, &places[from..])
}

/// Returns which positions are missed: `missed`, if any, and the positions, counted from `from`, that the patterns of a context
/// don't cover.
fn missed_from(
    tables: &FlaggedTables,
    missed: Option<usize>,
    from: usize,
    context: &[Pat],
    places: &[Place],
) -> Miss
    requires { from + length places.now < 2 ^ 63 }
    ensures { result ≡ miss_of (option_to_list missed ++ missed_from tables.now from (patterns_of context.now) places.now) }
{
    let [pattern, rest @ ..] = context else {
        return miss_of(missed);
    };
    if !pattern.is_matched() {
        return missed_from(tables, missed, from, rest, places);
    }
    let [place, behind @ ..] = places else {
        return miss_of(missed);
    };
    if hands_on(place.pattern) || covers_place(tables, *pattern, *place) {
        return missed_from(tables, missed, from + 1, rest, behind);
    }
    if missed.is_some() {
        return Miss::Several;
    }
    missed_from(tables, Some(from), from + 1, rest, behind)
}

/// Converts an optional missed position to a `Miss`.
fn miss_of(missed: Option<usize>) -> Miss
    ensures { result ≡ miss_of (option_to_list missed) }
{
    match missed {
        Some(place) => Miss::At(place),
        None => Miss::Nowhere,
    }
}

/// Returns whether a pattern has the range of another position: whether it is a `context` item.
fn hands_on(pattern: Pat) -> bool
    ensures { result ≡ hands_on pattern }
{
    matches!(&pattern, Pat::ContextAt(_))
}

/// Returns whether several positions are missed.
fn is_several(miss: Miss) -> bool
    ensures { result ≡ is_several miss }
{
    matches!(&miss, Miss::Several)
}
