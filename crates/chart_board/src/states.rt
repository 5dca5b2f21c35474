//! The shift states that a chart shows.

ghost use Rattle.std.specs.Prelude.{◌≡◌, ◌≤◌, ◌++◌, length, filter, find, IfOk};
ghost use Rattle.std.specs.List.{list_any};
ghost use Rattle.chart_board.specs.States.{fixed_states, other_states, press_in, fits_in, is_first_state, is_without_caps, asks_for, rule_asks_for, group_asks_for, is_asked_for, chart_states};

use kmn_base::keys::{CAPS, NO_CAPS};
use kmn_base::{KeyPress, Memory, RuleKey, Seq};
use rule_model::{Group, Rule, Tables};
use std::alloc::Global;
use virtual_keys::{fits, has};

/// The states that each chart shows.
static FIXED: [u16; 4] = [0, 16, 8, 24];

/// All other states that a press can have.
static OTHERS: [u16; 60] = [
    256, 272, 264, 280, 1, 17, 9, 25, 2, 18, 10, 26, 4, 20, 12, 28, 3, 19, 11, 27, 5, 21, 13, 29,
    6, 22, 14, 30, 7, 23, 15, 31, 257, 273, 265, 281, 258, 274, 266, 282, 260, 276, 268, 284, 259,
    275, 267, 283, 261, 277, 269, 285, 262, 278, 270, 286, 263, 279, 271, 287,
];

/// Returns the press of a key in a state. A state has the flags of `KeyPress::mods`.
pub fn press_in(mods: u16, code: u16) -> KeyPress
    ensures { result ≡ press_in mods code }
{
    KeyPress { code, mods }
}

/// Returns the states that a chart of some tables shows: plain, SHIFT, RALT and both, and of the others those that a record asks for.
#[tactic(auto, using(crate::proofs::FirstStates::few_states), unfolding(crate::specs::States::chart_states))]
pub fn chart_states(alloc: Global, tables: &Tables) -> Result<Seq<u16>, Memory>
    ensures states { IfOk result (λ states. states ≡ chart_states tables.now) }
    ensures few { length (chart_states tables.now) ≤ 64 }
{
    let mut states = Seq::from_slice(alloc, fixed_states())?;
    put_asked_for(&mut states, tables, other_states())?;
    Ok(states)
}

/// Returns the states that each chart shows.
#[tactic(auto, unfolding(crate::specs::States::fixed_states))]
fn fixed_states() -> &'static [u16]
    ensures { result.now ≡ fixed_states }
{
    &FIXED
}

/// Appends those of some states that a record of the tables asks for.
fn put_asked_for(states: &mut Seq<u16>, tables: &Tables, others: &[u16]) -> Result<(), Memory>
    ensures { IfOk result (λ _. states.new ≡ states.old ++ filter (is_asked_for tables.now) others.now) }
{
    for mods in others {
        if is_asked_for(tables, *mods) {
            states.add(*mods)?;
        }
    }
    Ok(())
}

/// Returns whether a record of the tables asks for a state.
fn is_asked_for(tables: &Tables, mods: u16) -> bool
    ensures { result ≡ is_asked_for tables.now mods }
{
    for group in tables.groups.as_slice() {
        if group_asks_for(mods, group) {
            return true;
        }
    }
    false
}

/// Returns whether a record of a group asks for a state.
fn group_asks_for(mods: u16, group: &Group) -> bool
    ensures { result ≡ group_asks_for mods group.now }
{
    group.using_keys && rules_ask_for(mods, group.rules.as_slice())
}

/// Returns whether a record asks for a state.
fn rules_ask_for(mods: u16, rules: &[Rule]) -> bool
    ensures { result ≡ list_any (rule_asks_for mods) rules.now }
{
    for rule in rules {
        if asks_for(mods, rule.key) {
            return true;
        }
    }
    false
}

/// Returns whether a key asks for a state.
fn asks_for(mods: u16, key: RuleKey) -> bool
    ensures { result ≡ asks_for mods key }
{
    is_first_state(key, mods)
        || (is_without_caps(key) && has(u32::from(mods), CAPS) && is_first_state(key, mods & 255))
}

/// Returns whether a state is the first in which a key fits. Most keys don't fit it at all.
#[tactic(auto, using(crate::proofs::FirstStates::first_of_first, crate::proofs::FirstStates::first_of_second, crate::proofs::FirstStates::first_fits))]
fn is_first_state(key: RuleKey, mods: u16) -> bool
    ensures { result ≡ is_first_state key mods }
{
    if !fits_in(key, mods) {
        return false;
    }
    let first = match first_state(key, fixed_states()) {
        Some(first) => Some(first),
        None => first_state(key, other_states()),
    };
    first == Some(mods)
}

/// Returns whether a virtual key fits the press of its code in a state.
fn fits_in(key: RuleKey, mods: u16) -> bool
    ensures { result ≡ fits_in key mods }
{
    match key {
        RuleKey::Virtual { code, .. } => fits(key, press_in(mods, code)),
        RuleKey::Any | RuleKey::Char(_) => false,
    }
}

/// Returns the first of some states in which a key fits.
fn first_state(key: RuleKey, states: &[u16]) -> Option<u16>
    ensures { result ≡ find (fits_in key) states.now }
{
    for mods in states {
        if fits_in(key, *mods) {
            return Some(*mods);
        }
    }
    None
}

/// Returns the other states.
#[tactic(auto, unfolding(crate::specs::States::other_states))]
fn other_states() -> &'static [u16]
    ensures { result.now ≡ other_states }
{
    &OTHERS
}

/// Returns whether a key requires that caps lock is off.
fn is_without_caps(key: RuleKey) -> bool
    ensures { result ≡ is_without_caps key }
{
    match key {
        RuleKey::Virtual { flags, .. } => has(flags, NO_CAPS),
        RuleKey::Any | RuleKey::Char(_) => false,
    }
}
