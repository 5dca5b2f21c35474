//! Selects a record: tests the candidates of the index in file order, and returns the first one that holds.
//!
//! The candidates contain each record that holds (`rule_index::laws`), so the result is the first such record of the group. The
//! test of a record compares its context with the last items before the caret, item by item, and ends at the first one that
//! does not match. For each item it notes only the distance from the caret and the store of an `any` (`TakenItem`). That
//! determines what the record catches, since neither the text nor the stores change during a choice. Positions in stores are
//! looked up for an `index`, and for the record that holds.
//!
//! Whether a store of the file contains an item is one bit, and each looked-up position is remembered, so a choice takes about
//! one step for each context item that it compares: at most 60 for each candidate.

ghost use Rattle.std.specs.Prelude.{◌≡◌, ◌≤◌, ◌<◌, ◌-◌, [], IfSome, Some, None, drop, false, find, length, map, nat_eq, option_and_then, option_map, slice_get, true, if◌then◌else◌};
ghost use Rattle.std.specs.List.{Contains};
ghost use Rattle.kmn_base.specs.declared.limits.TheConstants.{CONTEXT_ITEMS};
ghost use Rattle.rule_model.specs.Match.{takes_item};
ghost use Rattle.rule_model.specs.Hold.{holds, is_true};
ghost use Rattle.rule_model.specs.Choose.{first};
ghost use Rattle.rule_model.specs.Tab.{tab_pattern, tab_rule};
ghost use Rattle.kmx_parts.specs.ContextItems.{pattern_of};
ghost use Rattle.rule_index.specs.Groups.{IsRuleIndexOf};
ghost use Rattle.rule_matching.specs.Choices.{all_caught, caught_in, content_of, meaning_in, record_in, RemembersFor};
ghost use Rattle.rule_matching.specs.Matching.{allowed_catches, catch_of, compares_store, is_allowed, item_before, item_meaning, looks_at_store, RemembersRight};
ghost use Rattle.rule_matching.specs.MatchState.{content_at, held_record, is_held, AreShort};
ghost use Rattle.rule_matching.specs.PlaceMemory.{rooms};

use crate::caught::MatchedItems;
use crate::choice::Choice;
use crate::entered_group::EnteredGroup;
use crate::match_state::MatchState;
use crate::place_memory::PlaceMemory;
use crate::places::{catch_taken, is_in_store, item_before, place_taken};
use crate::taken::{TakenItem, item_taken};
use arrayvec::ArrayVec;
use kmn_base::limits::CONTEXT_ITEMS;
use kmn_base::{Element, Item, RuleKey};
use kmx_parts::{ContextItem, FileRule};
use rule_index::matching_classes;
use rule_model::{is_element, is_item, is_same};
use virtual_keys::Pressed;

/// Returns the first record of an entered group that holds, or `None`. Tests only the records that the index returns for the
/// key press and the last item: no other record can hold. Writes what the record catches to `caught`, which is unchanged if no
/// record holds. A position that was looked up is remembered during the choice. What was known about positions before is forgotten
/// first, so the content of `places` does not matter to the caller. Its capacity is unchanged.
pub fn first_held<'g>(
    moment: &MatchState<'_>,
    entered: &EnteredGroup<'_, 'g>,
    left: &[Item],
    places: &mut PlaceMemory,
    caught: &mut MatchedItems,
) -> Option<FileRule<'g>>
    requires short { AreShort entered.now.group.now.rules }
    requires index { IsRuleIndexOf entered.now.group.now entered.now.records.now }
    ensures held { option_map (λ rule. (tab_rule moment.now.tables.stores entered.now.group.now.using_keys rule, caught.new)) result ≡ first
        (holds (content_at moment.now) left.now entered.now.press) (map (tab_rule moment.now.tables.stores entered.now.group.now.using_keys) entered.now.group.now.rules) }
    ensures first { result ≡ find (is_held moment.now entered.now.group.now left.now entered.now.press) entered.now.group.now.rules }
    ensures none { result ≡ None → caught.new ≡ caught.old }
    ensures among { IfSome result (λ rule. Contains entered.now.group.now.rules rule) }
    ensures right { RemembersRight moment.now left.now places.new }
    ensures rooms { rooms places.new ≡ rooms places.old }
{
    places.forget();
    let choice = Choice {
        moment,
        pressed: Pressed::of(entered.press),
        left,
    };
    let mut taken = ArrayVec::new();
    let wanted = matching_classes(entered.press, left);
    let mut candidates = entered.records.candidates(&wanted);
    while let Some(number) = candidates.next() {
        if let Some(rule) = held_record(&choice, entered, number, places, &mut taken) {
            catch_taken(&choice, taken.as_slice(), places, caught);
            return Some(rule);
        }
    }
    None
}

/// Returns the record with a number, if there is one and it holds. Then `taken` is what the items of its context take. Most
/// candidates fail by their context, so the key of the record is read from the file afterwards.
fn held_record<'g>(
    choice: &Choice<'_>,
    entered: &EnteredGroup<'_, 'g>,
    number: u32,
    places: &mut PlaceMemory,
    taken: &mut ArrayVec<TakenItem, CONTEXT_ITEMS>,
) -> Option<FileRule<'g>>
    requires short { AreShort entered.now.group.now.rules }
    requires index { IsRuleIndexOf entered.now.group.now entered.now.records.now }
    requires right { RemembersFor choice.now places.old }
    ensures held { option_map (λ rule. (record_in choice.now entered.now.group.now rule, all_caught choice.now taken.new.items)) result
        ≡ held_record (content_of choice.now) choice.now.left.now choice.now.pressed (option_map (record_in choice.now entered.now.group.now) (slice_get entered.now.group.now.rules number)) }
    ensures there { IfSome result (λ rule. slice_get entered.now.group.now.rules number ≡ Some rule) }
    ensures among { IfSome result (λ rule. Contains entered.now.group.now.rules rule) }
    ensures right { RemembersFor choice.now places.new }
    ensures rooms { rooms places.new ≡ rooms places.old }
{
    let count = entered.records.pattern_count(number);
    if choice.left.len() < count {
        return None;
    }
    if !takes_context(
        choice,
        entered.records.context(number),
        count,
        places,
        taken,
    ) {
        return None;
    }
    let group = entered.group;
    let rule = group.rule(number)?;
    if choice.pressed.fits(key_of(group.using_keys(), &rule)) {
        Some(rule)
    } else {
        None
    }
}

/// Returns whether a context matches the last `count` items of a list: each pattern takes one of them, and each condition and
/// each `nul` is satisfied. If so, `taken` is what the items of the context take.
#[inline(never)]
fn takes_context(
    choice: &Choice<'_>,
    context: &[ContextItem],
    count: usize,
    places: &mut PlaceMemory,
    taken: &mut ArrayVec<TakenItem, CONTEXT_ITEMS>,
) -> bool
    requires few { length context.now ≤ CONTEXT_ITEMS }
    requires within { count ≤ length choice.now.left.now }
    requires right { RemembersFor choice.now places.old }
    ensures taken { (if result then Some (map (caught_in choice.now) taken.new.items) else None) ≡ allowed_catches
        (content_of choice.now) (nat_eq (length choice.now.left.now) count) [] (map (meaning_in choice.now) context.now)
        (drop (length choice.now.left.now - count) choice.now.left.now) }
    ensures right { RemembersFor choice.now places.new }
    ensures rooms { rooms places.new ≡ rooms places.old }
{
    taken.clear();
    let mut ahead = count;
    for item in context {
        if !item.takes_item() {
            if !stands(choice.moment, *item, choice.left.len() == count) {
                return false;
            }
            taken.push(TakenItem {
                distance: choice.left.len(),
                store: None,
            });
            continue;
        }
        if ahead == 0 {
            return false;
        }
        ahead -= 1;
        match taken_by(choice, ahead, taken.as_slice(), *item, places) {
            Some(one) => taken.push(one),
            None => return false,
        }
    }
    ahead == 0
}

/// Returns whether a condition or `nul` of a context is satisfied. A `nul` is satisfied if the list has no more items than the
/// context takes.
fn stands(moment: &MatchState<'_>, item: ContextItem, is_whole: bool) -> bool
    ensures { result ≡ is_allowed (content_at moment.now) is_whole (item_meaning moment.now.tables.stores item) }
{
    match item {
        ContextItem::Equal(store, value) => moment.is_same(u32::from(store), u32::from(value)),
        ContextItem::Unequal(store, value) => !moment.is_same(u32::from(store), u32::from(value)),
        ContextItem::Nul => is_whole,
        _ => stands_in_system(moment, item),
    }
}

/// Returns whether a condition on a system option is true. The function is not inlined, so that `stands` keeps few arms.
#[inline(never)]
fn stands_in_system(moment: &MatchState<'_>, item: ContextItem) -> bool
    requires { compares_store item ≡ false }
    ensures { result ≡ is_true (content_at moment.now) (item_meaning moment.now.tables.stores item) }
{
    match item {
        ContextItem::SystemEqual(id, value) => {
            moment.is_system_equal(u32::from(id), u32::from(value))
        }
        ContextItem::SystemUnequal(id, value) => {
            !moment.is_system_equal(u32::from(id), u32::from(value))
        }
        _ => true,
    }
}

/// Returns what a pattern takes at a distance from the caret, after the items taken so far, or `None` if the item does not
/// match.
#[inline(always)]
#[tactic(auto, using(crate::proofs::TakenItems::any_is_taken, crate::proofs::TakenItems::not_any_is_taken))]
fn taken_by(
    choice: &Choice<'_>,
    distance: usize,
    taken: &[TakenItem],
    item: ContextItem,
    places: &mut PlaceMemory,
) -> Option<TakenItem>
    requires within { distance < length choice.now.left.now }
    requires takes { takes_item (tab_pattern [] (pattern_of item)) ≡ true }
    requires right { RemembersFor choice.now places.old }
    ensures taken { option_map (caught_in choice.now) result ≡ option_and_then
        (catch_of (content_of choice.now) (map (caught_in choice.now) taken.now) (meaning_in choice.now item)) (item_before choice.now.left.now distance) }
    ensures right { RemembersFor choice.now places.new }
    ensures rooms { rooms places.new ≡ rooms places.old }
{
    match item {
        ContextItem::Any(store) | ContextItem::NotAny(store) => {
            let store = u32::from(store);
            let is_there = is_in_store(choice, distance, store, places);
            if matches!(&item, ContextItem::Any(_)) {
                is_there.then_some(TakenItem {
                    distance,
                    store: Some(store),
                })
            } else {
                storeless(!is_there, distance)
            }
        }
        ContextItem::Index(store, offset) => {
            let place = place_taken(choice, taken, offset, places);
            let wanted = choice.moment.element_at(u32::from(store), place);
            storeless(
                is_element(item_before(choice.left, distance), wanted),
                distance,
            )
        }
        _ => taken_storeless(choice, distance, taken, item),
    }
}

/// Returns an item that is taken from no store, or `None` if the item does not match its pattern.
fn storeless(fits: bool, distance: usize) -> Option<TakenItem>
    ensures { result ≡ (if fits then Some (record { distance = distance; store = None }) else None) }
{
    fits.then_some(TakenItem {
        distance,
        store: None,
    })
}

/// Returns what a pattern that uses no store takes at a distance from the caret, after the items taken so far, or `None` if the
/// item does not match. The function is not inlined, and `any` and `notany` share one arm of the caller: with more arms the
/// pattern is selected by a jump table, which costs some processors as much as the rest of an item.
#[inline(never)]
fn taken_storeless(
    choice: &Choice<'_>,
    distance: usize,
    taken: &[TakenItem],
    item: ContextItem,
) -> Option<TakenItem>
    requires within { distance < length choice.now.left.now }
    requires takes { takes_item (tab_pattern [] (pattern_of item)) ≡ true }
    requires storeless { looks_at_store item ≡ false }
    ensures { option_map (caught_in choice.now) result ≡ option_and_then
        (catch_of (content_of choice.now) (map (caught_in choice.now) taken.now) (meaning_in choice.now item)) (item_before choice.now.left.now distance) }
{
    let next = item_before(choice.left, distance);
    let fits = match item {
        ContextItem::Char(c) => is_item(next, Element::Char(c)),
        ContextItem::Mark(m) => is_item(next, Element::Mark(m)),
        ContextItem::ContextAt(offset) => is_same(next, item_taken(choice.left, taken, offset)),
        _ => unreachable!(),
    };
    storeless(fits, distance)
}

/// Returns the key of a record. In a group without keys, each key press fits.
fn key_of(using_keys: bool, rule: &FileRule<'_>) -> RuleKey
    ensures { result ≡ (if using_keys then rule.now.key else RuleKey.Any) }
{
    if using_keys { rule.key() } else { RuleKey::Any }
}
