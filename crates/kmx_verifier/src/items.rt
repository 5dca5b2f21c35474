//! Checks one item of a string.

ghost use Rattle.std.specs.Prelude.{◌≡◌};
ghost use Rattle.item_codec.specs.Walk.{spelled_size};
ghost use Rattle.kmx_verifier.specs.Items.{is_permitted, is_allowed_in_store, is_allowed_in_context, is_allowed_in_output, is_allowed_in_match, code_of, target_of, target_at, points_right, HasSmallOffset};
ghost use Rattle.kmx_verifier.specs.FaultOf.{names_outside, item_fault, spelling_fault, Tells};

use crate::faults::{Fault, StringKind, Target};
use item_codec::{item_codes, unit_count};
use kmn_base::{BadKind, Code, UnitItem};
use kmx_format::places::{GROUP_COUNT_AT, STORE_COUNT_AT};
use kmx_view::word_at;
use rule_model::system;

/// The platform as an operand of an item. Operands count from 1.
const PLATFORM: u16 = system::PLATFORM as u16 + 1;

/// The layer as an operand of an item, also counted from 1.
const LAYER: u16 = system::LAYER as u16 + 1;

/// Returns the number of bytes of an item.
pub(crate) fn spelled_size(item: UnitItem) -> u32
    ensures { result ≡ spelled_size item }
{
    2 * unit_count(item)
}

/// Returns what an offset finds at an item of a context.
pub(crate) fn target_of(item: UnitItem) -> Target
    ensures { result ≡ target_of item }
{
    match item {
        UnitItem::Any(_) => Target::Any,
        UnitItem::Test(_, _, _) | UnitItem::SystemTest(_, _, _) | UnitItem::Nul => Target::Nothing,
        _ => Target::Pattern,
    }
}

/// Checks an item at a place.
pub(crate) fn check_item(
    bytes: &[u8],
    kind: StringKind,
    targets: &[Target],
    item: UnitItem,
    at: u32,
) -> Result<(), Fault>
    ensures { Tells (item_fault bytes.now kind targets.now item at) result }
{
    if !is_permitted(kind, item) {
        return Err(Fault {
            code: Code::V14,
            at,
            unit: code_of(item),
        });
    }
    if names_outside(bytes, item) {
        return Err(Fault::of(Code::V12, at));
    }
    if !points_right(targets, item) {
        return Err(Fault::of(Code::V13, at));
    }
    Ok(())
}

/// Returns whether an item is allowed in a string of a kind.
fn is_permitted(kind: StringKind, item: UnitItem) -> bool
    ensures { result ≡ is_permitted kind item }
{
    match kind {
        StringKind::Store => is_allowed_in_store(item),
        StringKind::Context => is_allowed_in_context(item),
        StringKind::Output => is_allowed_in_output(item),
        StringKind::Match => is_allowed_in_match(item),
    }
}

fn is_allowed_in_store(item: UnitItem) -> bool
    ensures { result ≡ is_allowed_in_store item }
{
    matches!(
        item,
        UnitItem::Char(_) | UnitItem::Dead(_) | UnitItem::Key(_, _)
    )
}

fn is_allowed_in_context(item: UnitItem) -> bool
    ensures { result ≡ is_allowed_in_context item }
{
    match item {
        UnitItem::Char(_)
        | UnitItem::Dead(_)
        | UnitItem::Any(_)
        | UnitItem::NotAny(_)
        | UnitItem::Index(_, _)
        | UnitItem::ContextAt(_)
        | UnitItem::Test(_, _, _)
        | UnitItem::Nul => true,
        UnitItem::SystemTest(system, _, _) => system == PLATFORM || system == LAYER,
        _ => false,
    }
}

fn is_allowed_in_output(item: UnitItem) -> bool
    ensures { result ≡ is_allowed_in_output item }
{
    match item {
        UnitItem::Index(_, _) | UnitItem::Context | UnitItem::ContextAt(_) => true,
        _ => is_allowed_in_match(item),
    }
}

fn is_allowed_in_match(item: UnitItem) -> bool
    ensures { result ≡ is_allowed_in_match item }
{
    match item {
        UnitItem::Char(_)
        | UnitItem::Dead(_)
        | UnitItem::Enter(_)
        | UnitItem::Set(_, _)
        | UnitItem::Save(_)
        | UnitItem::Reset(_)
        | UnitItem::Nul
        | UnitItem::Beep
        | UnitItem::Stop => true,
        UnitItem::SetSystem(system, _) => system == LAYER,
        _ => false,
    }
}

/// Returns the code after an item's sentinel, or 0 for a character.
fn code_of(item: UnitItem) -> u16
    ensures { result ≡ code_of item }
{
    match item {
        UnitItem::Char(_) => 0,
        UnitItem::Any(_) => item_codes::ANY,
        UnitItem::Index(_, _) => item_codes::INDEX,
        UnitItem::Context => item_codes::CONTEXT,
        UnitItem::Nul => item_codes::NUL,
        UnitItem::Enter(_) => item_codes::ENTER,
        UnitItem::Stop => item_codes::STOP,
        UnitItem::Beep => item_codes::BEEP,
        UnitItem::Dead(_) => item_codes::DEAD,
        UnitItem::Key(_, _) => item_codes::KEY,
        UnitItem::ContextAt(_) => item_codes::CONTEXT_AT,
        UnitItem::NotAny(_) => item_codes::NOT_ANY,
        UnitItem::Set(_, _) => item_codes::SET,
        UnitItem::Test(_, _, _) => item_codes::TEST,
        UnitItem::Save(_) => item_codes::SAVE,
        UnitItem::Reset(_) => item_codes::RESET,
        UnitItem::SystemTest(_, _, _) => item_codes::SYSTEM_TEST,
        UnitItem::SetSystem(_, _) => item_codes::SET_SYSTEM,
    }
}

/// Returns whether an item names a store or group that the file doesn't have.
fn names_outside(bytes: &[u8], item: UnitItem) -> bool
    ensures { result ≡ names_outside bytes.now item }
{
    match item {
        UnitItem::Any(store)
        | UnitItem::NotAny(store)
        | UnitItem::Index(store, _)
        | UnitItem::Save(store)
        | UnitItem::SystemTest(_, _, store)
        | UnitItem::SetSystem(_, store)
        | UnitItem::Reset(store) => word_at(bytes, STORE_COUNT_AT) < u32::from(store),
        UnitItem::Set(store, value) | UnitItem::Test(store, _, value) => {
            let stores = word_at(bytes, STORE_COUNT_AT);
            stores < u32::from(store) || stores < u32::from(value)
        }
        UnitItem::Enter(group) => word_at(bytes, GROUP_COUNT_AT) < u32::from(group),
        _ => false,
    }
}

/// Returns whether the offset of an item points at an allowed target.
fn points_right(targets: &[Target], item: UnitItem) -> bool
    ensures { result ≡ points_right targets.now item }
{
    match item {
        UnitItem::Index(_, offset) => matches!(target_at(targets, offset), Some(Target::Any)),
        UnitItem::ContextAt(offset) => {
            matches!(
                target_at(targets, offset),
                Some(Target::Any | Target::Pattern)
            )
        }
        _ => true,
    }
}

/// Returns what an offset, counted from 1, finds.
fn target_at(targets: &[Target], offset: u16) -> Option<Target>
    ensures { result ≡ target_at targets.now offset }
{
    if offset == 0 {
        return None;
    }
    targets.get(offset as usize - 1).copied()
}

/// Returns the fault of a place at which no item is spelled.
pub(crate) fn spelling_fault(at: u32, kind: BadKind, code: u16) -> Fault
    ensures { result ≡ spelling_fault at kind code }
{
    match kind {
        BadKind::U2 => Fault {
            code: Code::V14,
            at,
            unit: code,
        },
        _ => Fault::of(Code::V11, at),
    }
}

/// An item's offset is a unit.
pub(crate) fn offset_is_unit(item: UnitItem)
    ensures { HasSmallOffset item }
{
    match item {
        UnitItem::Index(_, offset) => {
            let _offset = offset;
        }
        UnitItem::ContextAt(offset) => {
            let _offset = offset;
        }
        _ => {}
    }
}
