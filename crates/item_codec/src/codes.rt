//! The item at the beginning of bytes, or its fault.

ghost use Rattle.std.specs.Prelude.{◌≡◌, ◌<◌, ◌∷◌, [], ◌++◌, length, Some, IsTrue, MatchResult};
ghost use Rattle.kmn_base.specs.declared.units.TheConstants.{SENTINEL};
ghost use Rattle.kmn_base.specs.Spelling.{spelling, IsOperand, IsSpellable, unit_bytes, is_high_surrogate, operand_count, operand_fault, end_fault, operands_fault, without_code, code_fault, sentinel_fault, pair_fault, unit_fault, fault_at};
ghost use Rattle.item_codec.specs.Walk.{StandsFirst};

use crate::item_codes::{self, EQUAL, UNEQUAL};
use crate::units::{KEY_END, first_two_units, first_unit};
use kmn_base::{BadKind, SENTINEL, UnitItem};

/// Why bytes do not begin with an item, with the unlisted code of `U2`, else 0.
#[derive(Clone, Copy)]
pub(crate) struct BadItem {
    pub(crate) kind: BadKind,
    pub(crate) code: u16,
}

impl BadItem {
    /// Creates a bad item without a code.
    fn of(kind: BadKind) -> BadItem
        ensures kind { result.kind ≡ kind }
        ensures code { result.code ≡ 0 }
    {
        BadItem { kind, code: 0 }
    }
}

/// Returns the item at the beginning of the bytes and the bytes after it, or why they do not begin with an item.
#[tactic(auto, using(crate::proofs::Operands::fault_at_unit))]
pub(crate) fn first_item(bytes: &[u8]) -> Result<(UnitItem, &[u8]), BadItem>
    requires { 0 < length bytes.now }
    ensures { MatchResult result
        (λ first. StandsFirst bytes.now first.0 first.1.now)
        (λ bad. fault_at bytes.now ≡ Some (bad.kind, bad.code)) }
{
    match first_unit(bytes) {
        Some((unit, behind)) => behind_unit(unit, behind),
        None => Err(BadItem::of(BadKind::U6)),
    }
}

/// Returns the item that begins with a unit, and the bytes after it.
fn behind_unit(unit: u16, bytes: &[u8]) -> Result<(UnitItem, &[u8]), BadItem>
    ensures { MatchResult result
        (λ first. StandsFirst (unit_bytes (unit ∷ []) ++ bytes.now) first.0 first.1.now)
        (λ bad. unit_fault unit bytes.now ≡ Some (bad.kind, bad.code)) }
{
    match unit {
        SENTINEL => behind_sentinel(bytes),
        0 => Err(BadItem::of(BadKind::U3)),
        0xD800..0xDC00 => behind_high(unit, bytes),
        _ => match char::from_u32(u32::from(unit)) {
            Some(c) => Ok((UnitItem::Char(c), bytes)),
            None => Err(BadItem::of(BadKind::U1)),
        },
    }
}

/// Returns the item whose code is at the beginning of the bytes, and the bytes after it.
#[tactic(auto, using(crate::proofs::Operands::sentinel_fault_unit))]
fn behind_sentinel(bytes: &[u8]) -> Result<(UnitItem, &[u8]), BadItem>
    ensures { MatchResult result
        (λ first. StandsFirst (unit_bytes (SENTINEL ∷ []) ++ bytes.now) first.0 first.1.now)
        (λ bad. sentinel_fault bytes.now ≡ Some (bad.kind, bad.code)) }
{
    let Some((code, behind)) = first_unit(bytes) else {
        return Err(end_fault(bytes));
    };
    behind_code(code, behind)
}

/// Returns the fault of bytes that end inside an item: after whole units, or after the first byte of a unit.
fn end_fault(bytes: &[u8]) -> BadItem
    ensures kind { result.kind ≡ end_fault bytes.now }
    ensures code { result.code ≡ 0 }
{
    BadItem::of(if bytes.len().is_multiple_of(2) {
        BadKind::U3
    } else {
        BadKind::U6
    })
}

/// Returns the item of a code with the operands at the beginning of the bytes, and the bytes after it.
fn behind_code(code: u16, bytes: &[u8]) -> Result<(UnitItem, &[u8]), BadItem>
    ensures { MatchResult result
        (λ first. StandsFirst (unit_bytes (SENTINEL ∷ code ∷ []) ++ bytes.now) first.0 first.1.now)
        (λ bad. code_fault code bytes.now (operand_count code) ≡ Some (bad.kind, bad.code)) }
{
    match operand_count(code) {
        None => Err(BadItem {
            kind: BadKind::U2,
            code,
        }),
        Some(0) => Ok((bare_item(code), bytes)),
        Some(1) => behind_code_of_one(code, bytes),
        Some(2) => behind_code_of_two(code, bytes),
        Some(_) => behind_code_of_three(code, bytes),
    }
}

/// Returns the number of operands of a code's item, and None for a code that no item has.
fn operand_count(code: u16) -> Option<usize>
    ensures { result ≡ operand_count code }
{
    match code {
        item_codes::CONTEXT | item_codes::NUL | item_codes::STOP | item_codes::BEEP => Some(0),
        item_codes::ANY
        | item_codes::ENTER
        | item_codes::DEAD
        | item_codes::CONTEXT_AT
        | item_codes::NOT_ANY
        | item_codes::SAVE
        | item_codes::RESET => Some(1),
        item_codes::INDEX | item_codes::SET | item_codes::SET_SYSTEM => Some(2),
        item_codes::KEY | item_codes::TEST | item_codes::SYSTEM_TEST => Some(3),
        _ => None,
    }
}

/// Returns the item of a code without operands.
fn bare_item(code: u16) -> UnitItem
    requires { operand_count code ≡ Some 0 }
    ensures spellable { IsSpellable result }
    ensures spelled { spelling result ≡ SENTINEL ∷ code ∷ [] }
{
    match code {
        item_codes::CONTEXT => UnitItem::Context,
        item_codes::NUL => UnitItem::Nul,
        item_codes::STOP => UnitItem::Stop,
        item_codes::BEEP => UnitItem::Beep,
        _ => unreachable!(),
    }
}

/// Returns the item of a code with the operand at the beginning of the bytes, and the bytes after it.
#[tactic(auto, using(crate::proofs::Operands::operands_stand, crate::proofs::Operands::operands_end))]
fn behind_code_of_one(code: u16, bytes: &[u8]) -> Result<(UnitItem, &[u8]), BadItem>
    requires { operand_count code ≡ Some 1 }
    ensures { MatchResult result
        (λ first. StandsFirst (unit_bytes (SENTINEL ∷ code ∷ []) ++ bytes.now) first.0 first.1.now)
        (λ bad. without_code (operands_fault code 1 bytes.now) ≡ Some (bad.kind, bad.code)) }
{
    let Some((operand, behind)) = first_unit(bytes) else {
        return Err(end_fault(bytes));
    };
    if operand == 0 {
        return Err(BadItem::of(BadKind::U3));
    }
    Ok((item_of_one(code, operand), behind))
}

/// Returns the item of a code with one operand.
fn item_of_one(code: u16, operand: u16) -> UnitItem
    requires count { operand_count code ≡ Some 1 }
    requires operand { IsOperand operand }
    ensures spellable { IsSpellable result }
    ensures spelled { spelling result ≡ SENTINEL ∷ code ∷ operand ∷ [] }
{
    match code {
        item_codes::ANY => UnitItem::Any(operand),
        item_codes::ENTER => UnitItem::Enter(operand),
        item_codes::DEAD => UnitItem::Dead(operand),
        item_codes::CONTEXT_AT => UnitItem::ContextAt(operand),
        item_codes::NOT_ANY => UnitItem::NotAny(operand),
        item_codes::SAVE => UnitItem::Save(operand),
        item_codes::RESET => UnitItem::Reset(operand),
        _ => unreachable!(),
    }
}

/// Returns the item of a code with the two operands at the beginning of the bytes, and the bytes after it.
#[tactic(auto, using(crate::proofs::Operands::operands_stand, crate::proofs::Operands::operands_end))]
fn behind_code_of_two(code: u16, bytes: &[u8]) -> Result<(UnitItem, &[u8]), BadItem>
    requires { operand_count code ≡ Some 2 }
    ensures { MatchResult result
        (λ first. StandsFirst (unit_bytes (SENTINEL ∷ code ∷ []) ++ bytes.now) first.0 first.1.now)
        (λ bad. without_code (operands_fault code 2 bytes.now) ≡ Some (bad.kind, bad.code)) }
{
    let Some(((first, second), behind)) = first_two_units(bytes) else {
        return Err(end_fault(bytes));
    };
    if first == 0 || second == 0 {
        return Err(BadItem::of(BadKind::U3));
    }
    Ok((item_of_two(code, first, second), behind))
}

/// Returns the item of a code with two operands.
fn item_of_two(code: u16, first: u16, second: u16) -> UnitItem
    requires count { operand_count code ≡ Some 2 }
    requires first { IsOperand first }
    requires second { IsOperand second }
    ensures spellable { IsSpellable result }
    ensures spelled { spelling result ≡ SENTINEL ∷ code ∷ first ∷ second ∷ [] }
{
    match code {
        item_codes::INDEX => UnitItem::Index(first, second),
        item_codes::SET => UnitItem::Set(first, second),
        item_codes::SET_SYSTEM => UnitItem::SetSystem(first, second),
        _ => unreachable!(),
    }
}

/// Returns the item of a code with the three operands at the beginning of the bytes, and the bytes after it.
#[tactic(auto, using(crate::proofs::Operands::operands_stand, crate::proofs::Operands::operands_end))]
fn behind_code_of_three(code: u16, bytes: &[u8]) -> Result<(UnitItem, &[u8]), BadItem>
    requires { operand_count code ≡ Some 3 }
    ensures { MatchResult result
        (λ first. StandsFirst (unit_bytes (SENTINEL ∷ code ∷ []) ++ bytes.now) first.0 first.1.now)
        (λ bad. without_code (operands_fault code 3 bytes.now) ≡ Some (bad.kind, bad.code)) }
{
    let Some((first, behind)) = first_unit(bytes) else {
        return Err(end_fault(bytes));
    };
    let Some(((second, third), behind)) = first_two_units(behind) else {
        return Err(end_fault(bytes));
    };
    if first == 0 || second == 0 || third == 0 {
        return Err(BadItem::of(BadKind::U3));
    }
    Ok((item_of_three(code, first, second, third)?, behind))
}

/// Returns the item of a code with three operands. The last operand of a key and the operand of a comparison have a required form.
fn item_of_three(code: u16, first: u16, second: u16, third: u16) -> Result<UnitItem, BadItem>
    requires count { operand_count code ≡ Some 3 }
    requires first { IsOperand first }
    requires second { IsOperand second }
    requires third { IsOperand third }
    ensures { MatchResult result
        (λ item. IsSpellable item × (spelling item ≡ SENTINEL ∷ code ∷ first ∷ second ∷ third ∷ []))
        (λ bad. without_code (operand_fault code (first ∷ second ∷ third ∷ [])) ≡ Some (bad.kind, bad.code)) }
{
    match code {
        item_codes::KEY if third == KEY_END => Ok(UnitItem::Key(first, second)),
        item_codes::KEY => Err(BadItem::of(BadKind::U4)),
        item_codes::TEST if second == UNEQUAL || second == EQUAL => Ok(UnitItem::Test(
            first, second, third,
        )),
        item_codes::TEST => Err(BadItem::of(BadKind::U5)),
        item_codes::SYSTEM_TEST if second == UNEQUAL || second == EQUAL => Ok(UnitItem::SystemTest(
            first, second, third,
        )),
        item_codes::SYSTEM_TEST => Err(BadItem::of(BadKind::U5)),
        _ => unreachable!(),
    }
}

/// Returns the character of the surrogate pair that begins with a high surrogate, and the bytes after it.
fn behind_high(high: u16, bytes: &[u8]) -> Result<(UnitItem, &[u8]), BadItem>
    requires { IsTrue (is_high_surrogate high) }
    ensures { MatchResult result
        (λ first. StandsFirst (unit_bytes (high ∷ []) ++ bytes.now) first.0 first.1.now)
        (λ bad. pair_fault bytes.now ≡ Some (bad.kind, bad.code)) }
{
    let Some((low, behind)) = first_unit(bytes) else {
        return Err(BadItem::of(if bytes.is_empty() {
            BadKind::U1
        } else {
            BadKind::U6
        }));
    };
    if !(0xDC00..0xE000).contains(&low) {
        return Err(BadItem::of(BadKind::U1));
    }
    let c = 0x1_0000 + (u32::from(high) - 0xD800) * 0x400 + (u32::from(low) - 0xDC00);
    match char::from_u32(c) {
        Some(c) => Ok((UnitItem::Char(c), behind)),
        None => unreachable!(),
    }
}
