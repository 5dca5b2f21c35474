//! Spells items and characters as units, and counts their units. Each item has exactly one spelling.

ghost use Rattle.std.specs.Prelude.{◌≡◌, ◌≤◌, ◌++◌, length, MatchResult};
ghost use Rattle.item_codec.specs.declared.units.TheConstants.{MOST_UNITS};
ghost use Rattle.kmn_base.specs.Spelling.{char_units, spelling, IsSpellable, unit_bytes};

use crate::item_codes;
use crate::units::{KEY_END, put_units};
use kmn_base::{Memory, SENTINEL, Seq, UnitItem};

/// Appends the units of a character. Errors: `Memory` if an allocation fails; the list is then unchanged.
pub fn put_char(out: &mut Seq<u8>, c: char) -> Result<(), Memory>
    ensures { MatchResult result (λ _. out.new ≡ out.old ++ unit_bytes (char_units c)) (λ _. out.new ≡ out.old) }
{
    let mut units = [0; 2];
    put_units(out, c.encode_utf16(&mut units))
}

/// Returns the number of units of a character.
pub fn char_unit_count(c: char) -> u32
    ensures units { result ≡ length (char_units c) }
    ensures few { result ≤ 2 }
{
    c.len_utf16() as u32
}

/// Returns the number of units of an item's spelling.
pub fn unit_count(item: UnitItem) -> u32
    ensures units { result ≡ length (spelling item) }
    ensures few { result ≤ MOST_UNITS }
{
    match item {
        UnitItem::Char(c) => char_unit_count(c),
        UnitItem::Context | UnitItem::Nul | UnitItem::Stop | UnitItem::Beep => 2,
        UnitItem::Any(_)
        | UnitItem::Enter(_)
        | UnitItem::Dead(_)
        | UnitItem::ContextAt(_)
        | UnitItem::NotAny(_)
        | UnitItem::Save(_)
        | UnitItem::Reset(_) => 3,
        UnitItem::Index(_, _) | UnitItem::Set(_, _) | UnitItem::SetSystem(_, _) => 4,
        UnitItem::Key(_, _) | UnitItem::Test(_, _, _) | UnitItem::SystemTest(_, _, _) => 5,
    }
}

/// Appends the item's only spelling, each unit as two bytes with the lower byte first. Errors: `Memory` if an allocation fails;
/// the list is then unchanged.
pub fn spell(out: &mut Seq<u8>, item: UnitItem) -> Result<(), Memory>
    requires { IsSpellable item }
    ensures { MatchResult result (λ _. out.new ≡ out.old ++ unit_bytes (spelling item)) (λ _. out.new ≡ out.old) }
{
    match item {
        UnitItem::Char(c) => put_char(out, c),
        UnitItem::Any(store) => put_units(out, &[SENTINEL, item_codes::ANY, store]),
        UnitItem::Index(store, offset) => put_units(
            out,
            &[SENTINEL, item_codes::INDEX, store, offset],
        ),
        UnitItem::Context => put_units(out, &[SENTINEL, item_codes::CONTEXT]),
        UnitItem::Nul => put_units(out, &[SENTINEL, item_codes::NUL]),
        UnitItem::Enter(group) => put_units(out, &[SENTINEL, item_codes::ENTER, group]),
        UnitItem::Stop => put_units(out, &[SENTINEL, item_codes::STOP]),
        UnitItem::Beep => put_units(out, &[SENTINEL, item_codes::BEEP]),
        UnitItem::Dead(mark) => put_units(out, &[SENTINEL, item_codes::DEAD, mark]),
        UnitItem::Key(flags, code) => put_units(
            out,
            &[SENTINEL, item_codes::KEY, flags, code, KEY_END],
        ),
        UnitItem::ContextAt(offset) => put_units(out, &[SENTINEL, item_codes::CONTEXT_AT, offset]),
        UnitItem::NotAny(store) => put_units(out, &[SENTINEL, item_codes::NOT_ANY, store]),
        UnitItem::Set(store, value) => put_units(out, &[SENTINEL, item_codes::SET, store, value]),
        UnitItem::Test(store, comparison, value) => put_units(
            out,
            &[SENTINEL, item_codes::TEST, store, comparison, value],
        ),
        UnitItem::Save(store) => put_units(out, &[SENTINEL, item_codes::SAVE, store]),
        UnitItem::Reset(store) => put_units(out, &[SENTINEL, item_codes::RESET, store]),
        UnitItem::SystemTest(system, comparison, value) => put_units(
            out,
            &[SENTINEL, item_codes::SYSTEM_TEST, system, comparison, value],
        ),
        UnitItem::SetSystem(system, value) => put_units(
            out,
            &[SENTINEL, item_codes::SET_SYSTEM, system, value],
        ),
    }
}
