//! What a press of a key does, as a chart shows it.

ghost use Rattle.std.specs.Prelude.{◌≡◌, IfOk};
ghost use Rattle.kmn_base.specs.Lists.{characters};
ghost use Rattle.chart_board.specs.Cells.{is_character, is_us, is_empty, marks};

use kmn_base::{Item, KeyPress, Memory, Seq};
use std::alloc::Global;
use virtual_keys::char_of;

/// What a press of a key does: how many characters before the caret it deletes, the characters and deadkeys that it then puts there,
/// whether it is passed on to the application, and its beeps.
#[derive(Drop)]
pub struct Cell {
    pub deleted: u32,
    pub items: Seq<Item>,
    pub passed: bool,
    pub beeps: u32,
}

/// Returns whether a press only inserts the character of its key on a US board.
pub fn is_us(press: KeyPress, cell: &Cell) -> bool
    ensures { result ≡ is_us press cell.now }
{
    is_character(char_of(press), cell.items.as_slice())
        && cell.deleted == 0
        && !cell.passed
        && cell.beeps == 0
}

/// Returns whether items are one character, and it is this one.
fn is_character(given: Option<char>, items: &[Item]) -> bool
    ensures { result ≡ is_character given items.now }
{
    match (given, items) {
        (Some(c), [Item::Char(d)]) => c == *d,
        _ => false,
    }
}

/// Returns whether a press is passed on and does nothing else.
pub fn is_empty(cell: &Cell) -> bool
    ensures { result ≡ is_empty cell.now }
{
    cell.passed && cell.items.is_empty() && cell.deleted == 0 && cell.beeps == 0
}

/// Returns the characters among items.
pub fn characters(alloc: Global, items: &[Item]) -> Result<Seq<char>, Memory>
    ensures { IfOk result (λ chars. chars ≡ characters items.now) }
{
    let mut chars = Seq::new(alloc);
    for item in items {
        if let Item::Char(c) = item {
            chars.add(*c)?;
        }
    }
    Ok(chars)
}

/// Returns the numbers of the marks among items.
pub fn marks(alloc: Global, items: &[Item]) -> Result<Seq<u16>, Memory>
    ensures { IfOk result (λ numbers. numbers ≡ marks items.now) }
{
    let mut numbers = Seq::new(alloc);
    for item in items {
        if let Item::Mark(mark) = item {
            numbers.add(*mark)?;
        }
    }
    Ok(numbers)
}
