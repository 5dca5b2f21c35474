//! The keys of a chart.

ghost use Rattle.std.specs.Prelude.{◌≡◌, ◌+◌, ◌<◌, ◌≤◌, ◌++◌, ◌^◌, length, map, IfOk};
ghost use Rattle.kmn_base.specs.declared.limits.TheConstants.{KEY_NAMES};
ghost use Rattle.chart_board.specs.Board.{board_rows, board_key, own_key, own_keys, chart_keys};

use kmn_base::limits::KEY_NAMES;
use kmn_base::{Memory, Seq, Text};
use std::alloc::Global;
use virtual_keys::{FIRST_OWN_CODE, KeyDictionary};

/// A key of a chart. Its key cap is UTF-8 text. Its place is the distance from the left side and from the top of its board.
#[derive(Drop)]
pub struct Key {
    pub cap: Text,
    pub code: u16,
    pub left: u32,
    pub top: u32,
    pub width: u32,
}

/// The keys of the board: key cap, code, distance from the left and from the top, and width.
static BOARD: [(&str, u16, u32, u32, u32); 52] = [
    ("`", 192, 0, 0, 60),
    ("1", 49, 64, 0, 60),
    ("2", 50, 128, 0, 60),
    ("3", 51, 192, 0, 60),
    ("4", 52, 256, 0, 60),
    ("5", 53, 320, 0, 60),
    ("6", 54, 384, 0, 60),
    ("7", 55, 448, 0, 60),
    ("8", 56, 512, 0, 60),
    ("9", 57, 576, 0, 60),
    ("0", 48, 640, 0, 60),
    ("-", 189, 704, 0, 60),
    ("=", 187, 768, 0, 60),
    ("Bksp", 8, 832, 0, 124),
    ("Tab", 9, 0, 64, 92),
    ("Q", 81, 96, 64, 60),
    ("W", 87, 160, 64, 60),
    ("E", 69, 224, 64, 60),
    ("R", 82, 288, 64, 60),
    ("T", 84, 352, 64, 60),
    ("Y", 89, 416, 64, 60),
    ("U", 85, 480, 64, 60),
    ("I", 73, 544, 64, 60),
    ("O", 79, 608, 64, 60),
    ("P", 80, 672, 64, 60),
    ("[", 219, 736, 64, 60),
    ("]", 221, 800, 64, 60),
    ("\\", 220, 864, 64, 92),
    ("A", 65, 112, 128, 60),
    ("S", 83, 176, 128, 60),
    ("D", 68, 240, 128, 60),
    ("F", 70, 304, 128, 60),
    ("G", 71, 368, 128, 60),
    ("H", 72, 432, 128, 60),
    ("J", 74, 496, 128, 60),
    ("K", 75, 560, 128, 60),
    ("L", 76, 624, 128, 60),
    (";", 186, 688, 128, 60),
    ("'", 222, 752, 128, 60),
    ("Enter", 13, 816, 128, 140),
    ("<", 226, 80, 192, 60),
    ("Z", 90, 144, 192, 60),
    ("X", 88, 208, 192, 60),
    ("C", 67, 272, 192, 60),
    ("V", 86, 336, 192, 60),
    ("B", 66, 400, 192, 60),
    ("N", 78, 464, 192, 60),
    ("M", 77, 528, 192, 60),
    (",", 188, 592, 192, 60),
    (".", 190, 656, 192, 60),
    ("/", 191, 720, 192, 60),
    (" ", 32, 256, 256, 380),
];

/// Returns the keys of a chart, given the file's key dictionary: those of the US board, and below them the custom keys. Errors: `Memory` if
/// an allocation fails.
#[tactic(auto, using(crate::proofs::OwnKeys::few_keys), unfolding(crate::specs::Board::chart_keys))]
pub fn chart_keys(alloc: Global, names: &KeyDictionary) -> Result<Seq<Key>, Memory>
    requires { length names.now ≤ KEY_NAMES }
    ensures keys { IfOk result (λ keys. keys ≡ chart_keys names.now) }
    ensures few { length (chart_keys names.now) < 2 ^ 17 }
{
    let mut keys = Seq::new(alloc);
    put_board(alloc, &mut keys, board_rows())?;
    put_own(alloc, &mut keys, names)?;
    Ok(keys)
}

/// Appends the keys of rows of the board.
fn put_board(
    alloc: Global,
    keys: &mut Seq<Key>,
    rows: &'static [(&'static str, u16, u32, u32, u32)],
) -> Result<(), Memory>
    ensures { IfOk result (λ _. keys.new ≡ keys.old ++ map board_key (map (λ row. (row.0.now, row.1, row.2, row.3, row.4)) rows.now)) }
{
    for row in rows {
        keys.add(Key {
            cap: Seq::from_slice(alloc, row.0.as_bytes())?,
            code: row.1,
            left: row.2,
            top: row.3,
            width: row.4,
        })?;
    }
    Ok(())
}

/// Returns the rows of the board.
#[tactic(auto, unfolding(crate::specs::Board::board_rows))]
fn board_rows() -> &'static [(&'static str, u16, u32, u32, u32)]
    ensures { map (λ row. (row.0.now, row.1, row.2, row.3, row.4)) result.now ≡ board_rows }
{
    &BOARD
}

/// Appends the custom keys of the key dictionary. There are at most as many names as codes.
#[tactic(auto, using(crate::proofs::OwnKeys::own_next, crate::proofs::OwnKeys::own_ended, crate::proofs::OwnKeys::own_all))]
fn put_own(alloc: Global, keys: &mut Seq<Key>, names: &KeyDictionary) -> Result<(), Memory>
    requires { length names.now ≤ KEY_NAMES }
    ensures { IfOk result (λ _. keys.new ≡ keys.old ++ own_keys 0 names.now) }
{
    for number in 0..KEY_NAMES {
        let Some(name) = names.name_at(FIRST_OWN_CODE + number as u16) else {
            return Ok(());
        };
        keys.add(own_key(alloc, number, name)?)?;
    }
    Ok(())
}

/// Returns the key of a name of the key dictionary, from the place of the name.
fn own_key(alloc: Global, number: usize, name: &[u8]) -> Result<Key, Memory>
    requires { number < KEY_NAMES }
    ensures { IfOk result (λ key. key ≡ own_key number name.now) }
{
    Ok(Key {
        cap: Seq::from_slice(alloc, name)?,
        code: FIRST_OWN_CODE + number as u16,
        left: 64 * (number as u32 % 15),
        top: 320 + 64 * (number as u32 / 15),
        width: 60,
    })
}
