//! Reads the sizes of the keys of a layout, in units of a drawing.

ghost use Rattle.std.specs.Prelude.{◌≡◌, ◌≤◌, option_map, codes};
ghost use Rattle.serde_json.specs.View.{view};
ghost use Rattle.touch_board.specs.Sizes.{whole_text, whole, whole_at, unless_zero, drawn, size_in, is_spacer};

use kmn_base::digits::{are_digits, bounded_value};
use serde_json::Value;

/// A number of units above the width of any key.
const MOST_UNITS: u32 = 1000;

/// The width of the widest key that is drawn.
pub(crate) const WIDEST: u32 = 600;

/// Returns the width of a key.
pub(crate) fn width_of(key: &Value) -> u32
    ensures is { result ≡ size_in 100 (codes "width") (view key.now) }
    ensures most { result ≤ WIDEST }
{
    size_in(100, key, "width")
}

/// Returns the space before a key.
pub(crate) fn pad_of(key: &Value) -> u32
    ensures is { result ≡ size_in 15 (codes "pad") (view key.now) }
    ensures most { result ≤ WIDEST }
{
    size_in(15, key, "pad")
}

/// Returns whether a key is only a space: its `sp` is 10.
pub(crate) fn is_spacer(key: &Value) -> bool
    ensures { result ≡ is_spacer (view key.now) }
{
    whole_at(key.get("sp")) == 10
}

/// Returns the size in a member, or a default if the member is absent, 0, or no whole number.
fn size_in(default: u32, key: &Value, name: &str) -> u32
    ensures is { result ≡ size_in default name.now (view key.now) }
    ensures most { result ≤ WIDEST }
{
    drawn(unless_zero(default, whole_at(key.get(name))))
}

/// Returns the number of an optional member, 0 if it is absent.
fn whole_at(member: Option<&Value>) -> u32
    ensures { result ≡ whole_at (option_map (λ v. view v.now) member.entry) }
{
    match member {
        None => 0,
        Some(value) => whole(value),
    }
}

/// Returns the whole number that a value is or that its digits denote, at most 1,000, or 0 for any other value.
fn whole(value: &Value) -> u32
    ensures { result ≡ whole (view value.now) }
{
    if let Some(text) = value.as_str() {
        return whole_text(text);
    }
    let Some(number) = value.as_number() else {
        return 0;
    };
    match number.as_u64() {
        Some(units) => units.min(u64::from(MOST_UNITS)) as u32,
        None => 0,
    }
}

/// Returns the number that digits denote, at most 1,000, or 0 for another text.
fn whole_text(text: &str) -> u32
    ensures { result ≡ whole_text text.now }
{
    if are_digits(10, text.as_bytes()) {
        bounded_value(MOST_UNITS, 10, text.as_bytes())
    } else {
        0
    }
}

/// Returns a number, or a default in place of 0.
fn unless_zero(default: u32, n: u32) -> u32
    ensures { result ≡ unless_zero default n }
{
    if n == 0 { default } else { n }
}

/// Returns a number of units of a layout in units of the drawing.
fn drawn(units: u32) -> u32
    ensures is { result ≡ drawn units }
    ensures most { result ≤ WIDEST }
{
    (u64::from(units) * 3 / 5).min(u64::from(WIDEST)) as u32
}
