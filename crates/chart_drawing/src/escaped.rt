//! Characters as XML has them.

ghost use Rattle.std.specs.Prelude.{◌≡◌, ◌++◌, ◌≤◌, flat_map, IfOk};
ghost use Rattle.std.specs.String.{string_bytes};
ghost use Rattle.chart_drawing.specs.Escaped.{is_markup, is_plain, is_allowed, escaped, shown, cut};

use std::alloc::AllocError;

/// Appends a character as XML has it.
#[tactic(auto, unfolding(crate::specs::Escaped::escaped))]
pub(crate) fn put_escaped(text: &mut String, c: char) -> Result<(), AllocError>
    ensures { IfOk result (λ _. string_bytes text.new ≡ string_bytes text.old ++ escaped c) }
{
    let code = c as u32;
    if is_plain(code) {
        text.push(c)
    } else if is_allowed(code) {
        write!(text, "&#{code};")
    } else {
        text.push_str("&#65533;")
    }
}

/// Returns whether a character is written as it is.
fn is_plain(code: u32) -> bool
    ensures { result ≡ is_plain code }
{
    32 <= code && code <= 126 && !is_markup(code)
}

/// Returns whether a character is part of the markup of XML.
fn is_markup(code: u32) -> bool
    ensures { result ≡ is_markup code }
{
    matches!(code, 34 | 38 | 39 | 60 | 62)
}

/// Returns whether XML allows a character.
fn is_allowed(code: u32) -> bool
    ensures { result ≡ is_allowed code }
{
    matches!(code, 9 | 10 | 13) || (32 <= code && code != 0xFFFE && code != 0xFFFF)
}

/// Appends characters as XML has them.
pub(crate) fn put_all_escaped(text: &mut String, chars: &[char]) -> Result<(), AllocError>
    ensures { IfOk result (λ _. string_bytes text.new ≡ string_bytes text.old ++ flat_map escaped chars.now) }
{
    for c in chars {
        put_escaped(text, *c)?;
    }
    Ok(())
}

/// Appends characters as a key shows them, cut at a number of places of them.
#[tactic(auto, unfolding(crate::specs::Escaped::cut))]
pub(crate) fn put_cut(text: &mut String, limit: usize, chars: &[char]) -> Result<(), AllocError>
    requires { 1 ≤ limit }
    ensures { IfOk result (λ _. string_bytes text.new ≡ string_bytes text.old ++ cut limit chars.now) }
{
    if chars.len() <= limit {
        return put_all_shown(text, chars);
    }
    put_all_shown(text, &chars[..limit - 1])?;
    text.push_str("&#8230;")
}

/// Appends characters as a key shows them.
fn put_all_shown(text: &mut String, chars: &[char]) -> Result<(), AllocError>
    ensures { IfOk result (λ _. string_bytes text.new ≡ string_bytes text.old ++ flat_map shown chars.now) }
{
    for c in chars {
        put_shown(text, *c)?;
    }
    Ok(())
}

/// Appends a character as a key shows it.
#[tactic(auto, unfolding(crate::specs::Escaped::shown))]
fn put_shown(text: &mut String, c: char) -> Result<(), AllocError>
    ensures { IfOk result (λ _. string_bytes text.new ≡ string_bytes text.old ++ shown c) }
{
    if c == ' ' {
        text.push_str("&#9251;")
    } else {
        put_escaped(text, c)
    }
}
