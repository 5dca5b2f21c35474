//! Reads events from the steps of test tables.

use kmn_base::{Event, KeyPress, Memory, Seq};
use std::alloc::Global;
use virtual_keys::key_named;

/// Returns the number of a table entry. A malformed number is larger than any position in a text.
fn number(text: &str) -> u32 {
    text.parse().unwrap_or(u32::MAX)
}

fn chars(alloc: Global, text: &str) -> Result<Seq<char>, Memory> {
    Ok(Seq::from_vec(text.chars().collect(alloc)?))
}

/// Returns the edit with two positions and a text, separated by commas.
fn edit(alloc: Global, edit: &str) -> Result<Event, Memory> {
    let (from, rest) = edit.split_once(',').unwrap_or((edit, ""));
    let (to, text) = rest.split_once(',').unwrap_or((rest, ""));
    Ok(Event::Edit {
        from: number(from),
        to: number(to),
        text: chars(alloc, text)?,
    })
}

fn setting(alloc: Global, name: &str, value: &str) -> Result<Event, Memory> {
    let spaced = value.replace(alloc, "_", " ")?;
    let value = chars(alloc, spaced.as_str())?;
    Ok(Event::Setting {
        name: Seq::from_slice(alloc, name.as_bytes())?,
        value,
    })
}

/// Returns the event of a step: `|` and a caret position; `-` and an edit; the name and the value of an option with `=` between
/// them, where `_` is a space; or the name of a key.
pub fn event(alloc: Global, word: &str) -> Result<Event, Memory> {
    if let Some(place) = word.strip_prefix('|') {
        return Ok(Event::Caret(number(place)));
    }
    if let Some(places) = word.strip_prefix('-') {
        return edit(alloc, places);
    }
    match word.split_once('=') {
        Some((name, value)) => setting(alloc, name, value),
        None => Ok(Event::Key(KeyPress {
            code: key_named(word.as_bytes()).unwrap_or(0),
            mods: 0,
        })),
    }
}
