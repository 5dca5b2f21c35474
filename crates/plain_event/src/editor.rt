//! What the editor does with a key that is passed on to it.

ghost use Rattle.std.specs.Prelude.{◌≡◌, ◌++◌, IfOk};
ghost use Rattle.rule_model.specs.Event.{editor_left, editor_right};

use kmn_base::Memory;
use kmn_base::slices::{before, behind};
use std::alloc::Global;
use virtual_keys::codes::{K_DEL, K_END, K_ENTER, K_HOME, K_LEFT, K_RIGHT, K_TAB};

/// Joins two texts.
pub fn joined(alloc: Global, text: &[char], more: &[char]) -> Result<Vec<char>, Memory>
    ensures { IfOk result (λ joined. joined.items ≡ text.now ++ more.now) }
{
    let mut joined = Vec::from_slice(alloc, text)?;
    joined.extend_from_slice(more)?;
    Ok(joined)
}

/// Returns the text before the caret after a key that the editor handles by itself.
pub fn editor_left(
    alloc: Global,
    code: u16,
    left: &[char],
    right: &[char],
) -> Result<Vec<char>, Memory>
    ensures { IfOk result (λ text. text.items ≡ editor_left code left.now right.now) }
{
    match code {
        K_ENTER => joined(alloc, left, &['\n']),
        K_TAB => joined(alloc, left, &['\t']),
        K_LEFT => joined(alloc, &left[..left.len().saturating_sub(1)], &[]),
        K_RIGHT => joined(alloc, left, before(right, 1)),
        K_HOME => Ok(Vec::new(alloc)),
        K_END => joined(alloc, left, right),
        _ => joined(alloc, left, &[]),
    }
}

/// Returns the text after the caret after a key that the editor handles by itself.
pub fn editor_right(
    alloc: Global,
    code: u16,
    left: &[char],
    right: &[char],
) -> Result<Vec<char>, Memory>
    ensures { IfOk result (λ text. text.items ≡ editor_right code left.now right.now) }
{
    match code {
        K_LEFT => joined(alloc, &left[left.len().saturating_sub(1)..], right),
        K_RIGHT | K_DEL => joined(alloc, behind(right, 1), &[]),
        K_HOME => joined(alloc, left, right),
        K_END => Ok(Vec::new(alloc)),
        _ => joined(alloc, right, &[]),
    }
}
