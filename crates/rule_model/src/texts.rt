//! Compares the names of options and the characters of texts, and finds the caret after an edit.

ghost use Rattle.std.specs.Prelude.{◌≡◌, ◌+◌, ◌-◌, ◌<◌, ◌^◌};
ghost use Rattle.rule_model.specs.Event.{has_name, moved_caret};
ghost use Rattle.rule_model.specs.KeyEvent.{common_prefix};

use kmn_base::names::same_name;

/// Returns whether an option with the second name is found by the first. An option without a name is never found.
pub fn has_name(name: &[u8], other: &[u8]) -> bool
    ensures { result ≡ has_name name.now other.now }
{
    !other.is_empty() && same_name(other, name)
}

/// Returns the number of characters of the common prefix of two texts.
#[tactic(auto, using(crate::proofs::PlainLists::common_prefix_ended, crate::proofs::PlainLists::common_prefix_other_ended))]
pub fn common_prefix(old: &[char], new: &[char]) -> usize
    ensures { result ≡ common_prefix old.now new.now }
{
    let mut count = 0;
    while count < old.len() && count < new.len() && old[count] == new[count] {
        count += 1;
    }
    count
}

/// Returns the position of the caret after the characters between two positions were replaced by `count` characters.
pub fn moved_caret(from: usize, to: usize, count: usize, caret: usize) -> usize
    requires { from + count + (caret - to) < 2 ^ 64 }
    ensures { result ≡ moved_caret from to count caret }
{
    if caret <= from {
        caret
    } else if caret < to {
        from + count
    } else {
        caret - to + from + count
    }
}
