//! Words that differ in one letter.

ghost use Rattle.std.specs.Prelude.{◌≡◌};
ghost use Rattle.refusal_details.specs.Letters.{is_changed, is_exchanged, is_near, same_letter};

use kmn_base::names::same_name;
use kmn_base::slices::{before, behind};

/// Returns whether two words differ in one letter: it is replaced, added or left out, or two neighbors are exchanged. ASCII case does not
/// matter. A letter is a byte here.
pub(crate) fn is_near(one: &[u8], other: &[u8]) -> bool
    ensures { result ≡ is_near one.now other.now }
{
    let mut left = one;
    let mut right = other;
    while let [first, rest @ ..] = left {
        let [next, others @ ..] = right else {
            return rest.is_empty();
        };
        if !same_letter(*first, *next) {
            return is_changed(left, right);
        }
        left = rest;
        right = others;
    }
    right.len() == 1
}

/// Returns whether two words, which begin with different letters, are equal with one change at their beginning.
#[tactic(auto, unfolding(crate::specs::Letters::is_changed))]
fn is_changed(left: &[u8], right: &[u8]) -> bool
    ensures { result ≡ is_changed left.now right.now }
{
    same_name(behind(left, 1), behind(right, 1))
        || same_name(behind(left, 1), right)
        || same_name(left, behind(right, 1))
        || is_exchanged(left, right)
}

/// Returns whether two words are equal if the first two letters of one of them are exchanged.
#[tactic(auto, unfolding(crate::specs::Letters::is_exchanged))]
fn is_exchanged(left: &[u8], right: &[u8]) -> bool
    ensures { result ≡ is_exchanged left.now right.now }
{
    same_name(before(left, 1), before(behind(right, 1), 1))
        && same_name(before(behind(left, 1), 1), before(right, 1))
        && same_name(behind(left, 2), behind(right, 2))
}

/// Returns whether two letters are equal without ASCII case.
#[tactic(auto, unfolding(crate::specs::Letters::same_letter))]
fn same_letter(one: u8, other: u8) -> bool
    ensures { result ≡ same_letter one other }
{
    one.eq_ignore_ascii_case(&other)
}
