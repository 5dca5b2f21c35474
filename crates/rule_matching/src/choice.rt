//! What the tests of all candidates of one choice share.

use crate::match_state::MatchState;
use kmn_base::Item;
use virtual_keys::Pressed;

/// The inputs of the choice of a record: the state of the keyboard, the key press, and the last items before the caret. They do
/// not change during one choice.
#[derive(Drop)]
pub struct Choice<'c> {
    pub moment: &'c MatchState<'c>,
    pub pressed: Pressed,
    pub left: &'c [Item],
}
