//! The exports that report and change the text. Characters are code points, and positions count them from the start of the text.

ghost use Rattle.std.specs.Prelude.{◌≡◌, length, [], None, Some, MatchOption};
ghost use Rattle.kmn_base.specs.declared.events.Event.TheVariants as event;
ghost use Rattle.kmn_base.specs.Lists.{window};
ghost use Rattle.rule_model.specs.Event.{event_refusal};
ghost use Rattle.play_session.specs.Session.{after_step};
ghost use Rattle.curlew_calls.specs.Numbers.{written, item_numbers};
ghost use Rattle.curlew_calls.specs.Answers.{IsCause, IsCaretCause};
ghost use Rattle.curlew_calls.specs.Calls.{Happens, text_at, edit_before, with_text_before};
ghost use Rattle.curlewmetal.specs.Answers.{Answers, is_set};

use crate::answers::{CLOSED, OK, error_number};
use crate::field::Field;
use std::alloc::Global;

/// Sets the text before the caret. An empty text means a new position, where no mark (deadkey) remains unless the window has 64
/// marks. Returns `OK`, `CHARACTER` exactly when a number is not a character, otherwise `LENGTH` exactly when the whole text would be
/// too long, `MEMORY`, or `CLOSED`.
#[tactic(auto, using(crate::proofs::Opened::closed, crate::proofs::Opened::opened, crate::proofs::Opened::failed))]
#[unsafe(no_mangle)]
pub extern "C" fn curlew_before(alloc: Global, field: &mut Field, text: &[u32]) -> u32
    ensures { Answers field.old.held result (λ session. Happens session (edit_before text.now session.state)
        × (field.new.held ≡ Some (with_text_before text.now session)))
        (field.new.held ≡ field.old.held)
        (λ session error. IsCause text.now (event_refusal session.state (edit_before text.now session.state)) error) }
{
    let Some(mut held) = field.take(alloc) else {
        return CLOSED;
    };
    let answer = match held.before(alloc, text) {
        Ok(()) => OK,
        Err(error) => error_number(&error),
    };
    *field = Field::of(held);
    answer
}

/// Moves the caret to a position. Returns `OK` exactly when the text has the position, otherwise `PLACE`, or `CLOSED`.
#[tactic(auto, using(crate::proofs::Opened::closed, crate::proofs::Opened::opened, crate::proofs::Opened::failed))]
#[unsafe(no_mangle)]
pub extern "C" fn curlew_caret(alloc: Global, field: &mut Field, place: u32) -> u32
    ensures { Answers field.old.held result (λ session. Happens session (event.Caret place)
        × (field.new.held ≡ Some (after_step session (event.Caret place))))
        (field.new.held ≡ field.old.held)
        (λ session error. IsCaretCause (event_refusal session.state (event.Caret place)) error) }
{
    let Some(mut held) = field.take(alloc) else {
        return CLOSED;
    };
    let answer = match held.caret(alloc, place) {
        Ok(()) => OK,
        Err(error) => error_number(&error),
    };
    *field = Field::of(held);
    answer
}

/// Replaces the characters between two positions with these. Returns `OK`, `CHARACTER` if a number is not a character, otherwise
/// `PLACE` or `LENGTH` exactly when the edit is refused for this reason, `MEMORY`, or `CLOSED`.
#[tactic(auto, using(crate::proofs::Opened::closed, crate::proofs::Opened::opened, crate::proofs::Opened::failed))]
#[unsafe(no_mangle)]
pub extern "C" fn curlew_replace(
    alloc: Global,
    field: &mut Field,
    from: u32,
    to: u32,
    text: &[u32],
) -> u32
    ensures { Answers field.old.held result (λ session. Happens session (event.Edit from to text.now)
        × (field.new.held ≡ Some (after_step session (event.Edit from to text.now))))
        (field.new.held ≡ field.old.held)
        (λ session error. IsCause text.now (event_refusal session.state (event.Edit from to text.now)) error) }
{
    let Some(mut held) = field.take(alloc) else {
        return CLOSED;
    };
    let answer = match held.replace(alloc, from, to, text) {
        Ok(()) => OK,
        Err(error) => error_number(&error),
    };
    *field = Field::of(held);
    answer
}

/// Writes the text before the caret to the buffer, or the text after it if `after` is not 0. Returns how many characters it has, or
/// 0 if the field is not open.
#[tactic(auto, using(crate::proofs::Opened::told_of_closed, crate::proofs::Opened::told_of_opened))]
#[unsafe(no_mangle)]
pub extern "C" fn curlew_text(
    alloc: Global,
    field: &mut Field,
    after: u32,
    room: &mut [u32],
) -> usize
    ensures stays { field.new.held ≡ field.old.held }
    ensures told { MatchOption field.old.held ((result ≡ 0) × (room.new ≡ room.old))
        (λ session. (result ≡ length (text_at (is_set after) session.state)) × (room.new ≡ written (text_at (is_set after) session.state) room.old)) }
{
    let Some(held) = field.take(alloc) else {
        return 0;
    };
    let count = held.text(after != 0, room);
    *field = Field::of(held);
    count
}

/// Writes the last 64 items before the caret to the buffer, deadkeys as numbers past all characters. Returns how many there are, or
/// 0 if the field is not open.
#[tactic(auto, using(crate::proofs::Opened::told_of_closed, crate::proofs::Opened::told_of_opened))]
#[unsafe(no_mangle)]
pub extern "C" fn curlew_context(alloc: Global, field: &mut Field, room: &mut [u32]) -> usize
    ensures stays { field.new.held ≡ field.old.held }
    ensures told { MatchOption field.old.held ((result ≡ 0) × (room.new ≡ room.old))
        (λ session. (result ≡ length (window session.state.left)) × (room.new ≡ written (item_numbers (window session.state.left)) room.old)) }
{
    let Some(held) = field.take(alloc) else {
        return 0;
    };
    let count = held.context(room);
    *field = Field::of(held);
    count
}
