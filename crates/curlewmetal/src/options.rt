//! The exports that set options, and report which options changed and the values of options.

ghost use Rattle.std.specs.Prelude.{◌≡◌, length, None, Some, true, slice_get, MatchOption};
ghost use Rattle.kmn_base.specs.declared.events.Event.TheVariants as event;
ghost use Rattle.play_session.specs.Changes.{option_stores};
ghost use Rattle.play_session.specs.Session.{after_step};
ghost use Rattle.curlew_calls.specs.Numbers.{written, bit, element_numbers};
ghost use Rattle.curlew_calls.specs.Answers.{IsSettingCause};
ghost use Rattle.curlew_calls.specs.Calls.{knows_option, store_count, store_name, store_value};
ghost use Rattle.curlewmetal.specs.Answers.{ok_answer, closed_answer, none_answer, Answers, UnlessMemory, is_set};

use crate::answers::{CLOSED, MEMORY, NONE, OK, error_number};
use crate::field::Field;
use std::alloc::Global;

/// Sets the current and the saved value of an option to these code points. Its name is UTF-8. Returns `OK`, `NONE` if no option has
/// the name, otherwise `CHARACTER` if a number is not a character, `MEMORY`, or `CLOSED`.
#[tactic(auto, using(crate::proofs::Opened::closed, crate::proofs::Opened::opened, crate::proofs::Opened::failed))]
#[unsafe(no_mangle)]
pub extern "C" fn curlew_set(alloc: Global, field: &mut Field, name: &[u8], value: &[u32]) -> u32
    ensures { Answers field.old.held result (λ session. (knows_option name.now session.tables ≡ true)
        × (field.new.held ≡ Some (after_step session (event.Setting name.now value.now))))
        (field.new.held ≡ field.old.held)
        (λ session error. IsSettingCause (knows_option name.now session.tables) value.now error) }
{
    let Some(mut held) = field.take(alloc) else {
        return CLOSED;
    };
    let answer = match held.set(alloc, name, value) {
        Ok(()) => OK,
        Err(error) => error_number(&error),
    };
    *field = Field::of(held);
    answer
}

/// Reports the nth option value, from 0, that the last step changed: the number of its store, and 1 if it is the saved value, or 0
/// if it is the current one. Returns `OK`, `NONE` exactly when there is no nth value, or `CLOSED`.
#[tactic(auto, using(crate::proofs::Opened::told_of_closed, crate::proofs::Opened::told_of_opened))]
#[unsafe(no_mangle)]
pub extern "C" fn curlew_change(
    alloc: Global,
    field: &mut Field,
    n: usize,
    store: &mut u32,
    saved: &mut u32,
) -> u32
    ensures stays { field.new.held ≡ field.old.held }
    ensures told { MatchOption field.old.held ((result ≡ closed_answer) × (store.new ≡ store.old) × (saved.new ≡ saved.old))
        (λ session. MatchOption (slice_get session.changes n) ((result ≡ none_answer) × (store.new ≡ store.old) × (saved.new ≡ saved.old))
        (λ change. (result ≡ ok_answer) × (store.new ≡ change.store) × (saved.new ≡ bit change.saved))) }
{
    let Some(held) = field.take(alloc) else {
        return CLOSED;
    };
    let answer = match held.change(n) {
        Some(change) => {
            *store = change.store;
            *saved = u32::from(change.saved);
            OK
        }
        None => NONE,
    };
    *field = Field::of(held);
    answer
}

/// Returns how many stores there are: those of the file, then the layer and the platform; 0 if the field is not open.
#[tactic(auto, using(crate::proofs::Opened::told_of_closed, crate::proofs::Opened::told_of_opened))]
#[unsafe(no_mangle)]
pub extern "C" fn curlew_store_count(alloc: Global, field: &mut Field) -> u32
    ensures stays { field.new.held ≡ field.old.held }
    ensures told { MatchOption field.old.held (result ≡ 0) (λ session. result ≡ store_count session.tables) }
{
    let Some(held) = field.take(alloc) else {
        return 0;
    };
    let count = held.store_count();
    *field = Field::of(held);
    count
}

/// Writes the numbers of the stores that are options to the buffer, in rising order, and returns how many there are; 0 if the field
/// is not open.
#[tactic(auto, using(crate::proofs::Opened::told_of_closed, crate::proofs::Opened::told_of_opened))]
#[unsafe(no_mangle)]
pub extern "C" fn curlew_options(alloc: Global, field: &mut Field, room: &mut [u32]) -> usize
    ensures stays { field.new.held ≡ field.old.held }
    ensures told { MatchOption field.old.held ((result ≡ 0) × (room.new ≡ room.old))
        (λ session. (result ≡ length (option_stores session.tables)) × (room.new ≡ written (option_stores session.tables) room.old)) }
{
    let Some(held) = field.take(alloc) else {
        return 0;
    };
    let count = held.options(room);
    *field = Field::of(held);
    count
}

/// Writes the name of a store to the buffer as UTF-8, and its full size in bytes to `count`, 0 if the store has no name. Returns
/// `OK`, `NONE` exactly when there is no such store, `MEMORY`, or `CLOSED`.
#[tactic(auto, using(crate::proofs::Opened::told_of_closed, crate::proofs::Opened::told_of_opened, crate::proofs::Opened::name_told, crate::proofs::Opened::no_name_told))]
#[unsafe(no_mangle)]
pub extern "C" fn curlew_option_name(
    alloc: Global,
    field: &mut Field,
    store: u32,
    room: &mut [u8],
    count: &mut usize,
) -> u32
    ensures stays { field.new.held ≡ field.old.held }
    ensures told { MatchOption field.old.held ((result ≡ closed_answer) × (count.new ≡ count.old) × (room.new ≡ room.old))
        (λ session. UnlessMemory result ((count.new ≡ count.old) × (room.new ≡ room.old)) (MatchOption (store_name session.tables store)
        ((result ≡ none_answer) × (count.new ≡ count.old) × (room.new ≡ room.old))
        (λ name. (result ≡ ok_answer) × (count.new ≡ length name) × (room.new ≡ written name room.old)))) }
{
    let Some(held) = field.take(alloc) else {
        return CLOSED;
    };
    let answer = match held.option_name(alloc, store, room) {
        Ok(Some(whole)) => {
            *count = whole;
            OK
        }
        Ok(None) => NONE,
        Err(_) => MEMORY,
    };
    *field = Field::of(held);
    answer
}

/// Writes the current value of a store to the buffer, or the saved value if `saved` is not 0, and its full length to `count`.
/// Deadkeys and virtual keys are numbers past all code points. Returns `OK`, `NONE` exactly when there is no such store or the saved
/// value is requested and no value is saved, `MEMORY`, or `CLOSED`.
#[tactic(auto, using(crate::proofs::Opened::told_of_closed, crate::proofs::Opened::told_of_opened, crate::proofs::Opened::value_told, crate::proofs::Opened::no_value_told))]
#[unsafe(no_mangle)]
pub extern "C" fn curlew_option_value(
    alloc: Global,
    field: &mut Field,
    store: u32,
    saved: u32,
    room: &mut [u32],
    count: &mut usize,
) -> u32
    ensures stays { field.new.held ≡ field.old.held }
    ensures told { MatchOption field.old.held ((result ≡ closed_answer) × (count.new ≡ count.old) × (room.new ≡ room.old))
        (λ session. UnlessMemory result ((count.new ≡ count.old) × (room.new ≡ room.old)) (MatchOption (store_value session store (is_set saved))
        ((result ≡ none_answer) × (count.new ≡ count.old) × (room.new ≡ room.old))
        (λ value. (result ≡ ok_answer) × (count.new ≡ length value) × (room.new ≡ written (element_numbers value) room.old)))) }
{
    let Some(held) = field.take(alloc) else {
        return CLOSED;
    };
    let answer = match held.option_value(alloc, store, saved != 0, room) {
        Ok(Some(whole)) => {
            *count = whole;
            OK
        }
        Ok(None) => NONE,
        Err(_) => MEMORY,
    };
    *field = Field::of(held);
    answer
}
