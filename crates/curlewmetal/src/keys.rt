//! The exports that press keys, and report what keys do and which codes they have.

ghost use Rattle.std.specs.Prelude.{◌≡◌, length, [], None, Some, unwrap_or, encode_utf8_all, MatchOption};
ghost use Rattle.virtual_keys.specs.Keys.{key_code};
ghost use Rattle.rule_model.specs.Event.{event_refusal};
ghost use Rattle.play_session.specs.Session.{happened, after_step};
ghost use Rattle.curlew_calls.specs.Numbers.{written};
ghost use Rattle.curlew_calls.specs.Answers.{IsCause};
ghost use Rattle.curlew_calls.specs.Calls.{key, Happens, edit_of, own_key_code};
ghost use Rattle.curlewmetal.specs.Answers.{Answers};

use crate::answers::{CLOSED, OK, error_number};
use crate::field::Field;
use curlew_calls::Edit;
use std::alloc::Global;

/// Presses a key. Returns `OK` with the edit that it made, `LENGTH` exactly when the text is too long for a key press, `MEMORY`, or
/// `CLOSED`.
#[tactic(auto, using(crate::proofs::Opened::closed, crate::proofs::Opened::opened, crate::proofs::Opened::failed))]
#[unsafe(no_mangle)]
pub extern "C" fn curlew_key(
    alloc: Global,
    field: &mut Field,
    code: u16,
    mods: u16,
    edit: &mut Edit,
) -> u32
    ensures { Answers field.old.held result (λ session. Happens session (key code mods)
        × (field.new.held ≡ Some (after_step session (key code mods)))
        × (edit.new ≡ edit_of (happened session (key code mods)) (length (after_step session (key code mods)).changes)))
        ((field.new.held ≡ field.old.held) × (edit.new ≡ edit.old))
        (λ session error. IsCause [] (event_refusal session.state (key code mods)) error) }
{
    let Some(mut held) = field.take(alloc) else {
        return CLOSED;
    };
    let answer = match held.key(alloc, code, mods) {
        Ok(made) => {
            *edit = made;
            OK
        }
        Err(error) => error_number(&error),
    };
    *field = Field::of(held);
    answer
}

/// Reports what the key would do, without doing it, and writes the code points that it would insert to the buffer. Returns the
/// numbers of `curlew_key`.
#[tactic(auto, using(crate::proofs::Opened::closed, crate::proofs::Opened::opened, crate::proofs::Opened::failed))]
#[unsafe(no_mangle)]
pub extern "C" fn curlew_preview(
    alloc: Global,
    field: &mut Field,
    code: u16,
    mods: u16,
    edit: &mut Edit,
    room: &mut [u32],
) -> u32
    ensures stays { field.new.held ≡ field.old.held }
    ensures told { Answers field.old.held result (λ session. Happens session (key code mods)
        × (edit.new ≡ edit_of (happened session (key code mods)) 0)
        × (room.new ≡ written (happened session (key code mods)).inserted room.old))
        ((edit.new ≡ edit.old) × (room.new ≡ room.old))
        (λ session error. IsCause [] (event_refusal session.state (key code mods)) error) }
{
    let Some(held) = field.take(alloc) else {
        return CLOSED;
    };
    let answer = match held.preview(alloc, code, mods, room) {
        Ok(made) => {
            *edit = made;
            OK
        }
        Err(error) => error_number(&error),
    };
    *field = Field::of(held);
    answer
}

/// Writes the code points that the last step inserted to the buffer. Returns how many it inserted, or 0 if the field is not
/// open.
#[tactic(auto, using(crate::proofs::Opened::told_of_closed, crate::proofs::Opened::told_of_opened))]
#[unsafe(no_mangle)]
pub extern "C" fn curlew_inserted(alloc: Global, field: &mut Field, room: &mut [u32]) -> usize
    ensures stays { field.new.held ≡ field.old.held }
    ensures told { MatchOption field.old.held ((result ≡ 0) × (room.new ≡ room.old))
        (λ session. (result ≡ length session.inserted) × (room.new ≡ written session.inserted room.old)) }
{
    let Some(held) = field.take(alloc) else {
        return 0;
    };
    let count = held.inserted(room);
    *field = Field::of(held);
    count
}

/// Writes the text that the last step inserted to the buffer as UTF-8. Returns its full size in bytes, or 0 if the field is not
/// open.
#[tactic(auto, using(crate::proofs::Opened::told_of_closed, crate::proofs::Opened::told_of_opened))]
#[unsafe(no_mangle)]
pub extern "C" fn curlew_inserted_utf8(alloc: Global, field: &mut Field, room: &mut [u8]) -> usize
    ensures stays { field.new.held ≡ field.old.held }
    ensures told { MatchOption field.old.held ((result ≡ 0) × (room.new ≡ room.old))
        (λ session. (result ≡ length (encode_utf8_all session.inserted)) × (room.new ≡ written (encode_utf8_all session.inserted) room.old)) }
{
    let Some(held) = field.take(alloc) else {
        return 0;
    };
    let count = held.inserted_utf8(room);
    *field = Field::of(held);
    count
}

/// Returns the code of a key that all keyboards have, by its name in ASCII; 0 if no such key has the name.
#[unsafe(no_mangle)]
pub extern "C" fn curlew_key_code(name: &[u8]) -> u16
    ensures { result ≡ unwrap_or (key_code name.now) 0 }
{
    curlew_calls::key_code(name)
}

/// Returns the code of a key in this field, by its name in UTF-8: of a key that all keyboards have, otherwise of a custom key of the
/// file; 0 if there is no such key or the field is not open.
#[tactic(auto, using(crate::proofs::Opened::told_of_closed, crate::proofs::Opened::told_of_opened))]
#[unsafe(no_mangle)]
pub extern "C" fn curlew_own_key_code(alloc: Global, field: &mut Field, name: &[u8]) -> u16
    ensures stays { field.new.held ≡ field.old.held }
    ensures told { MatchOption field.old.held (result ≡ 0) (λ session. result ≡ own_key_code name.now session.tables) }
{
    let Some(held) = field.take(alloc) else {
        return 0;
    };
    let code = held.own_key_code(name);
    *field = Field::of(held);
    code
}
