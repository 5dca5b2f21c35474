//! Reads the command-line arguments. It is a separate module because no contract describes what the system returns.

use kmn_base::{Memory, Seq, Text};
use std::alloc::Global;
use std::env::FillError;
use std::rt::Env;

/// Returns the command-line arguments after the program's name, which is ignored. An argument is bytes; it need not be UTF-8. No
/// clause states that these are the arguments: the contract of `Env::arg` only states that a result fits in its buffer.
pub fn words(rt: &(impl Env + Alloc<A = Global>)) -> Result<Seq<Text>, Memory> {
    let mut words = Seq::new(rt.alloc());
    for place in 1..usize::MAX {
        match word(rt, rt.alloc(), place)? {
            Some(word) => words.add(word)?,
            None => return Ok(words),
        }
    }
    Ok(words)
}

/// Returns the argument at an index, or `None` past the last. The buffer doubles until the argument fits.
fn word(env: &impl Env, alloc: Global, place: usize) -> Result<Option<Text>, Memory> {
    let mut room = 256usize;
    for _ in 0..usize::BITS {
        let mut word = vec![in alloc; 0u8; room]?;
        match env.arg(place, word.as_mut_slice()) {
            Ok(length) => {
                word.truncate(length);
                return Ok(Some(Seq::from_vec(word)));
            }
            Err(FillError::NotPresent) => return Ok(None),
            Err(FillError::TooLong) => room = room.saturating_add(room),
        }
    }
    Err(Memory)
}
