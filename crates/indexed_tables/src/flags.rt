//! A flag for each store, and the numbers by these flags.

ghost use Rattle.std.specs.Prelude.{◌≡◌, [], ◌∷◌, ◌++◌, true, false, IfOk, slice_get, unwrap_or};
ghost use Rattle.std.specs.Option.{option_flatten};
ghost use Rattle.indexed_tables.specs.OptionFlags.{with_flags, flag_numbers};

use kmn_base::Memory;
use std::alloc::Global;

/// Sets the flag of a store, if there is such a store.
pub fn mark(flags: &mut [bool], store: u32)
    ensures { flags.new ≡ with_flags flags.old (store ∷ []) }
{
    let place = store as usize;
    if place < flags.len() {
        flags[place] = true;
    }
}

/// Returns the flag at an index, or false past the end.
pub fn flag_at(flags: &[bool], place: usize) -> bool
    ensures { result ≡ unwrap_or (slice_get flags.now place) false }
{
    flags.get(place).copied().unwrap_or(false)
}

/// Returns the option number of each store by these flags, followed by those of the system options, which are options of every
/// keyboard. Errors: `Memory` if an allocation fails.
#[tactic(auto, using(std::proofs::lemmas::Grind::common_steps))]
pub fn numbers_by_flags(alloc: Global, mut flags: Vec<bool>) -> Result<Vec<Option<usize>>, Memory>
    ensures { IfOk result (λ numbers. numbers.items ≡ flag_numbers 0 (flags.items ++ true ∷ true ∷ [])) }
{
    flags.push(true)?;
    flags.push(true)?;
    flag_numbers(alloc, flags.as_slice())
}

/// Returns the number of each flag that is set, in order, and None for the other flags. Errors: `Memory` if an allocation fails.
#[tactic(auto, using(std::proofs::lemmas::Grind::common_steps, crate::proofs::OptionFlags::numbers_more))]
fn flag_numbers(alloc: Global, flags: &[bool]) -> Result<Vec<Option<usize>>, Memory>
    ensures { IfOk result (λ numbers. numbers.items ≡ flag_numbers 0 flags.now) }
{
    let mut numbers = Vec::new(alloc);
    let mut count = 0;
    for n in 0..flags.len() {
        if flags[n] {
            numbers.push(Some(count))?;
            count += 1;
        } else {
            numbers.push(None)?;
        }
    }
    Ok(numbers)
}

/// Returns the number of a store in a list of numbers.
pub fn number_at(numbers: &[Option<usize>], store: u32) -> Option<usize>
    ensures { result ≡ option_flatten (slice_get numbers.now store) }
{
    numbers.get(store as usize).copied().flatten()
}
