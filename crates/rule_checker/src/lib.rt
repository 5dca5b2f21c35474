//! Checks programs: returns the first refusal of a program, or the program with its names, and states the laws of accepted programs.
//!
//! Depends on `kmn_parser` for the properties of a program that was read, on `store_table` for names and for the definition of the
//! first refusal, and on `item_checker` for items. `specs/Refused` defines why a program, or a source, is refused: `refused` is the
//! first refusal for its start (C01), its names (C02 to C07 and C15), its items (C08 to C14 and C25) and its limits (C16 to C22). The
//! layer above calls `check`, which returns exactly that refusal, or else the program as a `Checked`.
//!
//! `specs/Limits` defines which limit a program passes first (`limits_refusal`), and `specs/AllLimits` all that it passes; a layer
//! that needs them all calls `start_refusal` and `limits_refusals`. `specs/Cased` defines how the cased keys are found.
//! `specs/Counting` and `specs/Walking` define the counts, first over the stores and then over the statements in the order of lines.
//!
//! A program that is read from a source and not refused is well named (`accepted_is_well_named`), so its tables mean what it means.
//! Its tables can be written as a file (`accepted_can_be_written`). Its key names have exactly the codes of its dictionary
//! (`keys_have_codes`). The counts that the limits compute from its statements are the counts of that file (`limits_count_the_file`).
//! For these laws the crate depends on the definitions of `kmx_format`. A layer above calls a function with an empty body for the
//! law in its contract, which `specs/Laws` states, or cites the lemmas in `proofs/`.
#![tactic(auto)]

mod cased;
mod checking;
mod counting;
mod key_codes;
mod laws;
mod limits;
mod listing;
mod spelled;
mod totals;
mod values;
mod walking;

pub use checking::{Checked, check, start_refusal};
pub use laws::{
    accepted_can_be_written, accepted_is_well_named, keys_have_codes, limits_count_the_file,
};
pub use listing::limits_refusals;
