//! Decompiles the valid files of `kmx_verifier`: `decompile` returns the source that `decompile_program` and `decompile_text` define
//! for the tables of a file, or the reason why the file has none, and laws state that the source keeps the meaning and compiles again.
//!
//! Depends on `kmx_verifier`, whose `Verified` is a valid file; `kmx_parts`, which reads its records in place; `decompile_program` and
//! `decompile_text`, which create the text of the tables; `kmn_parser` and `rule_checker`, for the laws on the language and the
//! checker; and `kmn_compiler`, which specifies the result of a compilation. `specs/Unspelled` defines the reason why a file has no
//! text that is a source. The layer above calls `decompile`, which returns exactly the text or exactly that reason, and prints the
//! reason with `NoSpelling` (`specs/Reasons`).
//!
//! Laws in `laws`: a checker accepts the text of a file, and the text compiles to a file within the limits that means the same. A file
//! that a source compiles to has a text, unless it is too large. `specs/Written` states which properties of a parsed program this needs.
//!
//! Laws in `round_trips`: if a valid file has a text, compiling the text returns a file that takes the same steps, or runs out of
//! memory. A decompiler refuses a file that a source compiles to only if the text, or what it compiles to, is too large.
#![tactic(auto)]

mod causes;
mod counts;
mod decompiling;
mod dictionary;
mod items;
mod laws;
mod no_spelling;
mod options;
mod order;
mod places;
mod refusals;
mod round_trips;
mod store_causes;
mod stores;
mod value_causes;
mod values;

pub use decompiling::decompile;
pub use laws::{
    compiled_has_no_causes, compiled_is_in_order, compiled_lacks_no_text, names_are_text,
    read_was_written, spelled_can_be_written_out, spelled_is_spelled, spelled_items_stand,
    spelled_names_stand, spelled_rules_stand, text_fits, text_is_accepted, text_keeps_meaning,
};
pub use no_spelling::NoSpelling;
pub use refusals::DecompileError;
pub use round_trips::{compiled_files_have_texts, texts_compile};
