//! Defines the keys of the product: their names and codes, the characters that they produce on the US layout, the presses that
//! fit the key of a rule, and the names of a keyboard's custom keys.
//!
//! Depends on `kmn_base` for the types of keys and for comparing names, on `arrayvec` for the characters of a name and on
//! `indexmap` for the dictionary. Look-ups do not allocate. The layers above call `fits` to check whether a press fits the key
//! of a rule, or `Pressed` if many keys are compared with one press, and `char_of` for the character of a press. The results
//! are `key_fits` and `char_of_press` of `specs/Fits`. They test bits of shift flags by `has` and `has_either`, and use the
//! tables of `specs/Keys` and `KeyDictionary`, which contracts model as the list of its names (`specs/Dictionary`). `codes`
//! names the keys that edit, and `laws` states the numbers of these and of the first code of a dictionary.
#![tactic(auto)]

pub mod codes;
mod dictionary;
pub mod laws;
mod names;
mod pressed;
mod presses;
mod tables;
mod unicode_names;

pub use dictionary::{FIRST_OWN_CODE, KeyDictionary};
pub use names::{key_named, modifier_named, modifiers, name_of};
pub use pressed::{Pressed, fits};
pub use presses::{char_of, has, has_either, is_plain};
pub use unicode_names::named_chars;
