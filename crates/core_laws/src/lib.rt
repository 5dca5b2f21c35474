//! Laws of two engines: a keyboard of which nothing is reported types the same texts in Keyman's own engine and in this product.
//!
//! It depends on `core_meaning` for what Keyman's own engine does, on `core_constructs` for what is reported of a keyboard, on `kmx_format` for the
//! tables that can be played, and on `kmn_base`, `virtual_keys` and `rule_model` for what a keyboard means here. It contains only definitions
//! and laws, so nothing of it runs. `specs/Laws` states the two laws and their premises: `IsUntold` and `IsFair` that nothing is reported,
//! `IsPlain` what differs and is not reported, and `TypesAlike` what the laws conclude. `laws` has the laws, each the contract of a function with an
//! empty body.
#![tactic(auto)]

pub mod laws;
