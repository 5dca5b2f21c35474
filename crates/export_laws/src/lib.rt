//! The law of two engines for exported files: an export of which nothing is reported types the same texts in Keyman's own engine as the given
//! file does in this product.
//!
//! It depends on `core_laws` for the same law of tables, on `core_export` for the exporter, on `core_conversions` for what its conversions keep,
//! and on `kmx_verifier` for valid files. It contains only definitions and laws, so nothing of it runs. `specs/Laws` states the law, and `laws`
//! has it as the contract of a function with an empty body.
#![tactic(auto)]

pub mod laws;
