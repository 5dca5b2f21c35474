//! Sorts the records of compiled tables.
//!
//! Depends on `rule_model` for tables and on `compile_laws` for the order of records. `specs/Order` defines tables in order.
//! The layer above calls `order`, which does not allocate and cannot fail.
#![tactic(auto)]

mod ordering;

pub use ordering::order;
