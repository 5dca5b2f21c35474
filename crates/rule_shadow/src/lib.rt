//! Finds records of a keyboard that are never selected because an earlier record holds whenever they do, with certificates.
//!
//! A record *covers* a later record of its group if a comparison of the two (`covers_rule`) shows that it holds whenever the
//! later one holds. A certificate names a covering record, or a position of the context with a certificate for each item that
//! the position can have.
//!
//! Use: create a `Finder` for the tables of a keyboard. `found` returns the first record that covers a record, or the first
//! position at which records cover it item by item (`specs/Finding`). `find` returns the same as a certificate. `covers` checks
//! a certificate (`specs/Covers`): it does not rely on the finder and does not allocate, and it accepts every certificate that
//! `find` returns.
//!
//! Laws: a record with a valid certificate is never selected, in any state and for any key press. A rule of a well-named
//! program never fires if all its records have valid certificates. Whenever a record holds for which `found` returns records,
//! one of these is earlier and holds too.
//!
//! Depends on `kmn_base`; `virtual_keys` (`Pressed` matches keys); `rule_model`; `indexed_tables` (`option_flags` and
//! `mark_options` mark options, `StoreSets` finds items); `kmx_format` (`IsWritable` states which tables a file can have);
//! `arrayvec`.
#![tactic(auto)]

mod cert;
mod certs;
mod covering;
mod finder;
mod finding;
mod flagged;
mod key_cover;
mod law;
mod near;
mod place_list;
mod subject;

pub use cert::Cert;
pub use finder::{Finder, covers, find};
pub use finding::Found;
pub use law::{covered_records_never_fire, covered_rules_are_dead, found_records_hold_before};
