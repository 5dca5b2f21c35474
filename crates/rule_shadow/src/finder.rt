//! The calls of the crate: they find certificates and check them.

ghost use Rattle.std.specs.Prelude.{◌≡◌, true, IfOk, IfSome};
ghost use Rattle.kmx_format.specs.Writable.{IsWritable};
ghost use Rattle.rule_shadow.specs.Covers.{covers};
ghost use Rattle.rule_shadow.specs.Finding.{Says, found};

use crate::cert::Cert;
use crate::certs::{covers_under, nothing_narrowed};
use crate::finding::{Found, certificate, found_for};
use crate::flagged::FlaggedTables;
use crate::subject::Subject;
use indexed_tables::{StoreSets, mark_options, option_flags};
use kmn_base::Memory;
use kmn_base::limits::STORES;
use rule_model::Tables;
use std::alloc::Global;
use std::marker::Model;

/// Returns a certificate for record `rule` of group `group`, or `None` if nothing is found. `covers` accepts it for the same
/// tables and numbers.
///
/// Errors: `Memory` if an allocation fails.
pub fn find(alloc: Global, tables: &Tables, group: u32, rule: u32) -> Result<Option<Cert>, Memory>
    requires { IsWritable tables.now }
    ensures says { IfOk result (Says (found tables.now group rule)) }
    ensures right { IfOk result (λ found. IfSome found (λ cert. covers tables.now group rule cert ≡ true)) }
{
    let finder = Finder::new(alloc, tables)?;
    finder.find(alloc, group, rule)
}

/// Returns whether a certificate is valid for record `rule` of group `group`. Does not rely on the code that made the
/// certificate, and does not allocate. If no record has these numbers, returns `false`.
#[tactic(auto, using(crate::proofs::Flags::marked_tell))]
pub fn covers(tables: &Tables, group: u32, rule: u32, cert: &Cert) -> bool
    requires { IsWritable tables.now }
    ensures { result ≡ covers tables.now group rule cert.now }
{
    let mut flags = [false; STORES];
    mark_options(&mut flags, tables);
    covers_in(
        &FlaggedTables::without_sets(tables, &flags),
        group,
        rule,
        cert,
    )
}

/// Tables with the indexes that each search uses: option flags and item sets. Contracts see the tables.
#[derive(Drop)]
pub struct Finder<'a> {
    tables: &'a Tables,
    flags: Vec<bool>,
    sets: StoreSets,
}

impl<'a> Model for Finder<'a> {
    ghost use Rattle.rule_model.specs.declared.tables.Tables.{Tables};
    ghost use Rattle.kmx_format.specs.Writable.{IsWritable};
    ghost use Rattle.indexed_tables.specs.Numbers.{AreSetsOf};
    ghost use Rattle.rule_shadow.specs.Flags.{AreOptionFlags};

    ghost Value = { Tables };

    ghost view = { λ finder. finder.tables.now };

    ghost invariant = { λ finder.
        IsWritable finder.tables.now
        × AreOptionFlags finder.tables.now finder.flags.items
        × AreSetsOf finder.tables.now.stores finder.sets };
}

impl<'a> Finder<'a> {
    /// Creates a finder: computes the option flags and the item sets of the tables.
    ///
    /// Errors: `Memory` if an allocation fails.
    pub fn new(alloc: Global, tables: &'a Tables) -> Result<Finder<'a>, Memory>
        requires { IsWritable tables.now }
        ensures { IfOk result (λ finder. finder ≡ tables.now) }
    {
        let flags = option_flags(alloc, tables)?;
        let sets = StoreSets::new(alloc, tables.stores.as_slice())?;
        Ok(Finder {
            tables,
            flags,
            sets,
        })
    }

    /// Returns the tables with the flags and the sets.
    fn flagged(&self) -> FlaggedTables<'_>
        ensures flagged { result ≡ self.now }
        ensures writable { IsWritable self.now }
    {
        FlaggedTables::new(self.tables, self.flags.as_slice(), &self.sets)
    }

    /// Returns what covers record `rule` of group `group`, both counted from 0. If there is no such record, returns `NotFound`.
    ///
    /// Errors: `Memory` if an allocation fails.
    pub fn found(&self, alloc: Global, group: u32, rule: u32) -> Result<Found, Memory>
        ensures { IfOk result (λ f. f ≡ found self.now group rule) }
    {
        let tables = self.flagged();
        found_in(alloc, &tables, group, rule)
    }

    /// Returns the result of `found` as a certificate, which `covers` accepts, or `None` if nothing is found.
    ///
    /// Errors: `Memory` if an allocation fails.
    pub fn find(&self, alloc: Global, group: u32, rule: u32) -> Result<Option<Cert>, Memory>
        ensures says { IfOk result (Says (found self.now group rule)) }
        ensures right { IfOk result (λ found. IfSome found (λ cert. covers self.now group rule cert ≡ true)) }
    {
        let found = self.found(alloc, group, rule)?;
        certificate(alloc, found)
    }

    /// Returns whether a certificate is valid for a record. If no record has these numbers, returns `false`.
    pub fn covers(&self, group: u32, rule: u32, cert: &Cert) -> bool
        ensures { result ≡ covers self.now group rule cert.now }
    {
        let tables = self.flagged();
        covers_in(&tables, group, rule, cert)
    }
}

/// Returns whether a certificate is valid for a record. If no record has these numbers, returns `false`.
#[tactic(auto, using(crate::proofs::Sound::context_fits))]
fn covers_in(tables: &FlaggedTables, group: u32, rule: u32, cert: &Cert) -> bool
    requires { IsWritable tables.now }
    ensures { result ≡ covers tables.now group rule cert.now }
{
    let number = rule;
    let Some(group) = tables.group(group) else {
        return false;
    };
    let Some(rule) = group.rules.as_slice().get(number as usize) else {
        return false;
    };
    let subject = Subject {
        tables,
        group,
        number,
        rule,
    };
    covers_under(&subject, &nothing_narrowed(), cert)
}

/// Returns what covers a record. If no record has these numbers, returns `NotFound`.
#[tactic(auto, using(crate::proofs::Sound::context_fits))]
fn found_in(alloc: Global, tables: &FlaggedTables, group: u32, rule: u32) -> Result<Found, Memory>
    requires { IsWritable tables.now }
    ensures { IfOk result (λ f. f ≡ found tables.now group rule) }
{
    let number = rule;
    let Some(group) = tables.group(group) else {
        return Ok(Found::NotFound);
    };
    let Some(rule) = group.rules.as_slice().get(number as usize) else {
        return Ok(Found::NotFound);
    };
    let subject = Subject {
        tables,
        group,
        number,
        rule,
    };
    found_for(alloc, &subject)
}
