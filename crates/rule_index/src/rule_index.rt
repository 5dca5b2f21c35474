//! The index of one group's records.

ghost use Rattle.std.specs.Prelude.{◌≡◌, ◌≤◌, [], length, map, slice_index_or, IfOk};
ghost use Rattle.kmn_base.specs.declared.limits.TheConstants.{RECORDS};
ghost use Rattle.kmx_parts.specs.ContextItems.{pattern_of};
ghost use Rattle.rule_index.specs.Groups.{IsRuleIndexOf};

use crate::candidates::Candidates;
use crate::class::Class;
use crate::classes::record_classes;
use crate::contexts::{counts, record_contexts};
use crate::row::Row;
use crate::rows::rows_of;
use kmn_base::Memory;
use kmx_parts::{ContextItem, FileGroup};
use std::alloc::Global;
use std::marker::Model;

/// The records of a group, sorted by what they can match, with the context of each and the number of text items that it matches.
#[derive(Drop)]
pub struct RuleIndex {
    rows: Vec<Row>,
    contexts: Vec<Vec<ContextItem>>,
    counts: Vec<u8>,
}

impl Model for RuleIndex {
    ghost use Rattle.rule_index.specs.Groups.{listed, RuleIndexValue};

    ghost Value = { RuleIndexValue };

    ghost view = { λ index. record { rows = index.rows.items; contexts = listed index.contexts.items; counts = index.counts.items } };
}

impl RuleIndex {
    /// Creates the index of a group's records.
    pub fn new(alloc: Global, group: &FileGroup<'_>) -> Result<RuleIndex, Memory>
        requires { length group.now.rules ≤ RECORDS }
        ensures { IfOk result (λ index. IsRuleIndexOf group.now index) }
    {
        let classes = record_classes(alloc, group)?;
        let rows = rows_of(alloc, classes.as_slice())?;
        let contexts = record_contexts(alloc, group)?;
        let counts = counts(alloc, contexts.as_slice())?;
        Ok(RuleIndex {
            rows,
            contexts,
            counts,
        })
    }

    /// Returns an iterator over the records that have one of these classes.
    pub fn candidates(&self, wanted: &[Class; 6]) -> Candidates<'_>
        ensures { result ≡ record { rows = self.now.rows; wanted = wanted.now; from = 0 } }
    {
        Candidates::of(self.rows.as_slice(), wanted)
    }

    /// Returns the context of a record in the numbers of the file, or an empty context if there is no such record.
    pub fn context(&self, number: u32) -> &[ContextItem]
        ensures { map pattern_of result.now ≡ slice_index_or self.now.contexts number [] }
    {
        match self.contexts.get(number as usize) {
            Some(context) => context.as_slice(),
            None => &[],
        }
    }

    /// Returns the number of text items that the context of a record matches, or 0 if there is no such record.
    pub fn pattern_count(&self, number: u32) -> usize
        ensures { result ≡ slice_index_or self.now.counts number 0 }
    {
        match self.counts.get(number as usize) {
            Some(count) => usize::from(*count),
            None => 0,
        }
    }
}
