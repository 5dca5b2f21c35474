//! The groups that keys reach, and those that are entered only without a key.

ghost use Rattle.std.specs.Prelude.{◌≡◌, ◌++◌, ◌&&◌, filter, map, not, IfOk};
ghost use Rattle.kmn_base.specs.Names.{same_name};
ghost use Rattle.import_outline.specs.Names.{has_name};
ghost use Rattle.import_outline.specs.Outline.{new_uses, with_used, reachable, unlayered, layered_groups, kept_groups, is_web_only, uses_readonly, is_plain_readonly};

use crate::names::has_name;
use crate::outline::{GroupUse, Outline};
use kmn_base::names::same_name;
use kmn_base::{Memory, Seq, Text};
use std::alloc::Global;

/// The outline of a source with its groups by what reaches them.
#[derive(Drop)]
pub struct Groups {
    /// What the source states.
    pub outline: Outline,
    /// The groups that are reached without a key.
    layered: Seq<Text>,
    /// The groups that keys reach, and those that no begin statement reaches.
    kept: Seq<Text>,
    ghost without_key: { layered ≡ layered_groups outline },
    ghost with_key: { kept ≡ kept_groups outline },
}

impl Groups {
    ghost use Rattle.std.specs.Prelude.{◌≡◌, IfOk};
    ghost use Rattle.import_outline.specs.Outline.{is_web_only, is_plain_readonly};

    /// Finds the groups of an outline. Errors: `Memory` if an allocation fails.
    pub(crate) fn of(alloc: Global, outline: Outline) -> Result<Groups, Memory>
        ensures { IfOk result (λ groups. groups.outline ≡ outline) }
    {
        let layered = reachable(
            alloc,
            outline.uses.as_slice(),
            copied_names(alloc, outline.for_layers.as_slice())?,
        )?;
        let mut names = copied_names(alloc, outline.for_keys.as_slice())?;
        names.append(unlayered(alloc, layered.as_slice(), outline.stated.as_slice())?)?;
        let kept = reachable(alloc, outline.uses.as_slice(), names)?;
        Ok(Groups {
            outline,
            layered,
            kept,
        })
    }

    /// Returns whether a group is entered only without a key.
    pub fn is_web_only(&self, name: &[u8]) -> bool
        ensures { result ≡ is_web_only self.now.outline name.now }
    {
        has_name(self.layered.as_slice(), name) && !has_name(self.kept.as_slice(), name)
    }

    /// Returns whether a readonly group that keys reach can be an ordinary group that changes no text.
    pub fn is_plain_readonly(&self, name: &[u8]) -> bool
        ensures { result ≡ is_plain_readonly self.now.outline name.now }
    {
        has_name(self.outline.readonly.as_slice(), name)
            && !self.is_web_only(name)
            && !has_name(self.outline.writing.as_slice(), name)
            && uses_readonly(
                self.outline.readonly.as_slice(),
                name,
                self.outline.uses.as_slice(),
            )
    }
}

/// Returns whether all groups that a group uses are readonly.
fn uses_readonly(readonly: &[Text], name: &[u8], uses: &[GroupUse]) -> bool
    ensures { result ≡ uses_readonly readonly.now name.now uses.now }
{
    for entry in uses {
        if same_name(name, entry.user.as_slice()) && !has_name(readonly, entry.used.as_slice()) {
            return false;
        }
    }
    true
}

/// Returns all groups that names reach. Errors: `Memory` if an allocation fails.
#[tactic(auto, using(crate::proofs::UsedGroups::used_up, crate::proofs::UsedGroups::used_more))]
fn reachable(alloc: Global, uses: &[GroupUse], names: Seq<Text>) -> Result<Seq<Text>, Memory>
    ensures { IfOk result (λ all. all ≡ reachable uses.now names) }
{
    let mut all = names;
    let mut left = uses.len();
    while left > 0 {
        let more = new_uses(alloc, uses, all.as_slice())?;
        if more.is_empty() {
            return Ok(all);
        }
        all.append(more)?;
        left -= 1;
    }
    Ok(all)
}

/// Returns the groups that groups among names use and that are not among them. Errors: `Memory` if an allocation fails.
fn new_uses(alloc: Global, uses: &[GroupUse], names: &[Text]) -> Result<Seq<Text>, Memory>
    ensures { IfOk result (λ more. more ≡ new_uses uses.now names.now) }
{
    let mut more = Seq::new(alloc);
    for entry in uses {
        if has_name(names, entry.user.as_slice()) && !has_name(names, entry.used.as_slice()) {
            more.add(entry.used.copy(alloc)?)?;
        }
    }
    Ok(more)
}

/// Returns the stated groups that are not reached without a key. Errors: `Memory` if an allocation fails.
fn unlayered(alloc: Global, layered: &[Text], stated: &[Text]) -> Result<Seq<Text>, Memory>
    ensures { IfOk result (λ names. names ≡ unlayered layered.now stated.now) }
{
    let mut names = Seq::new(alloc);
    for name in stated {
        if !has_name(layered, name.as_slice()) {
            names.add(name.copy(alloc)?)?;
        }
    }
    Ok(names)
}

/// Returns copies of names. Errors: `Memory` if an allocation fails.
fn copied_names(alloc: Global, names: &[Text]) -> Result<Seq<Text>, Memory>
    ensures { IfOk result (λ copies. copies ≡ names.now) }
{
    let mut copies = Seq::new(alloc);
    for name in names {
        copies.add(name.copy(alloc)?)?;
    }
    Ok(copies)
}
