//! Copies the tables of a file into memory, part by part.

ghost use Rattle.std.specs.Prelude.{◌≡◌, IfOk};

use kmn_base::{Memory, Seq};
use kmx_parts::{FileGroup, FileRule, FileStore, FileTables};
use rule_model::{Group, Rule, Store, Tables};
use std::alloc::Global;

/// Copies the tables of a file.
pub(crate) fn copied(alloc: Global, file: &FileTables<'_>) -> Result<Tables, Memory>
    ensures { IfOk result (λ copy. copy ≡ file.now) }
{
    Ok(Tables {
        version: file.version(),
        start_ansi: file.start_ansi(),
        start_unicode: file.start_unicode(),
        stores: copied_stores(alloc, file)?,
        groups: copied_groups(alloc, file)?,
    })
}

fn copied_stores(alloc: Global, file: &FileTables<'_>) -> Result<Seq<Store>, Memory>
    ensures { IfOk result (λ copy. copy ≡ file.now.stores) }
{
    let mut stores = Seq::new(alloc);
    for store in file.stores() {
        stores.add(copied_store(alloc, &store)?)?;
    }
    Ok(stores)
}

fn copied_store(alloc: Global, store: &FileStore<'_>) -> Result<Store, Memory>
    ensures { IfOk result (λ copy. copy ≡ store.now) }
{
    Ok(Store {
        system: store.system(),
        name: store.name(alloc)?,
        elements: Seq::from_vec(store.elements().collect(alloc)?),
    })
}

fn copied_groups(alloc: Global, file: &FileTables<'_>) -> Result<Seq<Group>, Memory>
    ensures { IfOk result (λ copy. copy ≡ file.now.groups) }
{
    let mut groups = Seq::new(alloc);
    for group in file.groups() {
        groups.add(copied_group(alloc, &group)?)?;
    }
    Ok(groups)
}

fn copied_group(alloc: Global, group: &FileGroup<'_>) -> Result<Group, Memory>
    ensures { IfOk result (λ copy. copy ≡ group.now) }
{
    Ok(Group {
        name: group.name(alloc)?,
        using_keys: group.using_keys(),
        rules: copied_rules(alloc, group)?,
        on_match: Seq::from_vec(group.on_match().collect(alloc)?),
        on_nomatch: Seq::from_vec(group.on_nomatch().collect(alloc)?),
    })
}

fn copied_rules(alloc: Global, group: &FileGroup<'_>) -> Result<Seq<Rule>, Memory>
    ensures { IfOk result (λ copy. copy ≡ group.now.rules) }
{
    let mut rules = Seq::new(alloc);
    for rule in group.rules() {
        rules.add(copied_rule(alloc, &rule)?)?;
    }
    Ok(rules)
}

fn copied_rule(alloc: Global, rule: &FileRule<'_>) -> Result<Rule, Memory>
    ensures { IfOk result (λ copy. copy ≡ rule.now) }
{
    Ok(Rule {
        line: rule.line(),
        place: rule.source_place(),
        key: rule.key(),
        context: Seq::from_vec(rule.context().collect(alloc)?),
        output: Seq::from_vec(rule.output().collect(alloc)?),
    })
}
