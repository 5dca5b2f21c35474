//! The stores of a file, copied: items name them by number in any order.

ghost use Rattle.std.specs.Prelude.{◌≡◌, IfOk};

use kmn_base::{Memory, Seq};
use kmx_parts::{FileStore, FileTables};
use rule_model::system::NO_GROUP;
use rule_model::{Store, Tables};
use std::alloc::Global;

/// Copies the stores of a file into tables that have no group. The records of a file stay where they are: they can share strings, so
/// that a copy would be much larger than the file.
pub(crate) fn copied_stores(alloc: Global, file: &FileTables<'_>) -> Result<Tables, Memory>
    ensures { IfOk result (λ tables. tables.stores ≡ file.now.stores) }
{
    Ok(Tables {
        version: file.version(),
        start_ansi: NO_GROUP,
        start_unicode: 0,
        stores: stores_of(alloc, file)?,
        groups: Seq::new(alloc),
    })
}

fn stores_of(alloc: Global, file: &FileTables<'_>) -> Result<Seq<Store>, Memory>
    ensures { IfOk result (λ copy. copy ≡ file.now.stores) }
{
    let mut stores = Seq::new(alloc);
    for store in file.stores() {
        stores.add(copied_store(alloc, &store)?)?;
    }
    Ok(stores)
}

fn copied_store(alloc: Global, store: &FileStore<'_>) -> Result<Store, Memory>
    ensures { IfOk result (λ copy. copy ≡ store.now) }
{
    Ok(Store {
        system: store.system(),
        name: store.name(alloc)?,
        elements: Seq::from_vec(store.elements().collect(alloc)?),
    })
}
