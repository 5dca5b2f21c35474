//! Builds the tables of a program.

ghost use Rattle.std.specs.Prelude.{◌≡◌, true, find, IfOk, OnOk};
ghost use Rattle.std.specs.List.{list_all};
ghost use Rattle.rule_model.specs.Naming.{stores_of};
ghost use Rattle.rule_model.specs.Src.{is_unicode};
ghost use Rattle.store_table.specs.Numbering.{lists_of};
ghost use Rattle.compile_laws.specs.Numbers.{numbers_of, number_of_start, version_of, values_of, compiled_stores};
ghost use Rattle.compile_laws.specs.Compiles.{is_ansi};
ghost use Rattle.rule_expand.specs.Groups.{have_unit_keys};
ghost use Rattle.rule_expand.specs.CasedCodes.{cased_codes, HasCodes};
ghost use Rattle.kmx_format.specs.File.{all_rules};
ghost use Rattle.rule_expand.specs.Expanded.{expanded_tables, without_stores, HasTables};
ghost use Rattle.rule_expand.specs.Sizes.{groups_size, outline_without_stores, records_size, without_records};

use crate::cased_keys::cased_codes;
use crate::groups::{groups_of, outlines_of};
use crate::lookups::Lookups;
use crate::sizes::groups_size;
use crate::stores::{add_dictionary, add_values, first_value, statement_stores};
use crate::values::{Values, values_of};
use crate::versions::version_of;
use indexmap::IndexSet;
use kmn_base::{Memory, Seq};
use rule_checker::Checked;
use rule_model::system::NO_GROUP;
use rule_model::{BeginDef, Program, Store, Tables};
use std::alloc::Global;
use store_table::Names;

/// Returns the tables of an accepted program, each group with the records of its rules in their order.
pub fn expand(alloc: Global, checked: &Checked) -> Result<Tables, Memory>
    ensures { IfOk result (λ tables. tables ≡ expanded_tables checked.now) }
{
    expanded(alloc, checked.program(), checked.names())
}

/// Returns the tables of a program with these names.
#[tactic(auto, using(crate::proofs::ExpandedTables::tables_are))]
fn expanded(alloc: Global, program: &Program, names: &Names) -> Result<Tables, Memory>
    requires tables { HasTables program.now }
    requires names { names.now ≡ lists_of program.now }
    ensures { IfOk result (λ tables. tables ≡ expanded_tables program.now) }
{
    let values = values_of(alloc, program)?;
    let mut stores = stores_of(alloc, program, names, values.len().saturating_add(1))?;
    let mut tables = numbered(alloc, program, names, stores.as_slice(), &values)?;
    add_stores(alloc, &mut stores, program, names, &values)?;
    tables.stores = Seq::from_vec(stores);
    Ok(tables)
}

/// Returns the stores of the statements of a program, with capacity for `room` further stores.
#[tactic(auto, using(crate::proofs::ExpandedTables::stores_are))]
fn stores_of(
    alloc: Global,
    program: &Program,
    names: &Names,
    room: usize,
) -> Result<Vec<Store>, Memory>
    requires tables { HasTables program.now }
    requires names { names.now ≡ lists_of program.now }
    ensures { IfOk result (λ stores. stores.items ≡ stores_of program.now) }
{
    statement_stores(alloc, names, program.stores.as_slice(), room)
}

/// Returns the tables of a program with these stores of its statements and these values, without stores.
fn numbered(
    alloc: Global,
    program: &Program,
    names: &Names,
    stores: &[Store],
    values: &Values<'_>,
) -> Result<Tables, Memory>
    requires tables { HasTables program.now }
    requires names { names.now ≡ lists_of program.now }
    requires stores { stores.now ≡ stores_of program.now }
    requires values { values.now ≡ values_of program.now }
    ensures { IfOk result (λ tables. tables ≡ without_stores (numbers_of program.now) program.now (version_of program.now)) }
{
    let cased = cased_codes(alloc, stores)?;
    let numbers = numbers_of(program, names, stores, values, &cased);
    without_stores(alloc, &numbers, program, version_of(stores))
}

/// Returns the numbers of a program, whose cased keys have these codes.
#[tactic(auto, using(crate::proofs::ExpandedTables::numbers_are, crate::proofs::ExpandedTables::first_fits))]
fn numbers_of<'a>(
    program: &Program,
    names: &'a Names,
    stores: &'a [Store],
    values: &'a Values<'a>,
    cased: &'a IndexSet<u16>,
) -> Lookups<'a>
    requires tables { HasTables program.now }
    requires names { names.now ≡ lists_of program.now }
    requires stores { stores.now ≡ stores_of program.now }
    requires values { values.now ≡ values_of program.now }
    requires cased { HasCodes cased.now.keys (cased_codes stores.now) }
    ensures { result ≡ numbers_of program.now }
{
    let first = first_value(stores, names.keys());
    Lookups::new(names, stores, values, first, cased)
}

/// Returns the tables of a program with these numbers, without stores.
fn without_stores(
    alloc: Global,
    numbers: &Lookups<'_>,
    program: &Program,
    version: u16,
) -> Result<Tables, Memory>
    requires { list_all (have_unit_keys numbers.now.stores) program.now.groups ≡ true }
    ensures { IfOk result (λ tables. tables ≡ without_stores numbers.now program.now version) }
{
    let begins = program.begins.as_slice();
    Ok(Tables {
        version,
        start_ansi: ansi_start(numbers, begins),
        start_unicode: unicode_start(numbers, begins),
        stores: Seq::new(alloc),
        groups: groups_of(alloc, numbers, program.groups.as_slice())?,
    })
}

/// Returns the number of the group that `begin ANSI` names.
fn ansi_start(numbers: &Lookups<'_>, begins: &[BeginDef]) -> u32
    ensures { result ≡ number_of_start numbers.now (find is_ansi begins.now) }
{
    for start in begins {
        if !start.unicode {
            return numbers.group(start.group.as_slice());
        }
    }
    NO_GROUP
}

/// Returns the number of the group that `begin Unicode` names.
fn unicode_start(numbers: &Lookups<'_>, begins: &[BeginDef]) -> u32
    ensures { result ≡ number_of_start numbers.now (find is_unicode begins.now) }
{
    for start in begins {
        if start.unicode {
            return numbers.group(start.group.as_slice());
        }
    }
    NO_GROUP
}

/// Appends the stores that a file has in addition to those of the statements.
#[tactic(auto, using(crate::proofs::ExpandedTables::added_stores, crate::proofs::ExpandedTables::words_of, crate::proofs::ExpandedTables::few_names))]
fn add_stores(
    alloc: Global,
    stores: &mut Vec<Store>,
    program: &Program,
    names: &Names,
    values: &Values<'_>,
) -> Result<(), Memory>
    requires tables { HasTables program.now }
    requires names { names.now ≡ lists_of program.now }
    requires stores { stores.old.items ≡ stores_of program.now }
    requires values { values.now ≡ values_of program.now }
    ensures { OnOk result (stores.new.items ≡ compiled_stores program.now) }
{
    add_dictionary(alloc, stores, names.keys())?;
    add_values(alloc, stores, values)
}

/// The tables of a program without their records, and the size of the records.
#[derive(Drop)]
pub struct Outline {
    pub tables: Tables,
    /// The bytes of all records and their strings.
    pub records: u64,
}

/// Returns the tables of an accepted program without their records, and the size of the records. It does not build a record, so the
/// memory that it needs does not grow with their number.
pub fn outline_of(alloc: Global, checked: &Checked) -> Result<Outline, Memory>
    ensures tables { IfOk result (λ outline. outline.tables ≡ without_records (expanded_tables checked.now)) }
    ensures records { IfOk result (λ outline. outline.records ≡ records_size (all_rules (expanded_tables checked.now))) }
{
    outline_named(alloc, checked.program(), checked.names())
}

/// Returns the outline of a program with these names.
#[tactic(auto, using(crate::proofs::FileSizes::outline_is, crate::proofs::FileSizes::records_are))]
fn outline_named(alloc: Global, program: &Program, names: &Names) -> Result<Outline, Memory>
    requires tables { HasTables program.now }
    requires names { names.now ≡ lists_of program.now }
    ensures tables { IfOk result (λ outline. outline.tables ≡ without_records (expanded_tables program.now)) }
    ensures records { IfOk result (λ outline. outline.records ≡ records_size (all_rules (expanded_tables program.now))) }
{
    let values = values_of(alloc, program)?;
    let mut stores = stores_of(alloc, program, names, values.len().saturating_add(1))?;
    let mut outline = outlined(alloc, program, names, stores.as_slice(), &values)?;
    add_stores(alloc, &mut stores, program, names, &values)?;
    outline.tables.stores = Seq::from_vec(stores);
    Ok(outline)
}

/// Returns the outline of a program with these stores of its statements and these values, without stores.
#[tactic(auto, using(crate::proofs::FileSizes::groups_counted))]
fn outlined(
    alloc: Global,
    program: &Program,
    names: &Names,
    stores: &[Store],
    values: &Values<'_>,
) -> Result<Outline, Memory>
    requires tables { HasTables program.now }
    requires names { names.now ≡ lists_of program.now }
    requires stores { stores.now ≡ stores_of program.now }
    requires values { values.now ≡ values_of program.now }
    ensures tables { IfOk result (λ outline. outline.tables ≡ outline_without_stores (numbers_of program.now) program.now (version_of program.now)) }
    ensures records { IfOk result (λ outline. outline.records ≡ groups_size (numbers_of program.now) program.now.groups) }
{
    let cased = cased_codes(alloc, stores)?;
    let numbers = numbers_of(program, names, stores, values, &cased);
    let records = groups_size(alloc, &numbers, program.groups.as_slice())?;
    let begins = program.begins.as_slice();
    let tables = Tables {
        version: version_of(stores),
        start_ansi: ansi_start(&numbers, begins),
        start_unicode: unicode_start(&numbers, begins),
        stores: Seq::new(alloc),
        groups: outlines_of(alloc, &numbers, program.groups.as_slice())?,
    };
    Ok(Outline { tables, records })
}
