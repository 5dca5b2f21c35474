//! Finds the least byte offset of what no source can express.

ghost use Rattle.std.specs.Prelude.{◌≡◌, ◌+◌, ◌*◌, ◌<◌, ◌^◌, [], ◌∷◌, IfOk, None, length, position};
ghost use Rattle.rule_model.specs.Tab.{is_dictionary, tab_options};
ghost use Rattle.kmx_format.specs.declared.places.TheConstants.{GROUP_RULES_AT};
ghost use Rattle.kmx_format.specs.declared.sizes.TheConstants.{GROUP_BYTES, RULE_BYTES, STORE_BYTES};
ghost use Rattle.kmx_format.specs.TablesOf.{tables_of, word_at};
ghost use Rattle.kmx_verifier.specs.FaultOf.{IsValid};
ghost use Rattle.decompile_program.specs.Back.{names_for};
ghost use Rattle.kmx_decompiler.specs.Causes.{is_number};
ghost use Rattle.kmx_decompiler.specs.Places.{at_cause, cause_places, group_causes, least, rule_causes, store_causes};
ghost use Rattle.kmx_decompiler.specs.Least.{lesser};
ghost use Rattle.kmx_decompiler.specs.RecordPlaces.{HaveNearRecords};

use crate::causes::{are_unspelled_outputs, is_unspelled_context, is_unspelled_key};
use crate::options::UsedOptions;
use crate::store_causes::{NumberedStore, is_unspelled_store};
use crate::value_causes::JudgedNames;
use decompile_program::Called;
use kmn_base::Memory;
use kmx_format::places::{
    GROUP_MATCH_AT, GROUP_NOMATCH_AT, GROUP_RULES_AT, GROUPS_AT, RULE_CONTEXT_AT, RULE_OUTPUT_AT,
    STORE_ELEMENTS_AT, STORES_AT,
};
use kmx_format::sizes::{GROUP_BYTES, RULE_BYTES, STORE_BYTES};
use kmx_parts::{FileGroup, FileRule, FileTables};
use kmx_view::word_at;
use rule_model::Store;
use rule_model::system::KEY_DICTIONARY;
use std::alloc::Global;

/// Returns the least place in a file that has a cause, if any.
pub(crate) fn least_cause(
    alloc: Global,
    bytes: &[u8],
    options: &UsedOptions<'_>,
    names: &Called<'_>,
    file: &FileTables<'_>,
) -> Result<Option<u32>, Memory>
    requires tables { file.now ≡ tables_of bytes.now }
    requires options { options.now ≡ file.now }
    requires names { names.now ≡ names_for file.now }
    requires valid { IsValid bytes.now }
    ensures { IfOk result (λ place. place ≡ least (cause_places bytes.now)) }
{
    let stores = word_at(bytes, STORES_AT);
    let least = in_stores(alloc, options, names, stores, names.elements())?;
    let groups = word_at(bytes, GROUPS_AT);
    let judged = JudgedNames::new(alloc, names)?;
    Ok(in_groups(bytes, &judged, least, groups, file))
}

/// Returns the least place of the causes of stores whose records begin at a place.
#[tactic(auto, using(crate::proofs::LeastPlaces::lesser_append))]
fn in_stores(
    alloc: Global,
    options: &UsedOptions<'_>,
    names: &Called<'_>,
    place: u32,
    stores: &[Store],
) -> Result<Option<u32>, Memory>
    requires stores { stores.now ≡ options.now.stores }
    requires elements { names.now.elements ≡ options.now.stores }
    requires near { place + STORE_BYTES * length stores.now < 2 ^ 32 }
    ensures { IfOk result (λ found. found ≡ lesser (store_causes names.now (tab_options options.now) place 0 stores.now) None) }
{
    let dictionary = dictionary_number(stores);
    let mut least = None;
    let mut place = place;
    for (number, store) in stores.iter().enumerate() {
        let numbered = NumberedStore {
            number: number as u32,
            store,
            is_dictionary: is_number(number, dictionary),
        };
        let cause = is_unspelled_store(alloc, options, names, numbered)?;
        least = lesser(least, place + STORE_ELEMENTS_AT as u32, cause);
        place += STORE_BYTES as u32;
    }
    Ok(least)
}

/// Returns the number of the store that contains the key dictionary: the first one if there are several.
fn dictionary_number(stores: &[Store]) -> Option<usize>
    ensures { result ≡ position is_dictionary stores.now }
{
    stores
        .iter()
        .position(|store| store.system == KEY_DICTIONARY)
}

/// Returns whether another number is present and equal to this one.
fn is_number(number: usize, other: Option<usize>) -> bool
    ensures { result ≡ is_number number other }
{
    match other {
        Some(other) => number == other,
        None => false,
    }
}

/// Returns the lesser of the least place so far and another, which counts only if it has a cause.
fn lesser(least: Option<u32>, place: u32, cause: bool) -> Option<u32>
    ensures { result ≡ lesser (at_cause place cause) least }
{
    if !cause {
        return least;
    }
    match least {
        Some(found) => Some(found.min(place)),
        None => Some(place),
    }
}

/// Returns the least place so far, including the causes of groups whose records begin at a place.
fn in_groups(
    bytes: &[u8],
    names: &JudgedNames<'_>,
    least: Option<u32>,
    place: u32,
    file: &FileTables<'_>,
) -> Option<u32>
    requires { HaveNearRecords bytes.now place file.now.groups }
    ensures { result ≡ lesser (group_causes bytes.now names.now place file.now.groups) least }
{
    let mut least = least;
    let mut place = place;
    for group in file.groups() {
        least = in_group(bytes, names, least, place, &group);
        place += GROUP_BYTES as u32;
    }
    least
}

/// Returns the least place so far, including the causes of a group whose record begins at a place.
#[tactic(auto, using(crate::proofs::LeastPlaces::lesser_append))]
fn in_group(
    bytes: &[u8],
    names: &JudgedNames<'_>,
    least: Option<u32>,
    place: u32,
    group: &FileGroup<'_>,
) -> Option<u32>
    requires own { place + GROUP_BYTES < 2 ^ 32 }
    requires rules { word_at bytes.now (place + GROUP_RULES_AT) + RULE_BYTES * length group.now.rules < 2 ^ 32 }
    ensures { result ≡ lesser (group_causes bytes.now names.now place (group.now ∷ [])) least }
{
    let on_match = are_unspelled_outputs(names, group.on_match());
    let least = lesser(least, place + GROUP_MATCH_AT as u32, on_match);
    let on_nomatch = are_unspelled_outputs(names, group.on_nomatch());
    let least = lesser(least, place + GROUP_NOMATCH_AT as u32, on_nomatch);
    let rules = word_at(bytes, place as usize + GROUP_RULES_AT);
    in_rules(names, least, rules, group)
}

/// Returns the least place so far, including the causes of the records of a group, which begin at a place.
fn in_rules(
    names: &JudgedNames<'_>,
    least: Option<u32>,
    place: u32,
    group: &FileGroup<'_>,
) -> Option<u32>
    requires { place + RULE_BYTES * length group.now.rules < 2 ^ 32 }
    ensures { result ≡ lesser (rule_causes names.now place group.now.rules) least }
{
    let mut least = least;
    let mut place = place;
    for rule in group.rules() {
        least = in_rule(names, least, place, &rule);
        place += RULE_BYTES as u32;
    }
    least
}

/// Returns the least place so far, including the causes of a record that begins at a place.
#[tactic(auto, using(crate::proofs::LeastPlaces::lesser_append))]
fn in_rule(
    names: &JudgedNames<'_>,
    least: Option<u32>,
    place: u32,
    rule: &FileRule<'_>,
) -> Option<u32>
    requires { place + RULE_BYTES < 2 ^ 32 }
    ensures { result ≡ lesser (rule_causes names.now place (rule.now ∷ [])) least }
{
    let key = is_unspelled_key(names.called(), &rule.key());
    let least = lesser(least, place, key);
    let outputs = are_unspelled_outputs(names, rule.output());
    let least = lesser(least, place + RULE_OUTPUT_AT as u32, outputs);
    let context = is_unspelled_context(names, rule);
    lesser(least, place + RULE_CONTEXT_AT as u32, context)
}
