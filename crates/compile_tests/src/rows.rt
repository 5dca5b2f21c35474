//! The sources of rows. The text before the first `:` of a row selects the first lines of the source: `K` two lines with the group
//! `main` that uses keys, `S` these and five lines of stores, `N` the same seven lines with a group that does not use keys, and `A`
//! no lines. Then comes the source's text, which `source_of` in `source_tests` reads.

use crate::fixtures::KEYBOARD;
use source_tests::fixtures::source_of;
use std::alloc::Global;
use std::test::Fail;

const STORES: &str = "begin Unicode > use(main)\ngroup(main) using keys\n\
    store(v) 'ab'\nstore(k) [K_A] [SHIFT K_B]\nstore(m) dk(x)\nstore(e)\nstore(o) \"0\"\n";

const WITHOUT_KEYS: &str = "begin Unicode > use(main)\ngroup(main)\n\
    store(v) 'ab'\nstore(k) [K_A] [SHIFT K_B]\nstore(m) dk(x)\nstore(e)\nstore(o) \"0\"\n";

/// Returns the first lines of a row's source.
fn opening(word: &str) -> &'static str {
    match word {
        "K" => KEYBOARD,
        "S" => STORES,
        "N" => WITHOUT_KEYS,
        _ => "",
    }
}

/// Returns the source of a row.
pub fn opened_source(alloc: Global, row: &str) -> Result<String, Fail> {
    let (word, text) = row.split_once(':').ok_or("a row without an opening")?;
    let mut source = String::from_str(alloc, opening(word))?;
    source.push_str(source_of(alloc, text)?.as_str())?;
    Ok(source)
}
