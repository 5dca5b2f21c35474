//! Programs, each with all refusals of its names.

use crate::faults::are_refusals;
use crate::fixtures::{parted, source_of};
use kmn_parser::parse;
use std::alloc::Global;
use std::test::Fail;
use store_table::names_refusals;

/// Each statement has at most one refusal: those of begins come first, then those of stores, groups and rules.
const REFUSALS: &str = "\
group(m)¶any(a) > outs(b)¶'x' > use(z) outs(a)¶store(c) outs(d) ⇒ C05 4, C05 2, C06 3
store(a)¶store(a)¶begin ANSI > use(x)¶begin ANSI > use(m)¶group(m)¶group(M) ⇒ C06 3, C02 4, C03 2, C04 6
group(m)¶match > 'x'¶match > use(z)¶nomatch > use(z)¶group(n)¶match > outs(a) ⇒ C15 3, C06 4, C05 6
store(a) outs(b)¶store(b) outs(a) outs(z)¶store(c) outs(b) ⇒ C07 1, C05 2";

/// Returns whether a program has all refusals of its row.
fn is_refused(alloc: Global, row: &str) -> Result<bool, Fail> {
    let (source, wanted) = parted(row)?;
    let program = parse(alloc, source_of(alloc, source)?.as_bytes())?;
    let refusals = names_refusals(alloc, &program)?;
    Ok(are_refusals(refusals.as_slice(), wanted))
}

#[test]
fn refusals_of_names(rt: HostRuntime) -> Result<(), Fail> {
    for row in REFUSALS.lines() {
        assert!(rt; is_refused(rt.alloc(), row)?, "{row}");
    }
    Ok(())
}
