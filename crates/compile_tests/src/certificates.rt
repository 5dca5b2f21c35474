//! Checks of certificates that are written by hand.

use crate::sources::tables;
use kmn_base::Memory;
use rule_shadow::{Cert, Finder, covers};
use source_tests::fixtures::{is_row, parted};
use std::alloc::Global;
use std::test::Fail;

/// Records with three patterns, numbered from 0: one for each sequence of three characters `a` or `b`, in their order, and one with
/// three `any`.
const EIGHT: &str = "\
store(v) 'ab'¶H¶'a' 'a' 'a' + '1'¶'a' 'a' 'b' + '1'¶'a' 'b' 'a' + '1'¶'a' 'b' 'b' + '1'¶'b' 'a' 'a' + '1'¶\
'b' 'a' 'b' + '1'¶'b' 'b' 'a' + '1'¶'b' 'b' 'b' + '1'¶any(v) any(v) any(v) + '1'";

/// Each line has the number of a record, a certificate for it and, after ` ⇒ `, whether the certificate is valid. In a certificate,
/// a number is a `By` with this record, and `2{ 0 1 }` is a split at position 2 into the parts 0 and 1.
const CASES: &str = "\
== all eight records, split at the positions in order or in reverse
8 0{ 1{ 2{ 0 1 } 2{ 2 3 } } 1{ 2{ 4 5 } 2{ 6 7 } } } ⇒ yes
8 2{ 1{ 0{ 0 4 } 0{ 2 6 } } 1{ 0{ 1 5 } 0{ 3 7 } } } ⇒ yes
== one record: an earlier one, the record itself, and numbers that no record has
8 0 ⇒ no
8 8 ⇒ no
8 9 ⇒ no
8 4294967295 ⇒ no
== parts that cover less, in the wrong order, too few, and too many
8 2{ 0 1 } ⇒ no
8 0{ 1{ 2{ 1 0 } 2{ 2 3 } } 1{ 2{ 4 5 } 2{ 6 7 } } } ⇒ no
8 0{ 1{ 2{ 0 1 } 2{ 2 3 } } 1{ 2{ 4 5 } 2{ 6 } } } ⇒ no
8 0{ 1{ 2{ 0 1 } 2{ 2 3 } } 1{ 2{ 4 5 } 2{ 6 7 7 } } } ⇒ no
8 0{ 1{ 2{ 0 1 } 2{ 2 3 } } } ⇒ no
8 0{ } ⇒ no
== splits at a position that was split before, or that the record does not have
8 0{ 1{ 0{ 0 1 } 0{ 2 3 } } 1{ 0{ 4 5 } 0{ 6 7 } } } ⇒ no
8 0{ 1{ 3{ 0 1 } 3{ 2 3 } } 1{ 3{ 4 5 } 3{ 6 7 } } } ⇒ no
8 4294967295{ 0 1 } ⇒ no
== another record than the last, and one that does not exist
7 0{ 1{ 2{ 0 1 } 2{ 2 3 } } 1{ 2{ 4 5 } 2{ 6 7 } } } ⇒ no
0 8 ⇒ no
9 0{ 1{ 2{ 0 1 } 2{ 2 3 } } 1{ 2{ 4 5 } 2{ 6 7 } } } ⇒ no";

/// Returns the split that `}` closes: its parts are those after it was opened, and are removed.
fn closed(parts: &mut Vec<Cert>, open: &mut Vec<(u32, usize)>) -> Result<Cert, Memory> {
    let (place, first) = open.pop().unwrap_or((0, 0));
    let first = first.min(parts.len());
    Ok(Cert::Split {
        place,
        parts: parts.split_off(first)?,
    })
}

/// Reads a word of a certificate. `parts` are the parts read so far, and `open` are the open splits: the position of each, and the
/// number of parts before it.
fn read_word(
    parts: &mut Vec<Cert>,
    open: &mut Vec<(u32, usize)>,
    word: &str,
) -> Result<(), Memory> {
    if let Some((place, _)) = word.split_once("{") {
        return Ok(open.push((place.parse().unwrap_or(0), parts.len()))?);
    }
    let part = match word {
        "}" => closed(parts, open)?,
        _ => Cert::By {
            rule: word.parse().unwrap_or(0),
        },
    };
    Ok(parts.push(part)?)
}

/// Returns the certificate of a text, if it has one.
fn certificate(alloc: Global, text: &str) -> Result<Option<Cert>, Memory> {
    let mut parts = Vec::new(alloc);
    let mut open = Vec::new(alloc);
    for word in text.split(" ") {
        read_word(&mut parts, &mut open, word)?;
    }
    Ok(parts.pop())
}

/// Returns whether a record's certificate is valid or not as a line expects.
fn is_so(alloc: Global, finder: &Finder, record: &str, wanted: &str) -> Result<bool, Memory> {
    let (rule, words) = record.split_once(" ").unwrap_or((record, ""));
    let rule = rule.parse().unwrap_or(0);
    match certificate(alloc, words)? {
        Some(cert) => Ok(finder.covers(0, rule, &cert) == (wanted == "yes")),
        None => Ok(false),
    }
}

/// Returns the first case for whose certificate `covers` returns something else, if any.
fn wrong_case(alloc: Global) -> Result<Option<&'static str>, Fail> {
    let tables = tables(alloc, EIGHT)?;
    let finder = Finder::new(alloc, &tables)?;
    for case in CASES.lines().filter(is_row) {
        let (record, wanted) = parted(case)?;
        if !is_so(alloc, &finder, record, wanted)? {
            return Ok(Some(case));
        }
    }
    Ok(None)
}

#[test]
fn checks(rt: HostRuntime) -> Result<(), Fail> {
    let wrong = wrong_case(rt.alloc())?;
    assert!(rt; wrong.is_none(), "{}", wrong.unwrap_or(""));
    Ok(())
}

/// Checks a certificate without a finder, also for a group that does not exist. `find` does not search for such deep certificates.
#[test]
fn checks_alone(rt: HostRuntime) -> Result<(), Fail> {
    let tables = tables(rt.alloc(), EIGHT)?;
    let deep = "0{ 1{ 2{ 0 1 } 2{ 2 3 } } 1{ 2{ 4 5 } 2{ 6 7 } } }";
    let Some(cert) = certificate(rt.alloc(), deep)? else {
        return Ok(());
    };
    assert!(rt; covers(&tables, 0, 8, &cert));
    assert!(rt; !covers(&tables, 1, 8, &cert));
    assert!(rt; rule_shadow::find(rt.alloc(), &tables, 0, 8)?.is_none());
    Ok(())
}
