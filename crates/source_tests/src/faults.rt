//! Sources, each with all of its refusals in the order of lines.

use crate::fixtures::{is_refusal, is_row, parted, source_of};
use kmn_base::Refusal;
use source_faults::faults;
use std::alloc::Global;
use std::test::Fail;

const REFUSALS: &str = "\
== nothing
begin Unicode > use(main)¶group(main) using keys¶+ 'a' > 'b' ⇒ none
== an empty source
 ⇒ C01 1
== five faults of five kinds in one run
store(vowel) 'aeiou'¶store(hat) 'âêîôû¶begin Unicode > use(main)¶group(main) using keys¶+ '^' > dk(waits)¶dk(waits) + any(vowel) > index(hats, 2)¶dk(waits) + any(vowel) > index(hat, 9)¶'a' > 'b'¶+ [K_AA] > 'c' ⇒ L03 2, C05 6, C08 7, S08 8, S11 9
== a store whose quote stays open is stated all the same
store(v) 'aeiou¶begin Unicode > use(main)¶group(main) using keys¶any(v) + 'x' > index(v, 1)¶+ any(v) > 'y' ⇒ L03 1
== a store whose bracket lacks is stated all the same
store(v 'aeiou'¶begin Unicode > use(main)¶group(main) using keys¶+ any(v) > 'y' ⇒ S02 1
== a misspelt store line: its words are spared
stoer(v) 'aeiou'¶begin Unicode > use(main)¶group(main) using keys¶+ any(v) > index(v, 1)¶+ any(w) > 'y' ⇒ S01 1, C05 5
== a word in quotes of a refused line is no store stated before
store(a) 'x' dk(¶store(x) 'y'¶begin Unicode > use(main)¶group(main) using keys¶+ any(x) > outs(a) ⇒ S02 1
== a name that is nowhere stated is told once
begin Unicode > use(main)¶group(main) using keys¶+ any(v) > 'a'¶any(v) + 'b' > 'c'¶any(V) + 'd' > outs(v) ⇒ C05 3
== two such names in a line: the first, and the other where it comes again
begin Unicode > use(main)¶group(main) using keys¶any(v) any(w) + 'b' > 'c'¶any(v) any(w) + 'd' > 'c' ⇒ C05 3, C05 4
== a store with such a name is no key store to be told
store(k) 'a' outs(nowhere) 'b'¶begin Unicode > use(main)¶group(main) using keys¶+ any(k) > 'x' ⇒ C05 1
== outs of a later store, in each line
store(a) outs(b)¶store(c) outs(b)¶store(b) 'x'¶begin Unicode > use(main)¶group(main) using keys¶+ any(a) > 'y'¶+ any(c) > 'z' ⇒ C07 1, C07 2
== a group line that breaks off
begin Unicode > use(main)¶group(main using keys¶+ 'a' > 'b'¶+ 'c' > use(main) ⇒ S02 2
== using keys misspelt
begin Unicode > use(main)¶group(main) using key¶+ 'a' > 'b'¶'a' + 'c' > 'd' ⇒ S01 2
== using keys left out is told once
begin Unicode > use(main)¶group(main)¶+ 'a' > 'b'¶+ 'c' > 'd'¶+ 'e' > index(v, 1) ⇒ S07 3, C05 5
== using keys too much is told once
begin Unicode > use(main)¶group(main) using keys¶'a' > 'b'¶'c' > 'd' ⇒ S08 3
== a + that lacks among rules that have it
begin Unicode > use(main)¶group(main) using keys¶+ 'a' > 'b'¶'c' > 'd'¶'e' > 'f'¶+ 'g' > 'h' ⇒ S08 4, S08 5
== a + too much among rules without
begin Unicode > use(main)¶group(main) using keys¶+ 'a' > use(g)¶group(g)¶'a' > 'b'¶'c' + 'd' > 'e'¶'f' + 'g' > 'h' ⇒ S07 6, S07 7
== no group line at all
begin Unicode > use(main)¶+ 'a' > 'b'¶+ 'c' > 'd' ⇒ C06 1, S03 2
== a misspelt group line
begin Unicode > use(main)¶gruop(main) using keys¶+ 'a' > 'b'¶+ 'c' > use(main) ⇒ S01 2
== a begin without >
begin Unicode use(main)¶group(main) using keys¶+ 'a' > 'b' ⇒ S04 1
== a misspelt begin
begn Unicode > use(main)¶group(main) using keys¶+ 'a' > 'b' ⇒ S03 1
== a begin of a group that there is not
begin Unicode > use(mian)¶group(main) using keys¶+ 'a' > 'b' ⇒ C06 1
== second statements
begin Unicode > use(main)¶group(main) using keys¶store(a) 'x'¶store(A) 'y'¶begin Unicode > use(main)¶+ any(a) > outs(a)¶match > nul¶match > beep¶group(MAIN) using keys¶+ 'b' > 'c'¶match > nul ⇒ C03 4, C02 5, C15 8, C04 9
== offsets
store(v) 'ab'¶begin Unicode > use(main)¶group(main) using keys¶any(v) 'x' + '1' > index(v, 2)¶any(v) + '2' > index(v, 4)¶any(v) + '3' > context(0)¶+ '4' > index(v, 1) ⇒ C09 4, C08 5, C08 6, C09 7
== keys that are none
store(k) 'a' dk(1)¶store(e)¶begin Unicode > use(main)¶group(main) using keys¶+ any(k) > 'x'¶+ any(e) > 'y'¶+ U+10400 > 'z'¶dk(1) + 'q' > dk(1) ⇒ C10 5, C10 6, C10 7
== what is left out
begin Unicode > use(main)¶group(main) using keys¶+ 'a' > call(f)¶+ 'b' > fix¶+ 'c' > [K_A]¶store(&shiftfreescaps) '1' ⇒ C11 3, C12 4, C12 5, C12 6
== options
store(o) '1' dk(x)¶store(p) outs(o)¶begin Unicode > use(main)¶group(main) using keys¶if(o = '1') + any(p) > set(o = '2')¶+ 'b' > outs(o) dk(x)¶dk(x) + 'c' > 'd' ⇒ C14 1, C13 2, C10 5, C13 6
== two contexts that are too long
begin Unicode > use(main)¶group(main) using keys¶'aaaaaaaaaaaaaaaaaaaaaaaaaaaaaaaaaaaaaaaaaaaaaaaaaaaaaaaaaaaaa' + 'b' > 'c'¶'dddddddddddddddddddddddddddddddddddddddddddddddddddddddddddddd' + 'b' > 'c' ⇒ C16 3, C16 4
== a joined line bears the number of its first
begin Unicode > use(main)¶group(main) using keys¶+ 'a' > \\¶  'b' \\¶  outs(v) ⇒ C05 3
== tokens before statements, statements before names
begin Unicode > use(main)¶group(main) using keys¶+ 'a' > outs(v)¶+ 'b'¶+ 'c' > 'd ⇒ C05 3, S04 4, L03 5
== a version that is none
store(&version) '9.5'¶store(&bogus) 'x'¶begin Unicode > use(main)¶group(main) using keys¶+ 'a' > 'b' ⇒ C12 1, S12 2
== W01: a refused line names it
store(a) 'x'¶begin Unicode > use(main)¶group(main) using keys¶+ 'q' > outs(a) 'b ⇒ L03 4";

/// Returns whether a source has all refusals of its row, and no others.
fn is_refused(alloc: Global, row: &str) -> Result<bool, Fail> {
    let (source, wanted) = parted(row)?;
    let source = source_of(alloc, source)?;
    let refusals = faults(alloc, source.as_bytes())?;
    let mut sorted = Vec::from_slice(alloc, refusals.as_slice())?;
    sorted.sort_by_key(|refusal: &Refusal| refusal.line)?;
    Ok(are_refusals(sorted.as_slice(), wanted))
}

/// Returns whether an expected result has the codes and the lines of refusals.
pub fn are_refusals(refusals: &[Refusal], wanted: &str) -> bool {
    if wanted == "none" {
        return refusals.is_empty();
    }
    let mut place = 0;
    for one in wanted.split(", ") {
        match refusals.get(place) {
            Some(refusal) if is_refusal(*refusal, one) => place += 1,
            _ => return false,
        }
    }
    place == refusals.len()
}

#[test]
fn all_refusals_of_sources(rt: HostRuntime) -> Result<(), Fail> {
    for row in REFUSALS.lines().filter(is_row) {
        assert!(rt; is_refused(rt.alloc(), row)?, "{row}");
    }
    Ok(())
}
