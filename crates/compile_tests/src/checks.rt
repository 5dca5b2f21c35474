//! Sources, which `opened_source` reads, each followed by ` ⇒ ` and its first refusal or `ok`.

use crate::rows::opened_source;
use kmn_base::CompileError;
use kmn_compiler::front;
use source_tests::fixtures::{is_refusal, is_row, parted};
use std::alloc::Global;
use std::test::Fail;

/// What a program must have, and the names of its stores and groups.
const NAMES: &str = r##"== a program needs a start group for Unicode
A: ⇒ C01 1
A:¶¶store(a) 'x' ⇒ C01 1
A:begin ANSI > use(main)¶group(main) using keys¶+ 'a' > 'b' ⇒ C01 1
A:group(g)¶'a' > 'b' ⇒ C01 1
A:group(g)¶group(g) ⇒ C01 1
A:store(a) $b ⇒ C01 1
A:begin ANSI > use(x) ⇒ C01 1
A:begin ANSI > use(x)¶begin ANSI > use(x) ⇒ C01 1
A:group(g)¶> call(x) ⇒ C01 1
== a fault of a line precedes the missing start group
A:¶) ⇒ S01 2
A:begin Unicode use(g) ⇒ S04 1
== which start groups suffice
A:begin Unicode > use(main)¶group(main) ⇒ ok
A:group(g)¶'a' > 'b'¶begin unicode > use(G) ⇒ ok
A:begin Unicode > use(main) ⇒ C06 1
== a second start group of one kind
K:begin Unicode > use(main) ⇒ C02 3
K:+ 'a' > 'b'¶BEGIN UNICODE > use(main) ⇒ C02 4
K:begin Unicode > use(nosuch) ⇒ C02 3
K:begin ANSI > use(main) ⇒ ok
K:begin ANSI > use(main)¶begin ansi > use(main) ⇒ C02 4
K:begin ANSI > use(x)¶begin ANSI > use(main) ⇒ C06 3
A:begin ANSI > use(m)¶begin Unicode > use(m)¶begin ANSI > use(x)¶group(m) ⇒ C02 3
A:begin Unicode > use(m)¶begin Unicode > use(m)¶begin Unicode > use(x)¶group(m) ⇒ C02 2
== a second store of one name
K:store(a)¶store(a) ⇒ C03 4
K:store(a) 'x'¶store(b) 'x'¶store(A) 'y' ⇒ C03 5
K:+ 'a' > $a¶store(a)¶group(b)¶store(a) ⇒ C03 6
K:store(a)¶store(a) $z ⇒ C03 4
K:store(a)¶store(a) $b¶store(b) ⇒ C03 4
== the first refused line counts
K:store(a)¶store(b) $z¶store(a) ⇒ C05 4
K:store(a)¶store(a)¶store(b) $z ⇒ C03 4
== system stores may be repeated, and only ASCII letters ignore case
K:store(&name) 'x'¶store(&name) 'y'¶store(name) 'z' ⇒ ok
K:store(&language) 'x'¶store(&language) 'y' ⇒ ok
K:store(é)¶store(É) ⇒ ok
K:store(U+0041)¶store(A) ⇒ ok
K:store(U+0041)¶store(u+0041) ⇒ C03 4
K:store(main)¶+ 'a' > dk(main) ⇒ ok
== a second group of one name
K:group(main) ⇒ C04 3
K:group(MAIN) using keys ⇒ C04 3
K:group(a)¶group(b)¶group(a) using keys ⇒ C04 5
K:group(a)¶> use(x)¶group(a) ⇒ C06 4
K:group(a)¶group(A)¶> use(x) ⇒ C04 4
K:group(é)¶group(É) ⇒ ok
== each place in which the name of a store can be
K:any(q) + 'a' > 'b' ⇒ C05 3
K:notany(q) + 'a' > 'b' ⇒ C05 3
K:+ any(q) > 'b' ⇒ C05 3
K:if(q = "v") + 'a' > 'b' ⇒ C05 3
K:if(q != "v") + 'a' > 'b' ⇒ C05 3
K:+ 'a' > outs(q) ⇒ C05 3
K:+ 'a' > 'b' $q ⇒ C05 3
K:+ 'a' > set(q = "v") ⇒ C05 3
K:+ 'a' > save(q) ⇒ C05 3
K:+ 'a' > reset(q) ⇒ C05 3
S:any(v) index(q,1) + 'a' > 'b' ⇒ C05 8
S:any(v) + 'a' > index(q,1) ⇒ C05 8
K:store(a) outs(q) ⇒ C05 3
K:store(&name) $q ⇒ C05 3
K:store(&language) $q ⇒ C05 3
K:store(&casedkeys) $q ⇒ C05 3
K:match > $q ⇒ C05 3
K:nomatch > save(q) ⇒ C05 3
== system stores and groups are not stores that a rule can name
K:store(&version) '10.0'¶any(&version) + 'a' > 'b' ⇒ C05 4
K:store(&name) 'x'¶+ 'a' > $name ⇒ C05 4
K:+ 'a' > $main ⇒ C05 3
== the line of a statement is its first physical line, and skipped lines count
K:store(s) 'a' \¶$q ⇒ C05 3
K:$keymanweb: + 'a' > $q¶¶c x¶+ 'a' > $q ⇒ C05 6
== a store can be stated after its use, in another case
K:any(q) + 'a' > $q¶store(Q) 'a' ⇒ ok
K:store(Q) 'a'¶notany(q) + any(q) > save(x)¶store(X) ⇒ ok
== each place in which the name of a group can be
K:+ 'a' > use(q) ⇒ C06 3
K:match > use(q) ⇒ C06 3
K:nomatch > beep use(q) ⇒ C06 3
K:begin ANSI > use(q) ⇒ C06 3
K:store(q)¶+ 'a' > use(q) ⇒ C06 4
== in one statement the first item counts, context before key before output
K:+ 'a' > use(x) $y ⇒ C06 3
K:+ 'a' > $y use(x) ⇒ C05 3
K:any(y) + 'a' > use(x) ⇒ C05 3
== between statements the first line counts
K:+ 'a' > use(x)¶store(a) $y ⇒ C06 3
A:begin Unicode > use(x)¶store(a)¶store(a) ⇒ C06 1
K:+ 'a' > use(Q)¶group(q)¶> use(MAIN) ⇒ ok
== a store names only stores above it
K:store(a) $b¶store(b) 'x' ⇒ C07 3
K:store(a) outs(a) ⇒ C07 3
K:store(v) 'x'¶store(a) $v $A ⇒ C07 4
K:store(&name) $a¶store(a) 'x' ⇒ C07 3
K:store(&language) $a¶store(a) 'x' ⇒ C07 3
== the order of C05, C07 and C03
K:store(a) $z $b¶store(b) ⇒ C05 3
K:store(a) $b $z¶store(b) ⇒ C07 3
K:store(a) $b¶store(b)¶store(b) ⇒ C07 3
== where a later store may be named
K:+ 'a' > $b¶store(b) 'x' ⇒ ok
K:store(b) 'x'¶store(a) $b outs(B)¶store(&name) $a $b ⇒ ok
== a second match or nomatch of a group
K:match > 'a'¶match > 'b' ⇒ C15 4
K:nomatch > 'a'¶+ 'x' > 'y'¶nomatch > 'b' ⇒ C15 5
K:match > 'a'¶nomatch > beep¶match > nul ⇒ C15 5
K:group(b)¶match > 'a'¶match > 'a' ⇒ C15 5
== the order of C15 and the other codes
K:match > 'a'¶match > $q ⇒ C15 4
K:match > $q¶match > 'a' ⇒ C05 3
K:match > context¶match > 'a' ⇒ C15 4
K:match > 'a'¶match > 'b'¶store(a)¶store(a) ⇒ C15 4
K:store(a)¶store(a)¶match > 'a'¶match > 'b' ⇒ C03 4
K:match > 'a'¶nomatch > 'b'¶group(b)¶nomatch > 'a'¶match > 'b' ⇒ ok"##;

/// Offsets, and the keys of rules.
const PLACES: &str = r##"== offsets in an output: from 1 to the number of items before the arrow
S:any(v) + 'a' > index(v,0) ⇒ C08 8
S:any(v) + 'a' > context(0) ⇒ C08 8
S:any(v) + 'a' > context(000) ⇒ C08 8
S:any(v) + 'a' > context(2) ⇒ C08 8
S:any(v) + any(v) > context(2) ⇒ C08 8
S:any(v) + any(v) > index(v,3) ⇒ C08 8
S:any(v) + any(v) > index(v,999999999) ⇒ C08 8
S:+ 'a' > context(1) ⇒ C08 8
S:+ any(v) > index(v,2) ⇒ C08 8
== offsets in a context: only items before
S:any(v) context(0) + 'a' > 'b' ⇒ C08 8
S:any(v) context(2) + 'a' > 'b' ⇒ C08 8
S:any(v) context(3) + 'a' > 'b' ⇒ C08 8
S:context(1) any(v) + 'a' > 'b' ⇒ C08 8
== conditions count as items for offsets, but no offset may name one
S:if(&layer = "s") any(v) + 'a' > index(v,1) ⇒ C08 8
S:if(&layer = "s") any(v) + 'a' > index(v,2) ⇒ ok
== offsets of the item itself and of later items
S:context(2) any(v) + 'a' > 'b' ⇒ C08 8
S:any(v) index(v,0) + 'a' > 'b' ⇒ C08 8
S:any(v) index(v,2) + 'a' > 'b' ⇒ C08 8
S:any(v) index(v,3) + any(v) > 'b' ⇒ C08 8
S:index(v,1) any(v) + 'a' > 'b' ⇒ C08 8
S:index(v,2) any(v) + 'a' > 'b' ⇒ C08 8
== offsets of conditions and of nul
S:if(o = "0") 'a' + 'b' > context(1) ⇒ C08 8
S:nul 'a' + 'b' > context(1) ⇒ C08 8
S:if(o = "0") any(v) + 'b' > index(v,1) ⇒ C08 8
S:nul any(v) + 'b' > index(v,1) ⇒ C08 8
S:if(o = "0") context(1) + 'b' > 'c' ⇒ C08 8
S:nul context(1) + 'b' > 'c' ⇒ C08 8
S:nul index(v,1) + 'b' > 'c' ⇒ C08 8
== match and nomatch have no items
S:match > index(v,0) ⇒ C08 8
S:nomatch > context(0) ⇒ C08 8
== the key is no item of the context
K:store(v) 'ab'¶any(v) index(v,2) + any(v) > 'c' ⇒ C08 4
K:store(v) 'ab'¶any(v) + any(v) index(v,2) > 'c' ⇒ S05 4
== groups that do not use keys
N:any(v) > index(v,2) ⇒ C08 8
N:any(v) > context(2) ⇒ C08 8
N:> context(1) ⇒ C08 8
N:> index(v,1) ⇒ C08 8
== C08 after all faults of names, before C09
S:any(v) + 'a' > context(0) $q ⇒ C05 8
S:any(v) + 'a' > context(0)¶match > 'a'¶match > 'a' ⇒ C15 10
K:store(v) 'ab'¶any(v) any(v) + '1' > index(v,4) ⇒ C08 4
K:store(v) 'ab'¶any(v) any(v) + '1' > index(v,3) ⇒ C09 4
== index needs any at its offset
S:+ 'a' > index(v,1) ⇒ C09 8
S:+ [K_A] > index(v,1) ⇒ C09 8
S:any(v) + 'a' > index(v,2) ⇒ C09 8
S:'a' + 'b' > index(v,1) ⇒ C09 8
S:notany(v) + 'b' > index(v,1) ⇒ C09 8
S:dk(x) + any(v) > index(v,1) ⇒ C09 8
S:any(v) index(v,1) + 'b' > index(v,2) ⇒ C09 8
S:any(v) context(1) + 'a' > index(v,2) ⇒ C09 8
S:'a' index(v,1) + 'b' > 'c' ⇒ C09 8
S:notany(v) index(v,1) + 'b' > 'c' ⇒ C09 8
N:'a' > index(v,1) ⇒ C09 8
== the first item counts
S:'a' + 'b' > index(v,1) index(v,9) ⇒ C09 8
S:'a' + 'b' > index(v,9) index(v,1) ⇒ C08 8
S:'a' index(v,1) + U+10000 > context(0) ⇒ C09 8
S:'a' + 'b' > index(v,1)¶'a' + 'b' > context(0) ⇒ C09 8
== offsets that are right
S:any(v) + any(v) > index(v,2) ⇒ ok
S:+ any(v) > index(v,1) ⇒ ok
S:'a' + any(k) > index(v,2) context(1) ⇒ ok
S:any(v) any(v) + 'a' > index(v,1) index(v,02) context(2) ⇒ ok
S:any(v) context(1) + 'a' > 'b' ⇒ ok
S:any(v) index(v,1) + 'a' > 'b' ⇒ ok
S:if(o = "0") any(v) + 'b' > index(v,2) context(2) ⇒ ok
S:if(o = "0") nul any(v) index(v,3) + any(v) > index(v,3) index(v,5) ⇒ ok
S:'a' context(1) context(2) notany(v) dk(x) + 'b' > context(3) context(4) context(5) ⇒ ok
S:any(k) + any(v) > index(k,1) index(k,2) ⇒ ok
N:any(v) > index(v,1) context(1) context ⇒ ok
N:> context ⇒ ok
== keys and marks that no press and no store can have
S:+ U+10000 > 'b' ⇒ C10 8
S:+ U+10FFFF > 'b' ⇒ C10 8
S:+ '😀' > 'b' ⇒ C10 8
S:'a' + d65536 > 'b' ⇒ C10 8
S:+ any(e) > 'b' ⇒ C10 8
S:+ any(m) > 'b' ⇒ C10 8
S:store(x) 'a' U+10000¶+ any(x) > 'b' ⇒ C10 9
S:store(x) [K_A] dk(x) 'a'¶+ any(x) > 'b' ⇒ C10 9
S:store(x) 'a' $m¶+ any(x) > 'b' ⇒ C10 9
S:store(x) $e ''¶+ any(x) > 'b' ⇒ C10 9
K:+ any(x) > 'b'¶store(x) ⇒ C10 3
== the order of C10 and the other codes
S:'a' + U+10000 > context(0) ⇒ C10 8
S:context(0) + U+10000 > 'b' ⇒ C08 8
S:+ U+10000 > call(x) ⇒ C10 8
S:+ any(e) > index(e,1) ⇒ C10 8
S:+ any(e) > save(e) ⇒ C10 8
== keys that are right
S:+ U+FFFE > 'b' ⇒ ok
S:+ any(v) > 'b'¶+ any(k) > 'b'¶+ [T_x] > 'b' ⇒ ok
S:store(x) 'a' $k $e U+FFFE¶+ any(X) > 'b' ⇒ ok
S:U+10000 any(e) notany(m) any(m) + 'a' > U+10FFFF $m ⇒ ok"##;

/// Features that the compiler does not support, option stores, and system stores.
const PROFILE: &str = r##"== call is not supported
K:+ 'a' > call(d) ⇒ C11 3
K:match > 'a' call(d) ⇒ C11 3
K:nomatch > call('d') ⇒ C11 3
K:+ 'a' > \¶call(d) ⇒ C11 3
== the order of C11 and the other codes
K:+ 'a' > call(d) switch(x) ⇒ C11 3
K:+ 'a' > switch(x) call(d) ⇒ C12 3
K:+ 'a' > call(d)¶store(&capsononly) '1' ⇒ C11 3
K:store(&capsononly) '1'¶+ 'a' > call(d) ⇒ C12 3
K:+ 'a' > call(d)¶any(q) + 'b' > 'c' ⇒ C05 4
K:+ 'a' > call(d) context(0) ⇒ C11 3
== call as a name
K:store(call) 'a'¶+ 'a' > $call dk(call) 'call' ⇒ ok
== virtual keys in an output
S:+ 'a' > [K_A] ⇒ C12 8
S:+ 'a' > 'b' [T_x] ⇒ C12 8
S:+ 'a' > $k ⇒ C12 8
S:+ 'a' > 'b' outs(k) ⇒ C12 8
S:store(x) 'a' $k¶+ 'a' > $x ⇒ C12 9
S:match > $k ⇒ C12 8
S:nomatch > [K_A] ⇒ C12 8
== words of the Keyman language that are not supported
K:+ 'a' > switch(x) ⇒ C12 3
K:+ 'a' > clearcontext ⇒ C12 3
K:+ 'a' > fix ⇒ C12 3
== the forms of the layer and the platform
K:+ 'a' > layer(x) ⇒ S02 3
K:+ 'a' > set(&x = "v") ⇒ C12 3
K:+ 'a' > set(&platform = "v") ⇒ C12 3
K:+ 'a' > set(&layer = v) ⇒ S02 3
K:+ 'a' > platform("v") ⇒ S06 3
K:platform(x) + 'a' > 'b' ⇒ S02 3
K:layer(x) + 'a' > 'b' ⇒ S02 3
K:'a' platform("v") + 'a' > 'b' ⇒ S09 3
K:'a' baselayout(x) + 'a' > 'b' ⇒ S09 3
== conditions on other system options
K:baselayout(x) + 'a' > 'b' ⇒ C12 3
K:if(&x = "v") + 'a' > 'b' ⇒ C12 3
K:if(&x != "v") + 'a' > 'b' ⇒ C12 3
K:baselayout(x) 'a' + 'b' > context(1) ⇒ C12 3
== conditions on the layer and the platform count as items
K:platform("v") 'a' + 'b' > context(1) ⇒ C08 3
K:platform("v") 'a' + 'b' > context(2) ⇒ ok
K:if(&LAYER = "v") layer("") if(&platform != "v") + 'a' > set(&Layer = "v") layer("w") ⇒ ok
== the first item of a statement counts
K:baselayout(x) + U+10000 > call(x) ⇒ C12 3
K:'a' + 'b' > fix context(0) ⇒ C12 3
K:'a' + 'b' > context(0) fix ⇒ C08 3
== context and index in match and nomatch
S:match > context ⇒ C12 8
S:match > context(1) ⇒ C12 8
S:match > index(v,1) ⇒ C12 8
S:nomatch > context ⇒ C12 8
S:nomatch > context(9) ⇒ C12 8
S:nomatch > 'a' index(v,9) ⇒ C12 8
N:match > context ⇒ C12 8
== system stores that are not supported
K:store(&includecodes) 'x' ⇒ C12 3
K:store(&capsalwaysoff) '1' ⇒ C12 3
K:store(&CapsOnOnly) '1' ⇒ C12 3
K:store(&shiftfreescaps) dk(x) ⇒ C12 3
== versions other than 6.0 to 10.0 and 14.0 to 17.0
K:store(&version) '5.0' ⇒ C12 3
K:store(&version) '11.0' ⇒ C12 3
K:store(&version) '18.0' ⇒ C12 3
K:store(&version) '10' ⇒ C12 3
K:store(&version) '10.0 ' ⇒ C12 3
K:store(&version) '010.0' ⇒ C12 3
K:store(&version) ⇒ C12 3
K:store(&version) '' ⇒ C12 3
K:store(&version) '10.0'¶store(&version) '5.0' ⇒ C12 4
== a mnemonic layout other than 0
K:store(&mnemoniclayout) '1' ⇒ C12 3
K:store(&mnemoniclayout) '00' ⇒ C12 3
K:store(&mnemoniclayout) ⇒ C12 3
K:store(&mnemoniclayout) '0'¶store(&mnemoniclayout) '1' ⇒ C12 4
== names precede features
K:store(&version) '5.0'¶store(a) $q ⇒ C05 4
K:+ 'a' > $x¶+ 'b' > save(x)¶store(x) [K_A] ⇒ C12 3
== versions and layouts that are right, spelled in every way
K:store(&version) '6.0'¶store(&version) '7.0'¶store(&version) '8.0'¶store(&version) '9.0' ⇒ ok
K:store(&version) '10.0'¶store(&version) '14.0'¶store(&version) '15.0' ⇒ ok
K:store(&version) '16.0'¶store(&version) '17.0'¶store(&version) U+0039 '.' x30 ⇒ ok
K:store(x) '0.'¶store(&version) '1' $x "0" ⇒ ok
K:store(&mnemoniclayout) '0'¶store(&mnemoniclayout) d48 ⇒ ok
== outputs that are right
S:+ 'a' > $v $m $e $o ⇒ ok
S:match > $v use(main) nul return beep¶nomatch > dk(x) set(o = "1") ⇒ ok
S:store(x) $k¶any(x) index(x,1) + any(x) > index(x,1) ⇒ ok
== an option store has no other use
K:store(o) "0"¶if(o = "1") + any(o) > 'x' ⇒ C13 4
S:+ any(v) > 'x'¶+ 'a' > save(v) ⇒ C13 8
S:+ 'a' > set(o = "1") $o ⇒ C13 8
S:+ 'a' > outs(O)¶+ 'b' > RESET(o) ⇒ C13 8
S:store(x) $o¶+ 'a' > save(o) ⇒ C13 8
S:store(&name) 'x' $o¶+ 'a' > save(o) ⇒ C13 8
S:store(&language) $o¶+ 'a' > save(o) ⇒ C13 8
S:+ any(v) > index(o,1) set(o = "1") ⇒ C13 8
S:if(o != "1") any(v) + any(v) > index(o,3) ⇒ C13 8
S:match > save(v)¶+ any(v) > 'x' ⇒ C13 9
S:nomatch > reset(v) $v ⇒ C13 8
== index of an option: offsets first
S:+ any(o) > index(o,1) save(o) ⇒ C13 8
S:+ 'a' > index(o,1) save(o) ⇒ C09 8
S:+ 'a' > index(o,0) save(o) ⇒ C08 8
S:+ any(v) > index(o,2) save(o) ⇒ C08 8
S:+ any(v) > index(o,1) call(x) save(o) ⇒ C13 8
S:+ any(v) > call(x) index(o,1) save(o) ⇒ C11 8
== options and names of stores
S:store(a) $b¶store(b) 'x'¶+ 'a' > save(b) ⇒ C07 8
S:store(x) $o¶+ 'a' > $x save(x) set(o = "1") ⇒ C13 8
== uses that an option store may have
S:if(o = "ab") any(o) index(o,2) notany(o) + 'a' > index(o,2) ⇒ ok
S:any(v) + any(v) > index(o,1) save(o) reset(o) set(o = "") ⇒ ok
S:if(o != "1") + any(v) > $v index(v,2) ⇒ ok
S:+ any(o) > $o index(o,1)¶store(x) $o¶+ 'a' > save(v) ⇒ ok
== an option store has characters only; the line is that of the store
S:+ 'a' > save(k) ⇒ C14 4
S:+ any(m) > save(m) ⇒ C14 5
S:if(k = "v") + 'a' > 'b' ⇒ C14 4
S:+ 'a' > set(m = "1") $m ⇒ C14 5
S:store(x) 'a' $m¶+ 'a' > reset(x) ⇒ C14 8
S:store(x) 'a' dk(y)¶match > save(X) ⇒ C14 8
S:+ 'a' > call(x)¶+ 'b' > save(k) ⇒ C14 4
K:+ 'a' > call(x)¶+ 'b' > save(x)¶store(x) [K_A] ⇒ C11 3
K:+ 'a' > $x¶+ 'b' > save(x)¶store(x) dk(y) ⇒ C13 3
== values that come from named stores
K:store(&version) '10.00' ⇒ C12 3
K:store(v) '.0'¶store(&version) '6' $v $v ⇒ C12 4
== the first refused line, among C12, C13 and C14
K:+ 'a' > $k save(k)¶store(k) [K_A] ⇒ C12 3
K:store(o) 'x'¶store(p) dk(y) $o¶+ 'a' > save(o) save(p) ⇒ C14 4
K:store(o) 'x'¶store(p) $o dk(y)¶+ 'a' > save(o) save(p) ⇒ C13 4
K:store(o) 'x' [K_A]¶if(o = "") + 'a' > 'b' ⇒ C14 3
== a bitmap, a version and a layout have characters only
K:store(&bitmap) dk(x) ⇒ C14 3
K:store(&bitmap) 'a' [K_A] ⇒ C14 3
K:store(&bitmap) 'a'¶store(&bitmap) [T_x] ⇒ C14 4
K:store(&version) dk(x) ⇒ C14 3
K:store(&version) '5.0' [K_A] ⇒ C14 3
K:store(&version) '10.0' dk(x) ⇒ C14 3
K:store(&mnemoniclayout) [K_A] ⇒ C14 3
K:store(&mnemoniclayout) '1' dk(x) ⇒ C14 3
S:store(&version) $k ⇒ C14 8
S:store(&bitmap) 'a' $m ⇒ C14 8
K:store(&bitmap) dk(x)¶store(&version) '5.0' ⇒ C14 3
K:store(&version) '5.0'¶store(&bitmap) dk(x) ⇒ C12 3
== system stores whose elements are free
S:store(&bitmap)¶store(&bitmap) 'p.ico' $v $e ⇒ ok
S:store(&name) dk(x) [K_A]¶store(&hotkey) [CTRL K_A]¶store(&message) $k¶store(&language) dk(x) [K_A] ⇒ ok
== cased keys are virtual keys without shift words
K:store(&casedkeys) 'a' ⇒ C25 3
K:store(&casedkeys) [K_A] [SHIFT K_A] ⇒ C25 3
K:store(&casedkeys) [T_x] ⇒ C25 3
S:store(&casedkeys) $m ⇒ C25 8
K:store(&casedkeys) [K_A]¶store(&casedkeys) 'a' ⇒ C25 4
A:store(o) dk(x)¶begin Unicode > use(main)¶group(main) using keys¶store(&casedkeys) 'a'¶if(o = "1") + 'a' > 'b' ⇒ C14 1
S:store(&casedkeys) $o¶if(o = "1") + 'a' > 'b' ⇒ C13 8
K:store(&casedkeys) $k¶store(k) [K_A] ⇒ C07 3
K:store(k) [K_A]¶store(&casedkeys) [K_B] $k¶store(&casedkeys) ⇒ ok
== options that are right
S:+ 'a' > save(o) set(v = "1") reset(e) $k2¶store(k2) 'a'¶store(k3) $k $m ⇒ ok"##;

/// The limits, with rows on both sides of each.
const LIMITS: &str = r##"== a context has at most 60 items
S:⟨'a' ×60⟩+ 'b' > 'c' ⇒ ok
S:⟨'a' ×61⟩+ 'b' > 'c' ⇒ C16 8
S:'⟨a×60⟩' '' + any(v) > 'c' ⇒ ok
S:'⟨a×61⟩' + 'b' > 'c' ⇒ C16 8
S:if(o = "0") nul ⟨any(v) ×58⟩+ 'b' > index(v,60) ⇒ ok
S:if(o = "0") nul ⟨any(v) ×59⟩+ 'b' > index(v,61) ⇒ C16 8
S:⟨if(o = "0") ×61⟩+ 'b' > 'c' ⇒ C16 8
N:⟨dk(x) ×60⟩> 'c' ⇒ ok
N:⟨dk(x) ×61⟩> 'c' ⇒ C16 8
== the order of C16 and the other codes
S:⟨'a' ×61⟩+ 'b' > '⟨x×1025⟩' ⇒ C16 8
S:+ 'a' > '⟨x×1025⟩'¶⟨'a' ×61⟩+ 'b' > 'c' ⇒ C17 8
S:⟨'a' ×61⟩+ 'b' > 'c'¶+ 'a' > call(x) ⇒ C11 9
S:⟨'a' ×61⟩+ 'b' > context(0) ⇒ C08 8
S:⟨'a' ×61⟩+ 'b' > 'c'¶store(&version) '5.0' ⇒ C12 9
S:⟨'a' ×61⟩+ 'b' > 'c'¶⟨'a' ×62⟩+ 'b' > 'c' ⇒ C16 8
== an output has at most 1,024 items, after stores are expanded
K:+ 'a' > '⟨x×1024⟩' ⇒ ok
K:+ 'a' > '⟨x×1025⟩' ⇒ C17 3
K:+ 'a' > '⟨x×1023⟩' use(main) ⇒ ok
K:+ 'a' > '⟨x×1024⟩' use(main) ⇒ C17 3
S:+ 'a' > ⟨$v ×512⟩ ⇒ ok
S:+ 'a' > ⟨$v ×512⟩nul ⇒ C17 8
S:+ 'a' > ⟨outs(v) ×513⟩ ⇒ C17 8
S:+ 'a' > ⟨$e ×1025⟩ ⇒ ok
S:+ 'a' > ⟨$e ×1025⟩⟨nul ×1024⟩ ⇒ ok
S:+ 'a' > ⟨nul ×1025⟩ ⇒ C17 8
S:store(w) ⟨$v ×300⟩¶+ 'a' > $w '⟨x×424⟩' ⇒ ok
S:store(w) ⟨$v ×300⟩¶+ 'a' > $w '⟨x×425⟩' ⇒ C17 9
S:'a' + any(v) > '⟨x×1021⟩' context context(1) index(v,2) ⇒ ok
S:'a' + any(v) > '⟨x×1022⟩' context context(1) index(v,2) ⇒ C17 8
== outputs of match and nomatch
K:match > '⟨x×1024⟩' ⇒ ok
K:match > '⟨x×1025⟩' ⇒ C17 3
K:nomatch > '⟨x×1025⟩' ⇒ C17 3
== a store has at most 65,535 elements
K:store(x) '⟨a×65535⟩' ⇒ ok
K:store(x) '⟨a×65536⟩' ⇒ C18 3
K:store(&name) '⟨a×65536⟩' ⇒ C18 3
K:store(&language) '⟨a×65536⟩' ⇒ ok
K:store(x) '⟨a×32768⟩'¶store(y) $x $x ⇒ C18 4
K:store(o)¶+ 'a' > set(o = '⟨a×65535⟩') ⇒ ok
K:store(o)¶if(o = '⟨a×65536⟩') + 'a' > 'b' ⇒ C18 4
== the names of custom keys have at most 65,535 characters
K:store(&language) ⟨[T_№] ×9520⟩[T_abcd] ⇒ C18 3
== at most 20,000 stores
K:⟨store(a№)¶×20000⟩ ⇒ ok
K:⟨store(a№)¶×20001⟩ ⇒ C19 20003
== at most 1,000 groups
K:⟨group(g№)¶×999⟩ ⇒ ok
K:⟨group(g№)¶×1000⟩ ⇒ C20 1002
K:⟨group(g№)¶×1000⟩⟨group(g№)¶×1⟩ ⇒ C04 1003
== at most 5,000 deadkeys
K:store(x) ⟨dk(a№) ×5000⟩ ⇒ ok
K:store(x) ⟨dk(a№) ×5001⟩ ⇒ C21 3
K:store(&language) ⟨dk(a№) ×5001⟩ ⇒ C21 3
K:store(x) ⟨dk(a№) ×5000⟩¶dk(a1) + 'a' > dk(A2)¶+ 'a' > dk(b) ⇒ C21 5
K:⟨+ 'a' > dk(a№)¶×5001⟩ ⇒ C21 5003
K:store(x) ⟨dk(a) ×5001⟩ ⇒ ok
== at most 100,000 records
K:store(k) '⟨a×50000⟩'¶+ any(k) > 'x'¶+ any(k) > 'x'¶match > 'y'¶+ 'b' > 'c' ⇒ C22 7
K:store(&casedkeys) [K_A]¶store(k) ⟨[K_A] ×50000⟩¶+ any(k) > 'x' ⇒ ok
K:store(&casedkeys) [K_A]¶store(k) ⟨[K_A] ×49999⟩¶+ any(k) > 'x'¶+ 'b' > 'c'¶+ [K_A] > 'd' ⇒ C22 7"##;

/// Returns whether the parser and then the checker accept or refuse a row's source as the row expects.
fn is_right(alloc: Global, row: &str) -> Result<bool, Fail> {
    let (text, wanted) = parted(row)?;
    let source = opened_source(alloc, text)?;
    match front(alloc, source.as_bytes()) {
        Ok(_) => Ok(wanted == "ok"),
        Err(CompileError::Refused(refusal)) => Ok(is_refusal(refusal, wanted)),
        Err(error) => Err(error.into()),
    }
}

#[test]
fn refusals(rt: HostRuntime) -> Result<(), Fail> {
    for table in &[NAMES, PLACES, PROFILE, LIMITS] {
        for row in table.lines().filter(is_row) {
            assert!(rt; is_right(rt.alloc(), row)?, "{row}");
        }
    }
    Ok(())
}
