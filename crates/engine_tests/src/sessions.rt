//! Tests sessions with compiled keyboards, event by event.

use crate::events::event;
use compile_tests::fixtures::compiled;
use kmn_base::{Element, Memory, Seq};
use kmx_verifier::{Verified, verify};
use play_session::{Change, Session, StepError};
use source_tests::fixtures::{is_row, put_items};
use std::alloc::Global;
use std::str;
use std::test::Fail;

/// Keyboards, each with the steps of sessions, one session in a line. A step is an event that `event` reads, a space, and the inserted
/// text, the cached context and the changed values, with `!` before a saved one, or the refusal. `*` is a mark (a deadkey in
/// the item list). The first keyboard has an option o with the value `0`, rules that test and change it, a rule that outputs a
/// deadkey, and one that deletes it. The second has two rules with a deadkey. The others test the layer and the platform, and have
/// stores with these names. The option `~layer` of the last gets the name `&layer`, which no source can express.
const KEYBOARDS: &[(&str, &str)] = &[
    (
        "begin Unicode > use(main)\nstore(o) '0'\ngroup(main) using keys\n\
        if(o = '1') + 'a' > 'x'\n+ 'a' > 'y'\n+ 's' > set(o = '1')\n+ 'v' > save(o)\n\
        + 'r' > reset(o)\n+ 'z' > set(o = '0')\n+ '`' > dk(x)\ndk(x) + 'q' > U+00E0\n",
        "\
== rules and the host set, save and reset an option
K_A y,y, ; K_S ,y,o1 ; K_A x,yx, ; K_R ,yx,o0 ; o=1 ,yx,o1!o1 ; K_Z ,yx,o0 ; K_R ,yx,o1 ; K_V ,yx,
== names without ASCII case, and names that no option has
O=0 ,,!o0 ; x=1 ,,
== caret moves and foreign edits remove deadkeys, and may be refused
K_X x,x, ; K_BKQUOTE ,x*, ; |0 ,, ; |1 ,x, ; K_A y,xy,
K_X x,x, ; K_BKQUOTE ,x*, ; -0,0,uu ,uux, ; |9 E1 ; -2,1, E1 ; -3,4, E1
== a foreign edit after the caret keeps deadkeys
K_X x,x, ; K_BKQUOTE ,x*, ; -1,1,u ,x*,
== a rule uses a deadkey
K_BKQUOTE ,*, ; K_Q à,à,",
    ),
    (
        "begin Unicode > use(main)\ngroup(main) using keys\n+ '`' > dk(g)\ndk(g) + 'a' > U+00E0\n",
        "K_BKQUOTE ,*, ; K_A à,à,",
    ),
    (
        "store(layer) 'l'\nstore(platform) 'p'\nstore(o) '0'\nbegin Unicode > use(main)\ngroup(main) using keys\n\
        if(&layer = 's') + 'a' > 'x'\nif(&platform = 'WEB') + 'a' > 'w'\nif(o = '1') + 'a' > 'o'\n+ 'a' > 'y'\n\
        + 's' > set(&layer = 's')\n+ 'd' > set(&layer = 'default')\n+ 'e' > set(&layer = '')\nif(&layer != '') + 'f' > 'n'\n\
        + 'o' > set(&layer = 's') set(o = '1') save(o)\n+ 'r' > reset(o)\n",
        "\
K_A y,y, ; K_S ,y,&layers ; K_A x,yx, ; K_S ,yx, ; K_D ,yx,&layerdefault ; K_A y,yxy,
K_F n,n, ; K_E ,n,&layer ; K_F f,nf, ; K_D ,nf,&layerdefault ; K_E ,nf,&layer
K_D ,, ; &Layer=x ,,&layerx!&layerx ; &LAYER=x ,, ; layer=z ,, ; K_A y,y, ; K_S ,y,&layers ; K_A x,yx,
platform=web ,, ; K_A y,y, ; &platform=web ,y,&platformweb!&platformweb ; K_A w,yw, ; &PLATFORM=weB ,yw,&platformweB!&platformweB
&platform=webs ,,&platformwebs!&platformwebs ; K_A y,y, ; &platform= ,y,&platform!&platform ; K_A y,yy,
K_O ,,o1!o1&layers ; K_A x,x, ; K_D ,x,&layerdefault ; K_A o,xo, ; o=0 ,xo,o0!o0 ; K_A y,xoy, ; K_R ,xoy,
&layer=s ,,&layers!&layers ; |0 ,, ; K_X x,x, ; -0,0,u ,ux, ; K_A x,uxx, ; |9 E1 ; K_D ,uxx,&layerdefault",
    ),
    (
        "store(layer) 'l'\nstore(platform) 'p'\nstore(~layer) '0'\nbegin Unicode > use(main)\ngroup(main) using keys\n\
        if(~layer = '1') + 'a' > 'o'\nif(&layer = 'default') + 'a' > 'd'\n+ 'a' > 'y'\n+ 's' > set(&layer = 's')\n",
        "\
K_A d,d, ; &layer=1 ,d,&layer1!&layer1 ; K_A o,do, ; &Layer=s ,do,&layers!&layers ; K_A d,dod, ; K_S ,dod,&layers ; K_A y,dody,",
    ),
];

/// Appends the characters of a value.
fn show_value(text: &mut String, value: &[Element]) -> Result<(), Memory> {
    for element in value {
        if let Element::Char(c) = element {
            text.push(*c)?;
        }
    }
    Ok(())
}

/// Appends the name and the new value of a store, `!` before a saved one.
fn show_change(
    alloc: Global,
    text: &mut String,
    session: &Session,
    change: Change,
) -> Result<(), Memory> {
    if change.saved {
        text.push('!')?;
    }
    let name = session.name(alloc, change.store)?;
    text.push_str(str::from_utf8(name.as_slice()).unwrap_or("?"))?;
    match session.value(alloc, change.store, change.saved)? {
        Some(value) => show_value(text, value.as_slice()),
        None => Ok(()),
    }
}

/// Appends the names and the new values of the stores that the last step changed.
fn show_changes(alloc: Global, text: &mut String, session: &Session) -> Result<(), Memory> {
    for change in session.changes() {
        show_change(alloc, text, session, *change)?;
    }
    Ok(())
}

/// Appends characters.
fn put_chars(text: &mut String, chars: &[char]) -> Result<(), Memory> {
    for c in chars {
        text.push(*c)?;
    }
    Ok(())
}

/// Returns what a session reports about its last step, in the notation of the table.
fn shown(alloc: Global, session: &Session) -> Result<String, Memory> {
    let mut text = String::new(alloc);
    put_chars(&mut text, session.inserted())?;
    text.push(',')?;
    put_items(&mut text, session.engine().context())?;
    text.push(',')?;
    show_changes(alloc, &mut text, session)?;
    Ok(text)
}

/// Performs one step and returns whether the result is the expected one.
fn shows(alloc: Global, session: &mut Session, step: &str) -> Result<bool, Fail> {
    let (word, wanted) = step.split_once(' ').unwrap_or((step, ""));
    let event = event(alloc, word)?;
    match session.step(alloc, &event) {
        Ok(_) => Ok(shown(alloc, session)?.as_str() == wanted),
        Err(StepError::Place) => Ok(wanted == "E1"),
        Err(StepError::Length) => Ok(wanted == "E2"),
        Err(error) => Err(error.into()),
    }
}

/// Performs one step with a copy of a session and returns whether the result is the expected one.
fn copy_shows(alloc: Global, session: &Session, step: &str) -> Result<bool, Fail> {
    let mut copy = session.copy(alloc)?;
    shows(alloc, &mut copy, step)
}

/// Returns whether a step of a session, and the same step of a copy made before, have the expected result.
fn both_show(alloc: Global, session: &mut Session, step: &str) -> Result<bool, Fail> {
    if copy_shows(alloc, session, step)? {
        return shows(alloc, session, step);
    }
    Ok(false)
}

/// Returns the first step of a session with a different result.
fn wrong_step(
    alloc: Global,
    session: &mut Session,
    case: &'static str,
) -> Result<Option<&'static str>, Fail> {
    for step in case.split(" ; ") {
        if !both_show(alloc, session, step)? {
            return Ok(Some(step));
        }
    }
    Ok(None)
}

/// Returns the first wrong step of a session that starts with the keyboard of a file.
fn wrong_case(
    alloc: Global,
    file: &Verified,
    case: &'static str,
) -> Result<Option<&'static str>, Fail> {
    let mut session = Session::start(alloc, file)?;
    wrong_step(alloc, &mut session, case)
}

/// Returns the first wrong step of cases with the keyboard of a file.
fn wrong_in(
    alloc: Global,
    file: &Verified,
    cases: &'static str,
) -> Result<Option<&'static str>, Fail> {
    for case in cases.lines().filter(is_row) {
        if let Some(step) = wrong_case(alloc, file, case)? {
            return Ok(Some(step));
        }
    }
    Ok(None)
}

/// Returns the first wrong step of cases with the keyboard in the bytes of a file.
fn wrong_in_file(
    alloc: Global,
    bytes: &[u8],
    cases: &'static str,
) -> Result<Option<&'static str>, Fail> {
    let file = verify(alloc, bytes)?;
    wrong_in(alloc, &file, cases)
}

/// Compiles a keyboard and replaces each `~` in the file with `&`.
fn with_ampersands(alloc: Global, keyboard: &str) -> Result<Seq<u8>, Fail> {
    let mut bytes = compiled(alloc, keyboard)?;
    for byte in bytes.as_mut_slice() {
        if *byte == b'~' {
            *byte = b'&';
        }
    }
    Ok(bytes)
}

/// Returns the first wrong step of cases with such a keyboard.
fn wrong_with(
    alloc: Global,
    keyboard: &str,
    cases: &'static str,
) -> Result<Option<&'static str>, Fail> {
    let bytes = with_ampersands(alloc, keyboard)?;
    wrong_in_file(alloc, bytes.as_slice(), cases)
}

#[test]
fn events_of_every_kind(rt: HostRuntime) -> Result<(), Fail> {
    for &(keyboard, cases) in KEYBOARDS {
        let wrong = wrong_with(rt.alloc(), keyboard, cases)?;
        assert!(rt; wrong.is_none(), "{}", wrong.unwrap_or(""));
    }
    Ok(())
}

/// Errors and their printed texts.
const PRINTED: &[(StepError, &str)] = &[
    (StepError::Place, "refused E1"),
    (StepError::Length, "refused E2"),
    (StepError::Memory, "out of memory"),
];

#[test]
fn step_errors(rt: HostRuntime) -> Result<(), Fail> {
    let alloc = rt.alloc();
    for (error, wanted) in PRINTED {
        assert!(rt;
            format!(in alloc; "{error}")?.as_str() == *wanted,
            "{wanted}"
        );
    }
    Ok(())
}
