//! Sets of states of the jugs as lines: whether they are closed, what they lead to, and walks through them.

use crate::search::cases::number;
use crate::search::jugs::Jugs;
use state_streams::{
    Approach, KeyForm, KeyPart, SetCheck, StreamFault, check_block, check_closed_set, expand,
    put_first, put_predecessors, read_keys, skip_header, split_sets, verdict_of, walk,
};
use std::alloc::{AllocError, Global};
use std::fmt::Write;
use std::test::Fail;

/// All states that empty jugs come to: of two jugs one is empty or full. No jug holds nine litres.
const ALL: &str = "00904
01904
02904
03904
04904
05904
10904
15904
20904
25904
30904
31904
32904
33904
34904
35904
";

/// The same without the tenth: one litre in the small jug, and a full big one, lead to it.
const WITHOUT_ONE: &str = "00904
01904
02904
03904
04904
05904
10904
15904
20904
30904
31904
32904
33904
34904
35904
";

/// The same in no order.
const IN_NO_ORDER: &str = "35904
01904
02904
25904
03904
04904
05904
10904
15904
20904
00904
31904
32904
33904
34904
30904
";

/// The litres, the part of how many, and the name of a set, from empty jugs on. The last are a line that is too short, keys of no
/// state, and a part of no more parts.
pub const CLOSED: &str = "\
== 9 0 1 all
Ok(Closed)
== 9 0 1 in-no-order
Ok(Closed)
== 9 0 3 all
Ok(Closed)
== 9 1 3 all
Ok(Closed)
== 9 2 3 all
Ok(Closed)
== 9 0 1 without-one
Ok(Open { line: 9 })
== 9 0 3 without-one
Ok(Closed)
== 9 1 3 without-one
Ok(Open { line: 9 })
== 9 2 3 without-one
Ok(Closed)
== 9 0 1 given
--
Ok(NoStart)
== 4 0 1 given
00404
30404
03404
--
Ok(Open { line: 1 })
== 4 0 1 given
00404
30404
03404
31404
--
Ok(Fault { line: 4 })
== 3 0 1 given
00304
30304
05304
35304
--
Ok(Fault { line: 2 })
== 9 0 1 given
00904
090
--
Err(At { line: 2, fault: NoKey })
== 9 0 1 given
00904
00903
090
--
Err(At { line: 2, fault: NoState })
== 9 0 1 given
00000
--
Err(At { line: 1, fault: NoState })
== 9 3 3 all
no part
";

/// The same in blocks of a line.
pub const BLOCKS: &str = "\
== all
Closed
== in-no-order
Closed
== given
--
NoStart
== without-one
Open { line: 9 }
";

/// Six moves of each state, in their order: of empty jugs, and of 3 litres and 1, which poured together are four. Then a line that
/// is too short, one with a character past `o`, one without a line feed.
pub const SUCCESSORS: &str = "\
== two
00404
31404
--
30404
05404
00404
00404
00404
00404
31404
35404
01404
30404
#31404
31404
== none
--
== short
00404
040
--
Err(At { line: 2, fault: NoKey })
== past-o
00p0
--
Err(At { line: 1, fault: NoKey })
== cut-off
0040--
Err(At { line: 1, fault: NoKey })
";

/// Three sets, of which the second has no states; no set; a second set of another machine; and no header.
pub const SETS: &str = "\
== three
!states 1 words 4 digits 1 of jugs
05404
32404
!states 1 words 4 digits 1 of jugs
!states 1 words 4 digits 1 of jugs
20404
--
set
05404
32404
set
set
20404
== none
--
== other
!states 1 words 4 digits 1 of jugs
05404
32404
!states 1 words 4 digits 1 of jug
20404
--
Err(NoHeader { line: 4 })
== no-header
05404
--
Err(NoHeader { line: 1 })
";

/// A set, `!`, and states. Full small jug and two litres: from a full big jug alone, and from two litres in the big one.
pub const PREDECESSORS: &str = "\
== two
32404
!
05404
20404
02404
00404
--
05404
02404
== none
!
05404
20404
02404
00404
--
== no-state
32404
!
05404
~
--
Err(At { line: 2, fault: NoKey })
== ranks home
32404
!
05404
20404
02404
00404
--
05404
02404
00404
== first home
!
05404
00404
--
00404
== spilled home
00414
!
30414
00414
--
00414
== emptied home
00404
!
30404
05404
--
30404
05404
";

/// Sets, with `!` between them. The first move that leads into a set is taken, even where no other goes on from there.
pub const WALKS: &str = "\
== whole
05404
!
32404
!
02404
!
20404
!
25404
--
Ok([FillBig, BigToSmall, EmptySmall, BigToSmall, FillBig, BigToSmall])
== early
05404
30404
!
32404
--
Err(NoMove { set: 2 })
== none
--
Err(NoFault)
";

/// The set of this name; what is given, for any other name.
fn set_named<'a>(name: &str, given: &'a str) -> &'a str {
    match name {
        "all" => ALL,
        "in-no-order" => IN_NO_ORDER,
        "without-one" => WITHOUT_ONE,
        _ => given,
    }
}

/// What is said of a set from empty jugs on, as a case.
pub fn put_closed(
    alloc: Global,
    words: &[&str; 8],
    given: &str,
    text: &mut String,
) -> Result<(), Fail> {
    let [wanted, part, parts, name, ..] = words;
    let form = KeyForm::new(4, 1).ok_or("no form")?;
    let Some(part) = KeyPart::new(number(part), number(parts)) else {
        return Ok(text.push_str("no part\n")?);
    };
    let set = set_named(name, given).as_bytes();
    let verdict = check_closed_set(alloc, &mut Jugs::empty(number(wanted)), &form, &part, set);
    Ok(writeln!(text, "{verdict:?}")?)
}

/// What is said of a set, each line of which is a block, as a case.
pub fn put_closed_by_blocks(
    alloc: Global,
    words: &[&str; 8],
    given: &str,
    text: &mut String,
) -> Result<(), Fail> {
    let form = KeyForm::new(4, 1).ok_or("no form")?;
    let mut jugs = Jugs::empty(9);
    let mut check = SetCheck::new(alloc, &jugs, KeyPart::ALL)?;
    let mut so_far = Ok(());
    for block in set_named(words[0], given).as_bytes().chunks(form.width) {
        if so_far.is_ok() {
            so_far = check_block(alloc, &mut jugs, &form, block, &mut check);
        }
    }
    let verdict = verdict_of::<Jugs>(&check);
    drop(check);
    so_far?;
    Ok(writeln!(text, "{:?}", verdict?)?)
}

/// Puts lines, or the fault in place of them.
fn put_lines(lines: &[u8], fault: Result<(), StreamFault>, text: &mut String) -> Result<(), Fail> {
    if fault.is_err() {
        return Ok(writeln!(text, "{fault:?}")?);
    }
    Ok(text.push_str(std::str::from_utf8(lines).unwrap_or("?"))?)
}

/// The successors of states, as a case.
pub fn put_successors(alloc: Global, given: &str, text: &mut String) -> Result<(), Fail> {
    let form = KeyForm::new(4, 1).ok_or("no form")?;
    let mut lines = Vec::new(alloc);
    let answer = expand(
        alloc,
        &mut Jugs::empty(4),
        &form,
        given.as_bytes(),
        &mut lines,
    );
    put_lines(&lines, answer, text)
}

/// The states before a set, as a case: with the word `home` those at home, and those from which a way home leads into it.
pub fn put_predecessors_of(
    alloc: Global,
    words: &[&str; 8],
    given: &str,
    text: &mut String,
) -> Result<(), Fail> {
    let approach = if words[1] == "home" {
        Approach::WayHome
    } else {
        Approach::AnyMove
    };
    let form = KeyForm::new(4, 1).ok_or("no form")?;
    let (set, states) = given.split_once("!\n").ok_or("no set")?;
    let set = read_keys(alloc, &form, set.as_bytes())
        .ok()
        .ok_or("no keys")?;
    let mut lines = Vec::new(alloc);
    let answer = put_predecessors(
        alloc,
        &mut Jugs::empty(4),
        &form,
        &set,
        approach,
        states.as_bytes(),
        &mut lines,
    );
    put_lines(&lines, answer, text)
}

/// Puts each of the sets after a line.
fn put_each(sets: &[Vec<u8>], text: &mut String) -> Result<(), Fail> {
    for set in sets {
        text.push_str("set\n")?;
        text.push_str(std::str::from_utf8(set).unwrap_or("?"))?;
    }
    Ok(())
}

/// The sets of a text, as a case.
pub fn put_sets(alloc: Global, given: &str, text: &mut String) -> Result<(), Fail> {
    let form = KeyForm::new(4, 1).ok_or("no form")?;
    match split_sets(alloc, b"jugs", &form, given.as_bytes()) {
        Ok(sets) => put_each(&sets, text),
        Err(fault) => Ok(writeln!(text, "Err({fault:?})")?),
    }
}

/// Adds the sets of a text to these.
fn add_sets(alloc: Global, given: &str, sets: &mut Vec<Vec<u8>>) -> Result<(), AllocError> {
    if !given.is_empty() {
        for set in given.split("!\n") {
            sets.push(Vec::from_slice(alloc, set.as_bytes())?)?;
        }
    }
    Ok(())
}

/// The walk through sets, as a case.
pub fn put_walk(alloc: Global, given: &str, text: &mut String) -> Result<(), Fail> {
    let form = KeyForm::new(4, 1).ok_or("no form")?;
    let mut sets = Vec::new(alloc);
    let added = add_sets(alloc, given, &mut sets);
    let found = walk(alloc, &mut Jugs::empty(4), &form, &sets);
    let written = writeln!(text, "{found:?}");
    drop(found);
    drop(sets);
    added?;
    Ok(written?)
}

/// Whether the text of the first state is its line after a header, and this machine alone skips the header.
pub fn begins_right(alloc: Global) -> Option<bool> {
    let form = KeyForm::new(4, 1)?;
    let mut first = Vec::new(alloc);
    if put_first(alloc, &Jugs::empty(4), b"jugs", &form, &mut first) != Ok(true) {
        return None;
    }
    let rest = skip_header(alloc, b"jugs", &form, first.as_slice()).ok()??;
    let other = skip_header(alloc, b"jug", &form, first.as_slice()).ok()?;
    let text = b"!states 1 words 4 digits 1 of jugs\n00404\n";
    Some(first.as_slice() == text.as_slice() && rest == b"00404\n".as_slice() && other.is_none())
}
