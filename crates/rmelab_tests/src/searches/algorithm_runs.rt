//! Hunts, drawings and least schedules of algorithms: what they write, and what is refused.

use crate::support::invocation::output_of;
use crate::support::row::text_named;
use algorithms_tests::texts::others;
use diagram::page_text::{PAGE_HEAD, PAGE_SCRIPT, PAGE_STEP};
use std::alloc::Global;
use std::sync::Wait;
use std::test::Fail;
use std::thread::Threads;

/// `ALONE`: a process that enters and leaves, alone; its report, that with each step, both as JSON, and its drawing, on Peterson's
/// lock. Without a promise of order the deeds before the entry are heard with it. `REFUSED`: a line is refused after a step.
/// `SESSION`: a session on a test that is no lock. `HEADED`: one with the header alone. `BEGUN`: one that begins with `ALONE`, and
/// goes back.
pub const TEXTS: &str = "
@text ALONE
rme 1 procs 2 limit 1 cap 1
lock 0
step 0 3
unlock 0
step 0
@text BAD_SIZE
rmelab: bad size
@text NOTHING_FOUND
nothing found
@text ALONE_DRAWN
0                         1                         |
. w flag[0]=1             .                         |
. w turn=1                .                         |
# r flag[1] 0             .                         | begin 0
#                         .                         | ready 0
#                         .                         | enter 0
#                         .                         | answer 0 done
. w flag[0]=0             .                         | leave 0
.                         .                         | answer 0 done
verdict fine
. rest  : doorway  | waiting  # section  x crash
@text SESSION
rme 1 procs 2 limit 4 cap 1
lock 0
step 0 2
lock 2
undo
quit
undo
@text HELD
process 0: outside, no call
process 1: outside, no call
process 0: outside, before line 8
process 1: outside, no call
at 0 rest r held 0
at 0 section w held=1
begin 0
ready 0
enter 0
answer 0 done
process 0: inside, no call
process 1: outside, no call
words held 1
line 4: refused 3
process 0: outside, before line 8
process 1: outside, no call
@text UNREAD
rmelab: read failed
@text UNWRITTEN
rmelab: write failed
@text HEADED
rme 1 procs 2 limit 1 cap 1
@text AT_REST
process 0: outside, no call
process 1: outside, no call
@text BAD_VARIANT
rmelab: bad variant
@text ALONE_BY_STEPS
at 0 rest w flag[0]=1 remote dsm write-through write-back
at 0 rest w turn=1 remote dsm write-through write-back
at 0 section r flag[1] 0 remote dsm write-through write-back
begin 0
ready 0
enter 0
answer 0 done
at 0 rest w flag[0]=0 remote dsm write-through
leave 0
answer 0 done
words flag 0 0
words turn 1
verdict fine
@text ALONE_AS_OBJECT
{\"report\":[\"begin 0\",\"ready 0\",\"enter 0\",\"answer 0 done\",\"leave 0\",\"answer 0 done\",\"words flag 0 0\",\
\"words turn 1\",\"verdict fine\"]}
@text ALONE_AS_LINES
{\"format\":\"rmelab algorithm steps\",\"version\":1}
{\"step\":1,\"process\":0,\"phase\":\"rest\",\"access\":\"store\",\"word\":\"flag[0]\",\"value\":1,\"remote\":{\"dsm\":true,\"write-through\":true,\"write-back\":true},\"report\":[]}
{\"step\":2,\"process\":0,\"phase\":\"rest\",\"access\":\"store\",\"word\":\"turn\",\"value\":1,\"remote\":{\"dsm\":true,\"write-through\":true,\"write-back\":true},\"report\":[]}
{\"step\":3,\"process\":0,\"phase\":\"section\",\"access\":\"load\",\"word\":\"flag[1]\",\"value\":0,\"remote\":{\"dsm\":true,\"write-through\":true,\"write-back\":true},\"report\":[\
\"begin 0\",\"ready 0\",\"enter 0\",\"answer 0 done\"]}
{\"step\":4,\"process\":0,\"phase\":\"rest\",\"access\":\"store\",\"word\":\"flag[0]\",\"value\":0,\"remote\":{\"dsm\":true,\"write-through\":true,\"write-back\":false},\"report\":[\
\"leave 0\",\"answer 0 done\"]}
{\"words\":\"flag\",\"values\":[0,0]}
{\"words\":\"turn\",\"values\":[1]}
{\"verdict\":\"fine\"}
@text REFUSED
rme 1 procs 2 limit 1 cap 1
lock 0
step 0
crash 0
lock 2
@text REFUSED_BY_STEPS
at 0 rest w flag[0]=1 remote dsm write-through write-back
at 0 dead
crash 0
@text REFUSED_AS_LINES
{\"format\":\"rmelab algorithm steps\",\"version\":1}
{\"step\":1,\"process\":0,\"phase\":\"rest\",\"access\":\"store\",\"word\":\"flag[0]\",\"value\":1,\"remote\":{\"dsm\":true,\"write-through\":true,\"write-back\":true},\"report\":[]}
{\"step\":2,\"process\":0,\"phase\":\"dead\",\"access\":null,\"word\":null,\"value\":null,\"remote\":null,\"report\":[\"crash 0\"]}
@text LINE_5
rmelab: line 5: refused 3
@text BEGUN
process 0: outside, no call
process 1: outside, no call
words turn 1
process 0: inside, before line 21
process 1: outside, no call
words flag 1 0
words turn 1
@text ALONE_TOLD
begin 0
ready 0
enter 0
answer 0 done
leave 0
answer 0 done
words flag 0 0
words turn 1
verdict fine
";

const HUNT: &str = "rmelab hunt --algorithm a.lock --seed 1 --rounds 1000 --steps 100";

/// The same hunt by threads, and with what it finds made least.
const HUNTS: [&str; 3] = [" --jobs 1", " --jobs 3", " --shrink"];

const REPLAY: &str = "rmelab replay --algorithm a.lock";

const SHRINK: &str = "rmelab shrink --algorithm a.lock";

/// Whether a hunt by these words writes the same over this algorithm.
fn finds(
    rt: &(impl Threads + Wait + Sync),
    alloc: Global,
    line: &str,
    more: &str,
    text: &str,
    schedule: &[u8],
) -> Result<bool, Fail> {
    let line = format!(in alloc; "{line}{more}")?;
    let found = output_of(rt, alloc, &line, text, b"", 1)?;
    Ok(found.as_slice() == schedule)
}

/// Whether what a hunt finds is found by threads too, and is made least. Both go wrong in a replay.
fn is_made_least(
    rt: &(impl Threads + Wait + Sync),
    alloc: Global,
    hunt: &str,
    text: &[u8],
) -> Result<bool, Fail> {
    let text = str::from_utf8(text)?;
    let [by_one, by_three, at_once] = HUNTS;
    let found = output_of(rt, alloc, hunt, text, b"", 1)?;
    let by_threads = finds(rt, alloc, hunt, by_one, text, &found)?
        && finds(rt, alloc, hunt, by_three, text, &found)?;
    output_of(rt, alloc, REPLAY, text, &found, 1)?;
    let least = output_of(rt, alloc, SHRINK, text, &found, 1)?;
    let is_shorter = least.len() < found.len();
    drop(found);
    output_of(rt, alloc, REPLAY, text, &least, 1)?;
    let is_so = finds(rt, alloc, hunt, at_once, text, &least)?;
    Ok(by_threads && is_shorter && is_so)
}

#[test]
fn hunted_schedules_are_made_least(rt: HostRuntime) -> Result<(), Fail> {
    for text in [others::ONE_WORD, others::PETERSON] {
        assert!(rt; is_made_least(&rt, rt.alloc(), HUNT, text)?);
        let with_system_crashes = format!(in rt.alloc(); "{HUNT} --system-crashes 50")?;
        assert!(rt; is_made_least(&rt, rt.alloc(), &with_system_crashes, text)?);
    }
    Ok(())
}

/// Words that are refused open no file.
pub const COMMANDS_ON_AN_ALGORITHM: &str = "
@row rmelab hunt --algorithm a.lock --seed 1 --rounds 1 --steps 3 --jobs 4 @file a.lock PETERSON @file b.rme ALONE @out
nothing found
@row rmelab hunt --algorithm a.lock --seed 1 --rounds 1 --steps 3 --shrink @file a.lock PETERSON @file b.rme ALONE @out NOTHING_FOUND
@row rmelab hunt --algorithm a.lock --seed 1 --rounds 1300 --steps 5 @file a.lock PETERSON @shown
\r639 rounds, 3195 moves, 3195 moves a second\x1b[K\r1279 rounds, 6395 moves, 3197 moves a second\x1b[K\r\x1b[K@out NOTHING_FOUND
@row rmelab hunt --algorithm a.lock --seed 1 --first-round 9999 --rounds 1 --steps 3 @file a.lock PETERSON @out NOTHING_FOUND
@row rmelab hunt --algorithm a.lock --seed 1 --first-round 10000 --rounds 1 --steps 3 @file a.lock PETERSON @ends 2 @err BAD_SIZE
@row rmelab hunt --algorithm a.lock --seed 2 --rounds 1 --steps 1000 --system-crashes 50 @file a.lock ONE_WORD @ends 1 @out
rme 1 procs 2 limit 1000000 cap 1
crash all
crash 1
lock 1
step 1
crash all
crash all
crash 1
crash all
lock 1
lock 0
step 0
step 1
step 0
step 1
@row rmelab hunt --algorithm a.lock --seed 2 --rounds 9 --steps 1000 --system-crashes 1000 @file a.lock ONE_WORD @out NOTHING_FOUND
@row rmelab hunt --algorithm a.lock --seed 2 --rounds 9 --steps 1000 --system-crashes 1001 @file b.rme ALONE @ends 2 @err BAD_SIZE
@row rmelab hunt --algorithm a.lock --procs 3 --seed 1 --rounds 1 --steps 3 @file a.lock PETERSON @file b.rme ALONE @ends 2 @err BAD_SIZE
@row rmelab shrink --algorithm a.lock b.rme @file a.lock PETERSON @file b.rme ALONE @out
verdict fine
@row rmelab shrink --algorithm a.lock @file a.lock PETERSON @file b.rme ALONE @ends 2 @in
rme 1 procs 2 limit 1 cap 1
recover 0
@err
rmelab: line 2: refused 17
@row rmelab draw --algorithm a.lock b.rme @file a.lock PETERSON @file b.rme ALONE @out ALONE_DRAWN
@row rmelab draw --algorithm a.lock @file a.lock PETERSON @file b.rme ALONE @ends 2 @in
rme 1 procs 3 limit 1 cap 1
@err
rmelab: line 1: refused 1
@row rmelab replay --algorithm a.lock --each b.rme @file a.lock PETERSON @file b.rme ALONE @out ALONE_BY_STEPS
@row rmelab replay --algorithm a.lock --json b.rme @file a.lock PETERSON @file b.rme ALONE @out ALONE_AS_OBJECT
@row rmelab replay --algorithm a.lock --each --json @in ALONE @file a.lock PETERSON @out ALONE_AS_LINES
@row rmelab replay --algorithm a.lock --each @in REFUSED @file a.lock PETERSON @out REFUSED_BY_STEPS @err LINE_5 @ends 2
@row rmelab replay --algorithm a.lock --json @in REFUSED @file a.lock PETERSON @err LINE_5 @ends 2
@row rmelab replay --algorithm a.lock --each --json @in REFUSED @file a.lock PETERSON @out REFUSED_AS_LINES @err LINE_5 @ends 2
@row rmelab replay --algorithm a.lock --each --json @file a.lock PETERSON @ends 2 @in
rme 1 procs 3 limit 1 cap 1
@err
rmelab: line 1: refused 1
@row rmelab step --algorithm a.lock @in SESSION @file a.lock ONE_WORD @out HELD
@row rmelab hunt --seed 1 --rounds 0 --steps 1 --algorithm a.lock --variant right @ends 2 @err BAD_VARIANT
@row rmelab hunt --seed 1 --rounds 0 --steps 1 --algorithm a.lock @ends 2 @err BAD_SIZE
@row rmelab hunt --seed 1 --rounds 1 --steps 1 --variant right --limit 4 @ends 2 @err BAD_SIZE
@row rmelab hunt --seed 1 --rounds 0 --steps 1 --algorithm a.lock --shrink @ends 2 @err BAD_SIZE
@row rmelab hunt --seed 1 --rounds 0 --steps 1 @ends 2 @err NO_LOCK
@row rmelab shrink --algorithm a.lock --variant right @ends 2 @err BAD_VARIANT
@row rmelab shrink a.rme @ends 2 @err NO_LOCK
@row rmelab draw --algorithm a.lock --variant right @ends 2 @err BAD_VARIANT
@row rmelab draw --html --algorithm a.lock --image a.json @ends 2 @err BAD_VARIANT
";

/// Sessions that begin with the schedule of a file. The function `command` takes no such file.
pub const SESSIONS_FROM_A_FILE: &str = "
@program
@row rmelab step --algorithm a.lock b.rme @file a.lock PETERSON @file b.rme ALONE @out BEGUN @in
undo
@row rmelab step --algorithm a.lock b.rme @file a.lock PETERSON @file b.rme REFUSED @err LINE_5 @ends 2 @in
undo
";

/// Whether the page of this schedule is the drawing and the lines of its run between fixed parts. All three end with this status.
fn is_a_page(
    rt: &(impl Threads + Wait + Sync),
    alloc: Global,
    schedule: &[u8],
    status: u8,
) -> Result<bool, Fail> {
    let algorithm = str::from_utf8(others::PETERSON)?;
    let draw = "rmelab draw --algorithm a.lock --svg";
    let picture = output_of(rt, alloc, draw, algorithm, schedule, status)?;
    let follow = "rmelab replay --algorithm a.lock --each --json";
    let lines = output_of(rt, alloc, follow, algorithm, schedule, status)?;
    let html = "rmelab draw --algorithm a.lock --html";
    let page = output_of(rt, alloc, html, algorithm, schedule, status)?;
    let picture = str::from_utf8(&picture)?;
    let lines = str::from_utf8(&lines)?;
    let mut rest = str::from_utf8(&page)?;
    for part in [PAGE_HEAD, picture, PAGE_STEP, lines, PAGE_SCRIPT] {
        rest = rest.strip_prefix(part).ok_or("no page")?;
    }
    Ok(rest.is_empty())
}

#[test]
fn pages_of_an_algorithm(rt: HostRuntime) -> Result<(), Fail> {
    for (name, status) in [("ALONE", 0), ("REFUSED", 2)] {
        let schedule = text_named("", &[TEXTS], name).unwrap_or("");
        let is_so = is_a_page(&rt, rt.alloc(), schedule.as_bytes(), status)?;
        assert!(rt; is_so, "{name}");
    }
    Ok(())
}

/// A text at fault, a file that can't be read, and a device that fails.
pub const COMMANDS_ON_AN_ALGORITHM_THAT_FAIL: &str = "
@program
@row rmelab hunt --algorithm a.lock --seed 1 --rounds 1 --steps 3 @in ALONE @file a.lock HIDDEN @ends 2 @err
rmelab: algorithm line 6, column 6: fault 7: a second access in one line
@row rmelab hunt --algorithm a.lock --seed 1 --rounds 1 --steps 3 @in ALONE @ends 3 @err UNREAD
@row rmelab hunt --algorithm a.lock --seed 1 --rounds 1 --steps 3 @in ALONE @file a.lock PETERSON @fails file-read @ends 3 @err UNREAD
@row rmelab hunt --algorithm a.lock --seed 1 --rounds 1 --steps 3 @in ALONE @file a.lock PETERSON @fails write @ends 3 @err UNWRITTEN
@row rmelab draw --algorithm a.lock @in ALONE @file a.lock HIDDEN @ends 2 @err
rmelab: algorithm line 6, column 6: fault 7: a second access in one line
@row rmelab draw --algorithm a.lock @in ALONE @ends 3 @err UNREAD
@row rmelab draw --algorithm a.lock @in ALONE @file a.lock PETERSON @fails file-read @ends 3 @err UNREAD
@row rmelab draw --algorithm a.lock @in ALONE @file a.lock PETERSON @fails write @ends 3 @err UNWRITTEN
@row rmelab shrink --algorithm a.lock @in ALONE @file a.lock HIDDEN @ends 2 @err
rmelab: algorithm line 6, column 6: fault 7: a second access in one line
@row rmelab shrink --algorithm a.lock @in ALONE @ends 3 @err UNREAD
@row rmelab shrink --algorithm a.lock @in ALONE @file a.lock PETERSON @fails file-read @ends 3 @err UNREAD
@row rmelab shrink --algorithm a.lock @in ALONE @file a.lock PETERSON @fails write @ends 3 @err UNWRITTEN
@row rmelab step --algorithm a.lock @in ALONE @file a.lock HIDDEN @ends 2 @err
rmelab: algorithm line 6, column 6: fault 7: a second access in one line
@row rmelab step --algorithm a.lock @in ALONE @ends 3 @err UNREAD
@row rmelab step --algorithm a.lock @in ALONE @file a.lock PETERSON @fails file-read @ends 3 @err UNREAD
@row rmelab step --algorithm a.lock @in ALONE @file a.lock PETERSON @fails write @ends 3 @err UNWRITTEN
@row rmelab step --algorithm a.lock b.rme @in HEADED @file a.lock PETERSON @ends 3 @err UNREAD
@row rmelab replay --algorithm a.lock --each @in ALONE @file a.lock PETERSON @fails write @ends 3 @err UNWRITTEN
@row rmelab replay --algorithm a.lock --json @in ALONE @file a.lock PETERSON @fails write @ends 3 @err UNWRITTEN
@row rmelab step --algorithm a.lock @in HEADED @file a.lock PETERSON @fails read @out AT_REST @ends 3 @err UNREAD
@row rmelab step --algorithm a.lock @in HEADED @file a.lock PETERSON @fails flush @out AT_REST @ends 3 @err UNWRITTEN
";
