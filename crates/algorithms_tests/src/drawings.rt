//! Drawings of runs of algorithms, as a program over the reference interpreter of the format draws them.

pub mod bakeries;
pub mod others;

use crate::support::{put_fault, put_page, text_named};
use algorithm_lab::AlgorithmReplayFault;
use algorithm_texts::read_algorithm;
use diagram::{Style, draw_algorithm};
use schedule::{Page, Verdict, read_schedule};
use std::alloc::Global;
use std::fmt::Write;
use std::test::Fail;

/// What is drawn of each text.
const SCHEDULE: &str = "rme 1 procs 2 limit 2 cap 1
lock 0
step 0 8
lock 1
step 1 10
crash 0
lock 0
step 0 4
step 1 2
unlock 1
";

/// A run that ends with its schedule.
pub const ALONE: &str = "draw a run
== peterson
rme 1 procs 2 limit 1 cap 1
lock 0
step 0 3
unlock 0
step 0
--
0                         1                         |
. w flag[0]=1             .                         |
. w turn=1                .                         |
# r flag[1] 0             .                         | begin 0
#                         .                         | ready 0
#                         .                         | enter 0
#                         .                         | answer 0 done
. w flag[0]=0             .                         | leave 0
.                         .                         | answer 0 done
verdict fine
. rest  : doorway  | waiting  # section  x crash
ended: fine
";

/// Runs that end with a line that is refused.
pub const REFUSED: &str = "draw up to a refusal
== peterson
rme 1 procs 2 limit 1 cap 1
lock 0
step 0
unlock 1
--
0                         1                         |
. w flag[0]=1             .                         |
line 4 refused 5
. rest  : doorway  | waiting  # section  x crash
ended: refused 4 5
== peterson
rme 1 procs 3 limit 1 cap 1
--
ended: refused 1 1
";

/// Draws a run, and answers how it ends.
fn draw_run(
    alloc: Global,
    name: &str,
    schedule: &str,
    style: Style,
    page: &mut Page,
) -> Result<Result<Verdict, AlgorithmReplayFault>, Fail> {
    let schedule = read_schedule(alloc, schedule.as_bytes())?;
    let algorithm = read_algorithm(alloc, text_named(name))?;
    Ok(draw_algorithm(alloc, algorithm, &schedule, style, page))
}

/// Writes a drawing as text and how it ends, and answers that.
fn put_text(
    alloc: Global,
    name: &str,
    schedule: &str,
    text: &mut String,
) -> Result<Result<Verdict, AlgorithmReplayFault>, Fail> {
    let mut page = Page::new(alloc);
    let ended = draw_run(alloc, name, schedule, Style::Text, &mut page)?;
    let written = put_page(page.as_slice(), text);
    drop(page);
    written?;
    match ended {
        Ok(Verdict::Fine) => text.push_str("ended: fine\n")?,
        Ok(Verdict::Against { at, .. }) => writeln!(text, "ended: against at {at}")?,
        Err(fault) => put_fault(fault, text)?,
    }
    Ok(ended)
}

/// A drawing as text, as a case: the text.
pub fn put_drawing(
    alloc: Global,
    words: &[&str; 8],
    given: &str,
    text: &mut String,
) -> Result<(), Fail> {
    let _ = put_text(alloc, words[0], given, text)?;
    Ok(())
}

/// A drawing of the schedule, as a case: the text. It is drawn as text and as SVG, which has to end in the same way. Of the SVG
/// the checksum FNV-1a of 64 bits is written.
pub fn put_picture(alloc: Global, words: &[&str; 8], text: &mut String) -> Result<(), Fail> {
    let ended = put_text(alloc, words[0], SCHEDULE, text)?;
    let mut page = Page::new(alloc);
    let again = draw_run(alloc, words[0], SCHEDULE, Style::Svg, &mut page)?;
    let mut sum = 0xcbf2_9ce4_8422_2325_u64;
    for byte in page.as_slice() {
        sum = (sum ^ u64::from(*byte)).wrapping_mul(0x0100_0000_01b3);
    }
    drop(page);
    if again == ended {
        writeln!(text, "picture {sum}")?;
    }
    Ok(())
}

/// One is inside, and another waits, when all crash.
const ALL_CRASH: &str = "rme 1 procs 2 limit 2 cap 1
lock 0
step 0 8
lock 1
step 1 4
crash all
lock 0
step 0 4
";

/// The same, with a crash of each.
const EACH_CRASHES: &str = "rme 1 procs 2 limit 2 cap 1
lock 0
step 0 8
lock 1
step 1 4
crash 0
crash 1
lock 0
step 0 4
";

/// The drawing of a schedule as text, and how it ends.
fn drawing_of(alloc: Global, name: &str, schedule: &str) -> Result<String, Fail> {
    let mut text = String::new(alloc);
    let _ = put_text(alloc, name, schedule, &mut text)?;
    Ok(text)
}

#[test]
fn a_crash_of_all_is_drawn_as_one_of_each(rt: HostRuntime) -> Result<(), Fail> {
    for name in ["peterson", "recoverable_peterson", "one_word"] {
        let all = drawing_of(rt.alloc(), name, ALL_CRASH)?;
        let each = drawing_of(rt.alloc(), name, EACH_CRASHES)?;
        assert!(rt; all.as_str() == each.as_str(), "{name}");
    }
    Ok(())
}
