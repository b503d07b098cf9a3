//! What the tests share. The first line of a table has a word for each thing that is done with its rows. Then come the rows, with
//! `==` between them. A row is its name, what is given, `--`, and what comes of it. Where what is given is refused, the line and the
//! number stand after the name. The name is `text` where it is faulty.

use crashlab::{Variant, VariantWorld, shrink};
use judge::Judge;
use schedule::{
    Page, ReplayFault, Schedule, Text, TextFault, Verdict, judge_trace, put_verdict, read_schedule,
    replay, replay_on, write_schedule,
};
use std::alloc::Global;
use test_support::text::cut;

/// The variant of this name.
pub fn variant_named(name: &str) -> Variant {
    match name {
        "no-look" => Variant::NoLook,
        "no-ties" => Variant::NoTies,
        "renumber" => Variant::Renumber,
        "exit-on-crash" => Variant::ExitOnCrash,
        "count-up" => Variant::CountUp,
        "last-skipped" => Variant::LastSkipped,
        _ => Variant::Right,
    }
}

/// The answer of a replay of the text on two processes of a variant.
fn replayed_on(
    alloc: Global,
    variant: Variant,
    text: &[u8],
    page: &mut Page,
) -> Result<Verdict, ReplayFault> {
    match (
        read_schedule(alloc, text),
        VariantWorld::new(alloc, variant, 2, 10, 1, 1),
        Judge::new(alloc, 2, 1),
    ) {
        (Ok(schedule), Ok(mut world), Ok(mut judge)) => {
            replay_on(alloc, &mut world, &mut judge, &schedule, page)
        }
        _ => Err(ReplayFault::Read),
    }
}

/// Whether the answer is this fault, or, where there is none, the verdict in the last line of the report.
fn is_right(
    alloc: Global,
    answer: Result<Verdict, ReplayFault>,
    report: &[u8],
    fault: Option<ReplayFault>,
) -> bool {
    match answer {
        Ok(verdict) => {
            let mut line = Vec::new(alloc);
            fault.is_none() && put_verdict(&mut line, verdict).is_ok() && report.ends_with(&line)
        }
        Err(refused) => fault == Some(refused),
    }
}

/// Whether the text gives just this report, and this fault or the verdict in the report's last line.
pub fn replays(
    alloc: Global,
    variant: Option<Variant>,
    text: &[u8],
    report: &[u8],
    fault: Option<ReplayFault>,
) -> bool {
    let mut page = Page::new(alloc);
    let piece = if fault.is_some() { 1000 } else { 7 };
    let answer = match variant {
        Some(variant) => replayed_on(alloc, variant, text, &mut page),
        None => replay(alloc, &mut Text::new(text, piece), &mut page),
    };
    page.as_slice() == report && is_right(alloc, answer, report, fault)
}

/// Whether the trace has this fault, or this verdict where there is none, in pieces of each length up to the whole text.
pub fn judges(alloc: Global, text: &[u8], verdict: Verdict, fault: Option<ReplayFault>) -> bool {
    let answer = match fault {
        Some(fault) => Err(fault),
        None => Ok(verdict),
    };
    for piece in 1..text.len() + 2 {
        if judge_trace(alloc, &mut Text::new(text, piece)) != answer {
            return false;
        }
    }
    true
}

/// The fault of a text that ends too early: of its last line. None where it ends with a line.
pub fn early(text: &[u8]) -> Option<ReplayFault> {
    if text.ends_with(b"\n") {
        return None;
    }
    let mut line = 1u64;
    for byte in text {
        if *byte == b'\n' {
            line = line.saturating_add(1);
        }
    }
    let number = if text.is_empty() { 1 } else { 5 };
    Some(ReplayFault::Text { line, number })
}

/// Whether the schedule is written as this text.
pub fn is_text(alloc: Global, schedule: &Schedule, text: &[u8]) -> bool {
    match write_schedule(alloc, schedule) {
        Ok(written) => written.as_slice() == text,
        Err(_) => false,
    }
}

/// Whether the text minimized on the variant is this one. No text: there is nothing to minimize.
fn shrinks(
    alloc: Global,
    variant: Variant,
    text: &[u8],
    least: &[u8],
    fault: Option<ReplayFault>,
) -> bool {
    let Ok(schedule) = read_schedule(alloc, text) else {
        return false;
    };
    match shrink(alloc, variant, &schedule) {
        Ok(Some(found)) => fault.is_none() && is_text(alloc, &found, least),
        Ok(None) => fault.is_none() && least.is_empty(),
        Err(refused) => fault == Some(refused),
    }
}

/// Whether the text is a schedule, and is written again, or has this fault.
fn is_read(alloc: Global, text: &[u8], fault: Option<ReplayFault>) -> bool {
    match read_schedule(alloc, text) {
        Ok(schedule) => fault.is_none() && is_text(alloc, &schedule, text),
        Err(TextFault::At { line, number }) => fault == Some(ReplayFault::Text { line, number }),
        Err(_) => false,
    }
}

/// The fault of a name, a line and a number, as in `sizes 1 8` or `text 2 5`.
fn fault_of(head: &str) -> Option<ReplayFault> {
    let (name, numbers) = head.split_once(" ")?;
    let (line, number) = numbers.split_once(" ")?;
    let line = line.parse::<u64>().ok()?;
    let number = number.parse::<u64>().ok()?;
    if name == "text" {
        Some(ReplayFault::Text { line, number })
    } else {
        Some(ReplayFault::Refused { line, number })
    }
}

/// Whether a row holds. `trace`: it is judged, in pieces of each length. `schedule`: it is read, and written as it was read. `shrink-..`:
/// it is minimized on a variant, and the least schedule comes of it, or nothing. Else it is replayed, on the lock or on two
/// processes of the variant of this name, and its report comes of it.
pub fn holds(alloc: Global, name: &str, row: &str) -> bool {
    let mut rest = row;
    let mut text = cut(&mut rest, "--\n");
    let head = cut(&mut text, "\n");
    let (text, written) = (text.as_bytes(), rest.as_bytes());
    let fault = fault_of(head);
    match name {
        "trace" => judges(alloc, text, Verdict::Fine, fault),
        "schedule" => is_read(alloc, text, fault),
        "shrink-no-look" => shrinks(alloc, Variant::NoLook, text, written, fault),
        "shrink-right" => shrinks(alloc, Variant::Right, text, written, fault),
        "lock" => replays(alloc, None, text, written, fault),
        _ => replays(alloc, Some(variant_named(name)), text, written, fault),
    }
}
