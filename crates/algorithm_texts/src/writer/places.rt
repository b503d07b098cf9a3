//! Which lines lead to a place, and which places a block may have.

use crate::loops::has_round;
use algorithms::algorithm::Algorithm;
use algorithms::line::{AlgorithmLine, LineKind, LocalLine};

/// Whether a call begins at a place.
pub fn is_entry(algorithm: &Algorithm, place: usize) -> bool {
    let entries = algorithm.entries;
    entries.lock == place
        || entries.unlock == place
        || entries.recover == Some(place)
        || entries.withdraw == Some(place)
}

/// Whether a local line leads to a place, where the place after it is `next`.
fn local_leads(least: u64, next: usize, line: &LocalLine, place: usize) -> bool {
    match line {
        LocalLine::Assign { .. } | LocalLine::AssignRow { .. } | LocalLine::Note(_) => {
            next == place
        }
        LocalLine::Goto(target) => *target == place,
        LocalLine::Branch { otherwise, .. } => next == place || *otherwise == place,
        LocalLine::First { members, after, .. } => {
            next == place || (!has_round(least, members) && *after == place)
        }
        LocalLine::Next { body, .. } => *body == place || next == place,
    }
}

/// Whether a line leads to a place, where the place after it is `next`.
fn leads(least: u64, next: usize, line: &AlgorithmLine, place: usize) -> bool {
    match &line.form {
        LineKind::Access(_) => next == place,
        LineKind::Local(line) => local_leads(least, next, line, place),
        LineKind::Done(_) => false,
    }
}

/// Whether a call begins at a place, or a line leads to it.
pub fn is_led_to(algorithm: &Algorithm, place: usize) -> bool {
    let mut next: usize = 0;
    for line in &algorithm.lines {
        next = next.saturating_add(1);
        if leads(algorithm.least, next, line, place) {
            return true;
        }
    }
    is_entry(algorithm, place)
}

/// Where the call ends that has this place: the first place after it where another begins, else the number of all lines.
pub fn call_end(algorithm: &Algorithm, place: usize) -> usize {
    let size = algorithm.lines.len();
    for other in place.saturating_add(1)..size {
        if is_entry(algorithm, other) {
            return other;
        }
    }
    size
}

/// Whether a line at a place lets places from one on and before another be a block: no goto from elsewhere leads into it, and no
/// block that begins in it ends after it.
fn keeps_block(line: &AlgorithmLine, place: usize, first: usize, end: usize) -> bool {
    let inside = first <= place && place < end;
    match &line.form {
        LineKind::Local(LocalLine::Goto(target)) => inside || *target < first || end <= *target,
        LineKind::Local(LocalLine::Branch { otherwise, .. }) => !inside || *otherwise <= end,
        LineKind::Local(LocalLine::First { after, .. }) => !inside || *after <= end,
        LineKind::Local(
            LocalLine::Assign { .. }
            | LocalLine::AssignRow { .. }
            | LocalLine::Note(_)
            | LocalLine::Next { .. },
        )
        | LineKind::Access(_)
        | LineKind::Done(_) => true,
    }
}

/// Whether the places from one on and before another may be a block.
pub fn may_be_block(algorithm: &Algorithm, first: usize, end: usize) -> bool {
    let mut place: usize = 0;
    for line in &algorithm.lines {
        if !keeps_block(line, place, first, end) {
            return false;
        }
        place = place.saturating_add(1);
    }
    true
}

/// The number of the line at a place. 0 where there is none.
pub fn number_at(algorithm: &Algorithm, place: usize) -> u64 {
    match algorithm.lines.get(place) {
        Some(line) => line.number,
        None => 0,
    }
}

/// How many lines of the text stand free before the line at a place.
pub fn free_lines(algorithm: &Algorithm, place: usize) -> u64 {
    match algorithm.lines.get(place) {
        Some(line) => line
            .number
            .saturating_sub(number_at(algorithm, place.saturating_sub(1)))
            .saturating_sub(1),
        None => u64::MAX,
    }
}
