//! Where the labels stand that claims name.

use crate::writer::places::{free_lines, is_entry, number_at};
use algorithms::algorithm::Algorithm;
use algorithms::line::{AlgorithmLine, LineKind, LocalLine};
use std::alloc::{AllocError, Global};

/// Whether the block of an `if` at a place ends before this one, with a line of its own.
fn ends_block(algorithm: &Algorithm, line: &AlgorithmLine, place: usize, end: usize) -> bool {
    match &line.form {
        LineKind::Local(LocalLine::Branch { otherwise, .. }) => {
            *otherwise == end && number_at(algorithm, place.saturating_add(1)) != line.number
        }
        _ => false,
    }
}

/// How many lines before a place are left for labels.
fn label_lines(algorithm: &Algorithm, place: usize) -> u64 {
    let mut left = free_lines(algorithm, place);
    if is_entry(algorithm, place) {
        left = left.saturating_sub(1);
    }
    let mut at: usize = 0;
    for line in &algorithm.lines {
        if ends_block(algorithm, line, at, place) {
            left = left.saturating_sub(1);
        }
        at = at.saturating_add(1);
    }
    left
}

/// Whether the line before a place is an access.
fn follows_access(algorithm: &Algorithm, place: usize) -> bool {
    match algorithm.lines.get(place.saturating_sub(1)) {
        Some(line) => place > 0 && matches!(&line.form, LineKind::Access(_)),
        None => false,
    }
}

/// The place of a label below which the first access is at this place, or below which there is none where this is the number of lines:
/// of those where it may be the last with most lines left.
fn label_place(algorithm: &Algorithm, access: usize) -> usize {
    let mut best: usize = 0;
    let mut most: u64 = 0;
    for place in 0..algorithm.lines.len() {
        if place <= access {
            let left = label_lines(algorithm, place);
            if follows_access(algorithm, place) || most <= left {
                best = place;
                most = left;
            }
        }
    }
    best
}

/// The places of all labels that claims name.
pub fn label_places(alloc: Global, algorithm: &Algorithm) -> Result<Vec<usize>, AllocError> {
    let mut places = Vec::new(alloc);
    for access in &algorithm.label_places {
        places.push(label_place(algorithm, *access))?;
    }
    Ok(places)
}
