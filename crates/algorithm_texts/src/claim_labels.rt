//! The labels that claims name, once all calls are read.

ghost use Rattle.std.specs.Prelude.{◌≡◌, ◌+◌, ◌++◌, ◌∷◌, [], Some, drop, map, position, IfOk, IfErr, OnOk};
ghost use Rattle.std.specs.List.{list_any};
ghost use Rattle.algorithms.specs.declared.fault.AlgorithmFault.TheVariants.{OutOfMemory as NoMemory};
ghost use Rattle.algorithm_texts.specs.Drafts.{draft_view, line_of};
ghost use Rattle.algorithm_texts.specs.NeverClaims.{access_below, claimed_place, claimed_places, has_name, is_access_line, only_label};
ghost use Rattle.algorithm_texts.specs.TextFaults.{ClaimsHavePlaces, IsFaultOfClaims, OrMemory};
ghost use Rattle.algorithm_texts.specs.TextLines.{IsRefusalOf};

use crate::lines::{ClaimLabel, Draft, Label};
use algorithms::fault::{AlgorithmFault, ReadFault};
use algorithms::line::{AlgorithmLine, LineKind};
use std::alloc::Global;

/// The place of the first label of this name.
fn place_of_name(labels: &[Label], name: &[u8]) -> Option<usize>
    ensures { result ≡ position (has_name name.now) labels.now }
{
    labels.iter().position(|label| label.name.is(name))
}

/// The labels after the one at a place.
fn labels_after(labels: &[Label], place: usize) -> &[Label]
    ensures { result.now ≡ drop (place + 1) labels.now }
{
    if place < labels.len() {
        &labels[place + 1..]
    } else {
        &labels[..0]
    }
}

/// Whether one of these labels has this name.
fn has_label(labels: &[Label], name: &[u8]) -> bool
    ensures { result ≡ list_any (has_name name.now) labels.now }
{
    place_of_name(labels, name).is_some()
}

/// The label of this name, where there is just one in the text.
fn only_label(labels: &[Label], name: &[u8]) -> Option<Label>
    ensures { result ≡ only_label labels.now name.now }
{
    let first = place_of_name(labels, name)?;
    let label = labels.get(first).copied()?;
    if has_label(labels_after(labels, first), name) {
        None
    } else {
        Some(label)
    }
}

/// Whether a line is an access.
fn is_access(line: &AlgorithmLine) -> bool
    ensures { result ≡ is_access_line (line_of line.now) }
{
    match &line.form {
        LineKind::Access(_) => true,
        LineKind::Local(_) | LineKind::Done(_) => false,
    }
}

/// The lines from a place on.
fn lines_from(lines: &[AlgorithmLine], place: usize) -> &[AlgorithmLine]
    ensures { result.now ≡ drop place lines.now }
{
    if place <= lines.len() {
        &lines[place..]
    } else {
        &lines[..0]
    }
}

/// Which of these lines is the first access.
fn access_among(lines: &[AlgorithmLine]) -> Option<usize>
    ensures { result ≡ position is_access_line (map line_of lines.now) }
{
    lines.iter().position(|line| is_access(line))
}

/// The place of the first access from a place on, or how many lines there are.
#[tactic(auto, using(crate::proofs::ClaimLabels::access_from))]
fn access_below(lines: &[AlgorithmLine], place: usize) -> usize
    ensures { result ≡ access_below (map line_of lines.now) place }
{
    match access_among(lines_from(lines, place)) {
        Some(count) => place + count,
        None => lines.len(),
    }
}

/// Where a process is that is at a label which a claim names.
fn claimed_place(draft: &Draft, claimed: ClaimLabel) -> Option<usize>
    ensures { result ≡ claimed_place (draft_view draft.now) claimed }
{
    let label = only_label(draft.labels.as_slice(), claimed.name.as_bytes())?;
    Some(access_below(draft.algorithm.lines.as_slice(), label.place))
}

/// Adds a place after the others.
fn add_place(places: &mut Vec<usize>, place: usize) -> Result<(), AlgorithmFault>
    ensures ok { OnOk result (places.new.items ≡ places.old.items ++ place ∷ []) }
    ensures err { IfErr result (λ fault. fault ≡ NoMemory) }
{
    places.push(place).map_err(|_| AlgorithmFault::OutOfMemory)
}

/// The places of all labels that claims name. `BadLabel` at the first claim that names one which is in no call, or in two.
#[tactic(auto, using(crate::proofs::ClaimLabels::places_begun))]
pub fn claimed_places(alloc: Global, draft: &Draft) -> Result<Vec<usize>, AlgorithmFault>
    ensures ok { IfOk result (λ places. claimed_places (draft_view draft.now) ≡ Some places.items) }
    ensures err { IfErr result (λ fault. IsRefusalOf fault (ClaimsHavePlaces (draft_view draft.now))) }
    ensures first { IfErr result (λ fault. OrMemory fault (IsFaultOfClaims (draft_view draft.now) fault)) }
{
    let mut places = Vec::new(alloc);
    for claimed in &draft.claim_labels {
        match claimed_place(draft, *claimed) {
            Some(place) => add_place(&mut places, place)?,
            None => return Err(ReadFault::BadLabel.at(claimed.number)),
        }
    }
    Ok(places)
}
