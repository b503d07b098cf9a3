//! Writes what never holds.

use crate::constants::is_constant_name;
use crate::names::is_declared;
use crate::writer::operands::{put_condition, put_name};
use crate::writer::page::AlgorithmText;
use crate::writer::statements::put_word_of;
use crate::writer::text_builder::TextBuilder;
use algorithms::algorithm::Algorithm;
use algorithms::expression::NAMES;
use algorithms::never_claim::{ClaimedPhase, NeverClaim, StateFact};
use std::alloc::{AllocError, Global};

/// What is written for each name of a claim: its processes, and what it looks at.
#[derive(Drop)]
struct ClaimNames {
    words: Vec<String>,
    /// Which of them say of themselves that they are 1.
    tests: Vec<bool>,
}

/// The word of a phase.
fn phase_word(phase: ClaimedPhase) -> &'static str {
    match phase {
        ClaimedPhase::Out => "out",
        ClaimedPhase::Doorway => "doorway",
        ClaimedPhase::Waiting => "waiting",
        ClaimedPhase::Inside => "inside",
        ClaimedPhase::Dead => "dead",
    }
}

impl ClaimNames {
    /// Adds one more.
    fn add(&mut self, word: String, is_test: bool) -> Result<(), AllocError> {
        self.words.push(word)?;
        self.tests.push(is_test)?;
        Ok(())
    }
}

/// The name of a process of this number.
fn process_name(alloc: Global, number: u64) -> Result<String, AllocError> {
    let mut text = TextBuilder::new(alloc);
    text.put("p");
    text.put_number(number);
    text.into_text()
}

/// Whether no shared word and no constant has the name of a process of this number.
fn is_free(alloc: Global, algorithm: &Algorithm, number: u64) -> Result<bool, AllocError> {
    let name = process_name(alloc, number)?;
    Ok(!(is_declared(algorithm, name.as_bytes()) || is_constant_name(algorithm, name.as_bytes())))
}

/// The first number from one on with which no shared word and no constant has the name of a process.
fn free_number(alloc: Global, algorithm: &Algorithm, first: u64) -> Result<u64, AllocError> {
    for number in first..u64::MAX {
        if is_free(alloc, algorithm, number)? {
            return Ok(number);
        }
    }
    Ok(first)
}

/// Adds the name of a process whose number is above this one, and answers its number.
fn add_process(
    alloc: Global,
    algorithm: &Algorithm,
    names: &mut ClaimNames,
    last: u64,
) -> Result<u64, AllocError> {
    let number = free_number(alloc, algorithm, last.saturating_add(1))?;
    names.add(process_name(alloc, number)?, false)?;
    Ok(number)
}

/// Adds the names of the processes of a claim.
fn add_processes(
    alloc: Global,
    algorithm: &Algorithm,
    names: &mut ClaimNames,
    processes: usize,
) -> Result<(), AllocError> {
    let mut number: u64 = 0;
    for _ in 0..processes.min(NAMES) {
        number = add_process(alloc, algorithm, names, number)?;
    }
    Ok(())
}

/// Writes a fact, by the names before it.
fn put_fact(
    text: &mut TextBuilder,
    algorithm: &Algorithm,
    labels: &[usize],
    names: &[String],
    fact: &StateFact,
) {
    match fact {
        StateFact::Word(word) => put_word_of(text, algorithm, names, word),
        StateFact::Phase { name, phase } => {
            put_name(text, names, *name);
            text.put(" is ");
            text.put(phase_word(*phase));
        }
        StateFact::Place { name, label } => {
            put_name(text, names, *name);
            text.put(" at ");
            text.put_label(labels.get(*label).copied().unwrap_or(0));
        }
    }
}

/// What is written for a fact, by the names before it.
fn fact_text(
    alloc: Global,
    algorithm: &Algorithm,
    labels: &[usize],
    names: &[String],
    fact: &StateFact,
) -> Result<String, AllocError> {
    let mut text = TextBuilder::new(alloc);
    put_fact(&mut text, algorithm, labels, names, fact);
    text.into_text()
}

/// Whether a fact is so or not.
fn is_test(fact: &StateFact) -> bool {
    !matches!(fact, StateFact::Word(_))
}

/// Adds what is written for the facts of a claim, each by the names before it.
fn add_facts(
    alloc: Global,
    algorithm: &Algorithm,
    labels: &[usize],
    names: &mut ClaimNames,
    claim: &NeverClaim,
) -> Result<(), AllocError> {
    for fact in &claim.facts {
        let word = fact_text(alloc, algorithm, labels, names.words.as_slice(), fact)?;
        names.add(word, is_test(fact))?;
    }
    Ok(())
}

/// What is written for each name of a claim.
fn claim_names(
    alloc: Global,
    algorithm: &Algorithm,
    labels: &[usize],
    claim: &NeverClaim,
) -> Result<ClaimNames, AllocError> {
    let mut names = ClaimNames {
        words: Vec::new(alloc),
        tests: Vec::new(alloc),
    };
    add_processes(alloc, algorithm, &mut names, claim.processes)?;
    add_facts(alloc, algorithm, labels, &mut names, claim)?;
    Ok(names)
}

/// Writes the processes that a claim names, where it does.
fn put_processes(text: &mut TextBuilder, names: &[String], processes: usize) {
    for place in 0..processes.min(NAMES) {
        text.put(if place == 0 { " for " } else { ", " });
        put_name(text, names, place);
    }
    text.put(if processes == 0 { " " } else { ": " });
}

/// Writes a claim by these names.
fn put_named(text: &mut TextBuilder, names: &ClaimNames, claim: &NeverClaim) {
    let words = names.words.as_slice();
    text.put("never");
    put_processes(text, words, claim.processes);
    put_condition(text, words, names.tests.as_slice(), &claim.condition, 1);
}

/// Writes the next claim on a line of its own.
fn put_claim(alloc: Global, page: &mut AlgorithmText, algorithm: &Algorithm, claim: &NeverClaim) {
    match claim_names(alloc, algorithm, page.labels.as_slice(), claim) {
        Ok(names) => put_named(&mut page.text, &names, claim),
        Err(AllocError) => page.text.lose(),
    }
    page.claims = page.claims.saturating_add(1);
    page.end_line();
}

/// Writes the next claims as long as the line of the first of them comes next, or has passed.
pub fn put_due_claims(alloc: Global, page: &mut AlgorithmText, algorithm: &Algorithm) {
    for _ in 0..algorithm.claims.len() {
        match algorithm.claims.get(page.claims) {
            Some(claim) if claim.number <= page.next_number() => {
                put_claim(alloc, page, algorithm, claim);
            }
            _ => return,
        }
    }
}

/// Writes all claims that are left, each at its number.
pub fn put_other_claims(alloc: Global, page: &mut AlgorithmText, algorithm: &Algorithm) {
    for _ in 0..algorithm.claims.len() {
        match algorithm.claims.get(page.claims) {
            Some(claim) => {
                page.fill(claim.number);
                put_claim(alloc, page, algorithm, claim);
            }
            None => return,
        }
    }
}
