//! The remote references of the passages that random schedules complete, against the numbers of the reference program's second
//! version with the same generator.

use crate::remote_references::MODELS;
use crate::support::{number, text_named};
use algorithm_hunts::{RandomRounds, algorithm_cost_totals};
use algorithm_texts::read_algorithm;
use std::alloc::Global;
use std::fmt::Write;
use std::test::Fail;

/// After the text the sizes, the seed, the rounds, and the moves of each. Of each model the references of all passages, and their
/// number.
pub const TOTALS: &str = "\
random costs\n\
== ticket 2 1000000 7 20 500\n--\ndsm 7475 1187\nwrite-through 3559 1187\nwrite-back 3483 1187\n\
== ticket 3 1000000 7 20 500\n--\ndsm 8011 805\nwrite-through 3130 805\nwrite-back 3126 805\n\
== mcs 2 1000000 7 20 500\n--\ndsm 7964 910\nwrite-through 5479 910\nwrite-back 4686 910\n\
== mcs 3 1000000 7 20 500\n--\ndsm 8178 730\nwrite-through 5087 730\nwrite-back 4977 730\n\
== peterson 2 1000000 7 20 500\n--\ndsm 7556 1123\nwrite-through 5285 1123\nwrite-back 4444 1123\n\
";

/// The totals of an algorithm, as a case.
pub fn put_totals(alloc: Global, words: &[&str; 8], text: &mut String) -> Result<(), Fail> {
    let [name, procs, limit, seed, rounds, steps, ..] = words;
    for (model, model_name) in MODELS {
        let algorithm = read_algorithm(alloc, text_named(name))?;
        let asked = RandomRounds {
            model,
            rounds: number(rounds),
            steps: number(steps),
        };
        let (procs, limit, seed) = (number(procs), number(limit), number(seed));
        let totals = algorithm_cost_totals(alloc, algorithm, procs, limit, asked, seed)?;
        writeln!(text, "{model_name} {} {}", totals.sum, totals.count)?;
    }
    Ok(())
}
