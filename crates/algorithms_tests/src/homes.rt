//! The homes of words, against the numbers of the reference program's second version.

use crate::cases::words;
use crate::support::{number, text_named};
use algorithm_texts::read_algorithm;
use algorithms::{Address, Algorithm};
use std::alloc::{AllocError, Global};
use std::fmt::Write;
use std::test::Fail;

/// What a text with homes spells.
pub const SPELLED: &str = "spell homes
== homes
--
Access(AccessLine { word: WordOf { declaration: 0, index: None }, action: Swap { name: 0, value: Number(1), guard: None, until: Some(Compare(Equal, Private(0), Number(0))) }, may_withdraw: false })
Local(Note(Enter))
Done(0)
Access(AccessLine { word: WordOf { declaration: 0, index: None }, action: Store { value: Number(0) }, may_withdraw: false })
Local(Note(Leave))
Done(0)
answer \n\
Entries { lock: 0, unlock: 3, recover: None, withdraw: None }
homes [\"h\"]
[Declaration { name: \"held\", extent: One, bound: Some(Number(1)), home: Some(Joined(Quotient, Procs, Number(2))) }, Declaration { name: \"near\", extent: Each, bound: None, home: Some(Me) }, Declaration { name: \"before\", extent: Each, bound: Some(Number(9)), home: Some(Joined(Difference, Me, Number(1))) }, Declaration { name: \"far\", extent: Each, bound: None, home: Some(Joined(Sum, Procs, Me)) }, Declaration { name: \"limited\", extent: One, bound: None, home: Some(Limit) }]
Promises { most_inside: 1, reentry: false, order: false, progress: None, bounds: false }
StepBounds { exit: None, recovery: None, doorway: None }
1 to 64 processes, 0 lasting names
first values Some(FirstValues { starts: [None, None, Some(Number(1)), None, None] })
";

/// The numbers of texts of which some words have homes.
pub const SEARCHES: &str = "\
search with homes\n\
== yang_anderson 2 4 0\n--\n920 states\n\
== yang_anderson 2 4 1\n--\n3268 states\n\
== golab_ramaraju 2 4 0\n--\n1818 states\n\
== golab_ramaraju 2 4 1\n--\n9728 states\n\
";

/// What is wrong, a text, and where: the line, and the number of its fault.
pub const BAD: &str = "\
read faults of homes\n\
== owner of one word\nalgorithm a for 2 processes\npromises exclusion\nconstant nil = procs\nshared x at owner\nshared w\ncall lock\n  w := 1 this is enter\n  done\ncall unlock\n  w := 0 this is leave\n  done\n--\nline 4: fault 4\n\
== me of an array\nalgorithm a for 2 processes\npromises exclusion\nconstant nil = procs\nshared x[procs] at me\nshared w\ncall lock\n  w := 1 this is enter\n  done\ncall unlock\n  w := 0 this is leave\n  done\n--\nline 4: fault 4\n\
== me in the home\nalgorithm a for 2 processes\npromises exclusion\nconstant nil = procs\nshared x at me\nshared w\ncall lock\n  w := 1 this is enter\n  done\ncall unlock\n  w := 0 this is leave\n  done\n--\nline 4: fault 4\n\
== no home\nalgorithm a for 2 processes\npromises exclusion\nconstant nil = procs\nshared x at\nshared w\ncall lock\n  w := 1 this is enter\n  done\ncall unlock\n  w := 0 this is leave\n  done\n--\nline 4: fault 4\n\
== a name in the home\nalgorithm a for 2 processes\npromises exclusion\nconstant nil = procs\nshared x at y\nshared w\ncall lock\n  w := 1 this is enter\n  done\ncall unlock\n  w := 0 this is leave\n  done\n--\nline 4: fault 4\n\
== more after the home\nalgorithm a for 2 processes\npromises exclusion\nconstant nil = procs\nshared x at nil nil\nshared w\ncall lock\n  w := 1 this is enter\n  done\ncall unlock\n  w := 0 this is leave\n  done\n--\nline 4: fault 4\n\
== a bound after it\nalgorithm a for 2 processes\npromises exclusion\nconstant nil = procs\nshared x at 1 up to 2\nshared w\ncall lock\n  w := 1 this is enter\n  done\ncall unlock\n  w := 0 this is leave\n  done\n--\nline 4: fault 4\n\
== a first value after it\nalgorithm a for 2 processes\npromises exclusion\nconstant nil = procs\nshared x at 1 starts 2\nshared w\ncall lock\n  w := 1 this is enter\n  done\ncall unlock\n  w := 0 this is leave\n  done\n--\nline 4: fault 4\n\
== no first value before it\nalgorithm a for 2 processes\npromises exclusion\nconstant nil = procs\nshared x starts at 1\nshared w\ncall lock\n  w := 1 this is enter\n  done\ncall unlock\n  w := 0 this is leave\n  done\n--\nline 4: fault 4\n\
== no bound before it\nalgorithm a for 2 processes\npromises exclusion\nconstant nil = procs\nshared x up to at 1\nshared w\ncall lock\n  w := 1 this is enter\n  done\ncall unlock\n  w := 0 this is leave\n  done\n--\nline 4: fault 4\n\
== a home twice\nalgorithm a for 2 processes\npromises exclusion\nconstant nil = procs\nshared x at 0 at 1\nshared w\ncall lock\n  w := 1 this is enter\n  done\ncall unlock\n  w := 0 this is leave\n  done\n--\nline 4: fault 4\n\
== the word itself\nalgorithm a for 2 processes\npromises exclusion\nconstant nil = procs\nshared x at nil + x\nshared w\ncall lock\n  w := 1 this is enter\n  done\ncall unlock\n  w := 0 this is leave\n  done\n--\nline 4: fault 4\n\
== another word\nalgorithm a for 2 processes\npromises exclusion\nconstant nil = procs\nshared y\nshared x at y\nshared w\ncall lock\n  w := 1 this is enter\n  done\ncall unlock\n  w := 0 this is leave\n  done\n--\nline 5: fault 7\n\
== a condition\nalgorithm a for 2 processes\npromises exclusion\nconstant nil = procs\nshared x at 1 < 2\nshared w\ncall lock\n  w := 1 this is enter\n  done\ncall unlock\n  w := 0 this is leave\n  done\n--\nline 4: fault 4\n\
== of a private name\nalgorithm a for 2 processes\npromises exclusion\nconstant nil = procs\nprivate x at 1\nshared w\ncall lock\n  w := 1 this is enter\n  done\ncall unlock\n  w := 0 this is leave\n  done\n--\nline 4: fault 4\n\
== of a constant\nalgorithm a for 2 processes\npromises exclusion\nconstant nil = procs\nconstant x = 1 at 1\nshared w\ncall lock\n  w := 1 this is enter\n  done\ncall unlock\n  w := 0 this is leave\n  done\n--\nline 4: fault 4\n\
";

/// `at` is no word of the format.
pub const GOOD: &str = "\
read homes\n\
== a shared word\nalgorithm a for 2 processes\npromises exclusion\nshared at[procs] up to 3 at owner\ncall lock\n  v := at[me]\n  at[me] := v this is enter\n  done\ncall unlock\n  at[me] := 0 this is leave\n  done\n--\nread\n\
== a constant\nalgorithm a for 2 processes\npromises exclusion\nconstant at = 1\nshared w[procs] at at\ncall lock\n  w[me] := at this is enter\n  done\ncall unlock\n  w[me] := 0 this is leave\n  done\n--\nread\n\
== a private name\nalgorithm a for 2 processes\npromises exclusion\nshared w up to 9 starts 1 at 64\nprivate at\ncall lock\n  at := w\n  w := at this is enter\n  done\ncall unlock\n  w := at this is leave\n  done\n--\nread\n\
";

/// In worlds of 3 processes: a declaration, an index, a limit, and where that word lives.
pub const HOMES: &str = "\
homes of words\n\
== homes 3\n\
0 0 2 -> 1\n\
1 2 2 -> 2\n\
2 2 2 -> 1\n\
2 0 2 -> nowhere\n\
3 0 2 -> nowhere\n\
4 0 3 -> nowhere\n\
4 0 2 -> 2\n\
";

/// Writes where each of the words lives that the lines name.
fn put_all_homes(
    algorithm: &Algorithm,
    procs: u64,
    lines: &str,
    text: &mut String,
) -> Result<(), AllocError> {
    for line in lines.lines() {
        if let Some((asked, _)) = line.split_once(" -> ") {
            let [declaration, index, limit, ..] = words(asked);
            let word = Address {
                declaration: number(declaration) as usize,
                index: number(index),
            };
            match algorithm.home_of(word, procs, number(limit)) {
                Some(home) => writeln!(text, "{asked} -> {home}")?,
                None => writeln!(text, "{asked} -> nowhere")?,
            }
        }
    }
    Ok(())
}

/// The homes of words, as a case: the text, and the number of processes.
pub fn put_homes(
    alloc: Global,
    words: &[&str; 8],
    lines: &str,
    text: &mut String,
) -> Result<(), Fail> {
    let algorithm = read_algorithm(alloc, text_named(words[0]))?;
    let written = put_all_homes(&algorithm.algorithm, number(words[1]), lines, text);
    drop(algorithm);
    Ok(written?)
}
