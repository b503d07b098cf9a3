//! What the text of the recoverable Bakery spells: the value of which the laws of `algorithm_lab` speak, line by line.

use crate::support::text_named;
use algorithm_texts::read_algorithm;
use algorithms::{Algorithm, InitializedAlgorithm};
use std::alloc::{AllocError, Global};
use std::fmt::Write;
use std::test::Fail;

/// The forms of the lines, in the order of `lines` of Bakery.antt, the answers, in the order of `answer_number` of Moves.antt, and
/// all else. No first values are said: the laws speak of worlds whose words begin at 0.
pub const BAKERY: &str = "spell the bakery
== bakery
--
Access(AccessLine { word: WordOf { declaration: 0, index: Some(Me) }, action: Load { name: 0 }, may_withdraw: false })
Access(AccessLine { word: WordOf { declaration: 1, index: Some(Me) }, action: Load { name: 1 }, may_withdraw: false })
Access(AccessLine { word: WordOf { declaration: 2, index: Some(Me) }, action: Load { name: 2 }, may_withdraw: false })
Local(Branch { condition: And(Compare(Equal, Private(0), Number(1)), Compare(Equal, Private(1), Number(0))), otherwise: 5 })
Local(Goto(16))
Local(Branch { condition: Compare(Equal, Private(0), Number(1)), otherwise: 7 })
Local(Goto(28))
Local(Branch { condition: And(Compare(Greater, Private(1), Number(0)), Compare(Equal, Private(2), Number(0))), otherwise: 9 })
Local(Goto(29))
Local(Branch { condition: Compare(Greater, Private(1), Number(0)), otherwise: 12 })
Local(Note(Reenter))
Done(0)
Local(Branch { condition: Compare(Equal, Private(2), Number(1)), otherwise: 14 })
Access(AccessLine { word: WordOf { declaration: 2, index: Some(Me) }, action: Store { value: Number(0) }, may_withdraw: false })
Access(AccessLine { word: WordOf { declaration: 0, index: Some(Me) }, action: Store { value: Number(1) }, may_withdraw: false })
Local(Note(Begin))
Local(Assign { name: 3, value: Number(0) })
Local(First { name: 4, members: Others, after: 21 })
Access(AccessLine { word: WordOf { declaration: 1, index: Some(Private(4)) }, action: Load { name: 5 }, may_withdraw: false })
Local(Assign { name: 3, value: Joined(Maximum, Private(3), Private(5)) })
Local(Next { name: 4, members: Others, body: 18 })
Local(Branch { condition: Compare(Equal, Private(3), Limit), otherwise: 25 })
Access(AccessLine { word: WordOf { declaration: 0, index: Some(Me) }, action: Store { value: Number(0) }, may_withdraw: false })
Local(Note(Quit))
Done(1)
Local(Assign { name: 1, value: Joined(Sum, Private(3), Number(1)) })
Access(AccessLine { word: WordOf { declaration: 1, index: Some(Me) }, action: Store { value: Private(1) }, may_withdraw: false })
Local(Note(Ready))
Access(AccessLine { word: WordOf { declaration: 0, index: Some(Me) }, action: Store { value: Number(0) }, may_withdraw: false })
Local(First { name: 4, members: Others, after: 33 })
Access(AccessLine { word: WordOf { declaration: 0, index: Some(Private(4)) }, action: Await { name: 0, until: Compare(Equal, Private(0), Number(0)) }, may_withdraw: true })
Access(AccessLine { word: WordOf { declaration: 1, index: Some(Private(4)) }, action: Await { name: 5, until: Or(Compare(Equal, Private(5), Number(0)), ComparePairs(Less, Pair { first: Private(1), second: Me }, Pair { first: Private(5), second: Private(4) })) }, may_withdraw: true })
Local(Next { name: 4, members: Others, body: 30 })
Access(AccessLine { word: WordOf { declaration: 2, index: Some(Me) }, action: Store { value: Number(1) }, may_withdraw: true })
Local(Note(Enter))
Done(2)
Access(AccessLine { word: WordOf { declaration: 1, index: Some(Me) }, action: Store { value: Number(0) }, may_withdraw: false })
Local(Note(Leave))
Access(AccessLine { word: WordOf { declaration: 2, index: Some(Me) }, action: Store { value: Number(0) }, may_withdraw: false })
Done(3)
Access(AccessLine { word: WordOf { declaration: 0, index: Some(Me) }, action: Load { name: 0 }, may_withdraw: false })
Access(AccessLine { word: WordOf { declaration: 1, index: Some(Me) }, action: Load { name: 1 }, may_withdraw: false })
Access(AccessLine { word: WordOf { declaration: 2, index: Some(Me) }, action: Load { name: 2 }, may_withdraw: false })
Local(Branch { condition: And(Compare(Equal, Private(0), Number(1)), Compare(Equal, Private(1), Number(0))), otherwise: 45 })
Done(4)
Local(Branch { condition: Compare(Equal, Private(0), Number(1)), otherwise: 48 })
Access(AccessLine { word: WordOf { declaration: 0, index: Some(Me) }, action: Store { value: Number(0) }, may_withdraw: false })
Done(5)
Local(Branch { condition: And(Compare(Greater, Private(1), Number(0)), Compare(Equal, Private(2), Number(0))), otherwise: 50 })
Done(5)
Local(Branch { condition: Compare(Greater, Private(1), Number(0)), otherwise: 53 })
Local(Note(Reenter))
Done(6)
Local(Branch { condition: Compare(Equal, Private(2), Number(0)), otherwise: 55 })
Done(7)
Access(AccessLine { word: WordOf { declaration: 2, index: Some(Me) }, action: Store { value: Number(0) }, may_withdraw: false })
Done(8)
Access(AccessLine { word: WordOf { declaration: 1, index: Some(Me) }, action: Store { value: Number(0) }, may_withdraw: false })
Local(Note(Quit))
Done(9)
answer owner-died
answer numbers-spent
answer clean
answer unlocked
answer found doorway
answer found waiting
answer found inside
answer found idle
answer found left
answer withdrawn
Entries { lock: 0, unlock: 36, recover: Some(40), withdraw: Some(57) }
bakery [\"c\", \"k\", \"i\", \"m\", \"j\", \"v\"]
[Declaration { name: \"choosing\", extent: Each, bound: Some(Number(1)), home: None }, Declaration { name: \"number\", extent: Each, bound: Some(Limit), home: None }, Declaration { name: \"inside\", extent: Each, bound: Some(Number(1)), home: None }]
Promises { most_inside: 1, reentry: true, order: true, progress: None, bounds: false }
StepBounds { exit: None, recovery: None, doorway: None }
1 to 64 processes, 0 lasting names
first values None
";

/// Two answers that differ in the spaces between their words alone.
pub const SPACED: &str =
    "answers with spaces\n== spaces\nalgorithm a for 2 processes\npromises exclusion\nshared x\ncall lock\n  x := 1 this is enter\n  done   let-in  at once \ncall unlock\n  x := 0 this is leave\n  done let-in at   once# again\n--\nanswer let-in at once\n";

/// Writes each answer.
fn put_answers(algorithm: &Algorithm, text: &mut String) -> Result<(), AllocError> {
    for answer in &algorithm.answers {
        writeln!(text, "answer {answer}")?;
    }
    Ok(())
}

/// Writes all that a text spells.
fn put_all(spelled: &InitializedAlgorithm, text: &mut String) -> Result<(), AllocError> {
    let algorithm = &spelled.algorithm;
    for line in &algorithm.lines {
        writeln!(text, "{:?}", line.form)?;
    }
    put_answers(algorithm, text)?;
    writeln!(text, "{:?}", algorithm.entries)?;
    writeln!(text, "{} {:?}", algorithm.name, algorithm.names)?;
    writeln!(text, "{:?}", algorithm.declarations)?;
    writeln!(text, "{:?}", algorithm.promises)?;
    writeln!(text, "{:?}", algorithm.step_bounds)?;
    let (least, most) = (algorithm.least, algorithm.most);
    writeln!(
        text,
        "{least} to {most} processes, {} lasting names",
        algorithm.lasting
    )?;
    writeln!(text, "first values {:?}", spelled.first_values)
}

/// The answers of the text that is given, as a case.
pub fn put_answers_of(alloc: Global, given: &str, text: &mut String) -> Result<(), Fail> {
    let algorithm = read_algorithm(alloc, given.as_bytes())?;
    let written = put_answers(&algorithm.algorithm, text);
    drop(algorithm);
    Ok(written?)
}

/// What a text spells, as a case: its name.
pub fn put_spelling(alloc: Global, words: &[&str; 8], text: &mut String) -> Result<(), Fail> {
    let algorithm = read_algorithm(alloc, text_named(words[0]))?;
    let written = put_all(&algorithm, text);
    drop(algorithm);
    Ok(written?)
}
