//! Phrases: a word, numbers, and a rest, as in `append 0 1 77` or `step 0 8 clean`.

use redomail::{Deed, Message, Reply, Task};
use rmecore::{Body, Found, Outer, Refusal};
use rmeworld::{Answer, Call};
use test_support::text::cut;

/// A phrase. A number that is missing counts as the greatest u64.
#[derive(Clone, Copy)]
pub struct Phrase<'a> {
    pub word: &'a str,
    numbers: [u64; 12],
    count: usize,
    /// The text after the numbers.
    pub rest: &'a str,
}

/// Whether a refusal is the one of the text, as in `refused 11`.
pub fn is_refusal(refusal: Refusal, text: &str) -> bool {
    let phrase = Phrase::read(text);
    phrase.word == "refused" && refusal.number() == Some(phrase.number(0))
}

/// The position of a name among names separated by `|`.
pub fn place(names: &str, name: &str) -> Option<u64> {
    let mut rest = names;
    for at in 0..names.len() as u64 {
        if rest.is_empty() {
            break;
        }
        if cut(&mut rest, "|") == name {
            return Some(at);
        }
    }
    None
}

impl<'a> Phrase<'a> {
    pub fn read(text: &'a str) -> Phrase<'a> {
        let mut rest = text;
        let word = cut(&mut rest, " ");
        let mut numbers = [u64::MAX; 12];
        let mut count = 0usize;
        for slot in &mut numbers {
            let mut after = rest;
            let Ok(number) = cut(&mut after, " ").parse::<u64>() else {
                break;
            };
            *slot = number;
            count = count.saturating_add(1);
            rest = after;
        }
        Phrase {
            word,
            numbers,
            count,
            rest,
        }
    }

    pub fn number(&self, at: usize) -> u64 {
        self.numbers.get(at).copied().unwrap_or(u64::MAX)
    }

    /// The numbers from a position on.
    pub fn numbers(&self, from: usize) -> &[u64] {
        self.numbers.get(from..self.count).unwrap_or(&[])
    }

    /// The numbers from a position on, as a value.
    pub fn body(&self, from: usize) -> Option<Body> {
        Body::new(self.numbers(from)).ok()
    }

    /// The deed of the lock with this name, as reports write it.
    pub fn outer(&self) -> Option<Outer> {
        let p = self.number(0);
        match place("begin|ready|enter|crash|reenter|leave|quit", self.word)? {
            0 => Some(Outer::Begin(p)),
            1 => Some(Outer::Ready(p)),
            2 => Some(Outer::Enter(p)),
            3 => Some(Outer::Crash(p)),
            4 => Some(Outer::Reenter(p)),
            5 => Some(Outer::Leave(p)),
            _ => Some(Outer::Quit(p)),
        }
    }

    /// The deed with this name.
    pub fn deed(&self) -> Option<Deed> {
        let p = self.number(0);
        match place("commit|show|close|ruin", self.word) {
            Some(0) => Some(Deed::Commit {
                p,
                seq: self.number(1),
                v: self.body(2)?,
            }),
            Some(1) => Some(Deed::Show {
                p,
                at: self.number(1),
                seq: self.number(2),
                v: self.body(3)?,
            }),
            Some(2) => Some(Deed::Close { p }),
            Some(3) => Some(Deed::Ruin { p }),
            _ => Some(Deed::Outer(self.outer()?)),
        }
    }

    /// The message of the numbers, as in `message 0 1 77`.
    pub fn message(&self) -> Option<Message> {
        Some(Message {
            sender: self.number(0),
            seq: self.number(1),
            value: self.body(2)?,
        })
    }

    /// The task of the mailbox with this name.
    pub fn task(&self) -> Option<Task> {
        match place("repair|close|ruin|check|get|put|append", self.word)? {
            0 => Some(Task::Repair),
            1 => Some(Task::Close),
            2 => Some(Task::Ruin),
            3 => Some(Task::Check),
            4 => Some(Task::BoardGet(self.number(1))),
            5 => Some(Task::BoardPut(self.number(1), self.number(2))),
            _ => Some(Task::Append {
                seq: self.number(1),
                value: self.body(2)?,
            }),
        }
    }

    /// The call with this name.
    pub fn call(&self) -> Option<Call> {
        let names = "lock|unlock|consistent|recover|withdraw|close|get|put|append";
        match place(names, self.word)? {
            0 => Some(Call::Lock),
            1 => Some(Call::Unlock),
            2 => Some(Call::Consistent),
            3 => Some(Call::Recover),
            4 => Some(Call::Withdraw),
            5 => Some(Call::Close),
            6 => Some(Call::Get(self.number(1))),
            7 => Some(Call::Put(self.number(1), self.number(2))),
            _ => Some(Call::Append {
                seq: self.number(1),
                value: self.body(2)?,
            }),
        }
    }
}

/// The result of a recovery, by its name.
pub fn found_of(name: &str) -> Option<Found> {
    let names = "found idle|found left|found doorway|found waiting|found inside";
    match place(names, name)? {
        0 => Some(Found::Idle),
        1 => Some(Found::Left),
        2 => Some(Found::Doorway),
        3 => Some(Found::Waiting),
        _ => Some(Found::Inside),
    }
}

/// The mailbox's reply with this name. That with a board word is `word 9`.
pub fn reply_of(name: &str) -> Option<Reply> {
    let names =
        "stored|already|out-of-order|full|closed|closed-now|already-closed|mended|nothing-to-mend|put|ruined|not-ruined";
    match place(names, name) {
        Some(0) => Some(Reply::Stored),
        Some(1) => Some(Reply::Already),
        Some(2) => Some(Reply::OutOfOrder),
        Some(3) => Some(Reply::Full),
        Some(4) => Some(Reply::Closed),
        Some(5) => Some(Reply::ClosedNow),
        Some(6) => Some(Reply::AlreadyClosed),
        Some(7) => Some(Reply::Mended(true)),
        Some(8) => Some(Reply::Mended(false)),
        Some(9) => Some(Reply::Done),
        Some(10) => Some(Reply::Ruined(true)),
        Some(_) => Some(Reply::Ruined(false)),
        None => Some(Reply::Word(name.strip_prefix("word ")?.parse::<u64>().ok()?)),
    }
}

/// The answer of a world with this name, as reports write it.
pub fn answer_of(name: &str) -> Option<Answer> {
    let names = "clean|owner-died|numbers-spent|not-recoverable|unlocked|withdrawn";
    match place(names, name) {
        Some(0) => Some(Answer::Clean),
        Some(1) => Some(Answer::OwnerDied),
        Some(2) => Some(Answer::NumbersSpent),
        Some(3) => Some(Answer::NotRecoverable),
        Some(4) => Some(Answer::Unlocked),
        Some(_) => Some(Answer::Withdrawn),
        None => match found_of(name) {
            Some(found) => Some(Answer::Found(found)),
            None => Some(Answer::Mail(reply_of(name)?)),
        },
    }
}
