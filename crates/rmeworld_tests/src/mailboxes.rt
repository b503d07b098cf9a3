//! The mailbox's tasks, layouts and content: every task and every reply, each cause of a refusal, words that keep the rules
//! of the content and words that break one, and each allocation failing in turn.

use super::memory::are_messages;
use super::phrase::{Phrase, place, reply_of};
use linked_list_allocator::LocalHeap;
use redomail::{Job, Layout, Next, content};
use rmecore::Refusal;
use std::alloc::{AllocError, Global};
use test_support::text::cut;

const ONE: Layout = Layout {
    procs: 1,
    cap: 1,
    width: 1,
};

/// The number of a task's refusal, in a mailbox of these sizes. 0: it is not refused. 99: there is no such task.
fn refusal_of(sizes: &str, task: &str) -> u64 {
    let sizes = Phrase::read(sizes);
    let layout = Layout {
        procs: sizes.number(0),
        cap: sizes.number(1),
        width: sizes.number(2),
    };
    let phrase = Phrase::read(task);
    let refusal = match phrase.task() {
        Some(task) => Job::new(layout, phrase.number(0), task).err(),
        None => Some(Refusal::OutOfMemory),
    };
    match refusal {
        Some(refusal) => refusal.number().unwrap_or(99),
        None => 0,
    }
}

/// A row of a mailbox's sizes, a task, and the number of its refusal; 0 where it is not refused.
pub fn is_refused(row: &str) -> bool {
    let mut rest = row;
    let sizes = cut(&mut rest, ": ");
    let task = cut(&mut rest, ": ");
    rest.parse::<u64>() == Ok(refusal_of(sizes, task))
}

/// Whether a job is as the line says: `feed 5` feeds it, `get 4` and `put 1 1` are its next access, and `done mended` its
/// end. `silent` and `replied mended` are its reply.
fn is_at(job: &mut Job, text: &str) -> bool {
    let phrase = Phrase::read(text);
    let next = job.next();
    let reply = reply_of(phrase.rest);
    match place("feed|get|put|done|silent|replied", phrase.word) {
        Some(0) => {
            job.feed(phrase.number(0));
            true
        }
        Some(1) => next == Next::Get(phrase.number(0)),
        Some(2) => next == Next::Put(phrase.number(0), phrase.number(1)),
        Some(3) => match reply {
            Some(reply) => next == Next::Done(reply),
            None => false,
        },
        Some(4) => job.reply() == None,
        Some(_) => reply.is_some() && job.reply() == reply,
        None => false,
    }
}

/// A row of a task of one process, or of `consistent 0`, and a script of its job.
pub fn is_job(row: &str) -> bool {
    let mut rest = row;
    let asked = Phrase::read(cut(&mut rest, ": "));
    let mut job = match asked.task() {
        Some(task) => match Job::new(ONE, 0, task) {
            Ok(job) => job,
            Err(_) => return false,
        },
        None => Job::seam_mending(ONE, 0),
    };
    for _ in 0..row.len() {
        if rest.is_empty() {
            break;
        }
        if !is_at(&mut job, cut(&mut rest, "; ")) {
            return false;
        }
    }
    true
}

/// Sums and products saturate at the greatest u64, for a place that no layout has.
pub fn indexes_are_held() -> bool {
    let layout = Layout {
        procs: 2,
        cap: 3,
        width: 1,
    };
    layout.board(0) == 7
        && layout.last(1) == 12
        && layout.place(2, 1) == 20
        && layout.words() == 22
        && layout.place(18446744073709551615, 0) == 18446744073709551615
        && layout.place(6148914691236517205, 2) == 18446744073709551615
}

/// A row of a mailbox's sizes, and words that have content, after `sound`, or have none, after `broken`.
pub fn is_content(alloc: Global, sizes: &Phrase<'_>, row: &str) -> bool {
    let layout = Layout {
        procs: sizes.number(0),
        cap: sizes.number(1),
        width: sizes.number(2),
    };
    let mut rest = row;
    let is_sound = cut(&mut rest, " ") == "sound";
    let mut words = [0u64; 31];
    let mut count = 0usize;
    for word in &mut words {
        if rest.is_empty() {
            break;
        }
        let Ok(number) = cut(&mut rest, " ").parse::<u64>() else {
            return false;
        };
        *word = number;
        count = count.saturating_add(1);
    }
    let refusal = content(alloc, layout, words.get(..count).unwrap_or(&[])).err();
    refusal
        == if is_sound {
            None
        } else {
            Some(Refusal::BadShape)
        }
}

const SOUND: [u64; 15] = [0, 0, 1, 0, 0, 1, 77, 0, 0, 0, 0, 1, 0, 1, 77];

/// Reads the content with a heap of this many bytes. None: out of memory.
fn content_within(alloc: Global, budget: usize) -> Result<Option<bool>, AllocError> {
    let heap = LocalHeap::new(alloc, budget)?;
    let answered = match content(&heap, ONE, &SOUND) {
        Ok(messages) => Some(are_messages(&messages, "message 0 1 77")),
        Err(Refusal::OutOfMemory) => None,
        Err(_) => Some(false),
    };
    Ok(answered)
}

/// Each allocation fails in turn, with a budget that grows. The answer is `OutOfMemory` until it is the content.
pub fn needs_memory(alloc: Global) -> bool {
    for budget in 0..100usize {
        let answered = content_within(alloc, budget.saturating_mul(16));
        if answered != Ok(None) {
            return budget > 0 && answered == Ok(Some(true));
        }
    }
    false
}

/// Tasks, jobs and contents.
pub const TABLES: &str = "\
memory: every reply
# Two senders in a mailbox with a capacity of two messages and two words a value: tasks of processes, each with the
# number of its calls of the cells and its reply.
sizes 2 2 2 22: append 0 0 1 2: calls 3 out-of-order; append 0 2 1 2: calls 3 out-of-order; append 0 1 1 2: calls 15 stored; append 0 1 3 4: calls 3 already; append 1 1 3 4: calls 15 stored; put 1 3 9: calls 1 put; get 0 3: calls 1 word 9; get 0 2: calls 1 word 0; append 0 2 1 2: calls 3 full; close 0: calls 2 closed-now; close 1: calls 1 already-closed; append 0 2 1 2: calls 3 closed; append 0 1 1 2: calls 3 already; repair 1: calls 1 nothing-to-mend; check 1: calls 1 not-ruined; ruin 1: calls 1 put; check 0: calls 1 ruined | message 0 1 1 2; message 1 1 3 4 | 1 1 2 0 1 1 3 4 0 0 0 9 1 1 0 1 1 2 1 1 3 4

memory: repair of what is done
# A repair of a record that was applied already, with a capacity of two: count stays. The last of the append's 13 calls
# would clear armed.
sizes 1 2 1 18: append 0 1 5: stops 13; heads 1 1; repair 0: calls 10 mended; heads 1 0 | message 0 1 5

contents: broken words
# Words that break a rule each.
# a message that is shown, and the same with one word changed
sizes 1 1 1: sound 0 0 1 0 0 1 77 0 0 0 0 1 0 1 77
sizes 1 1 1: broken 2 0 1 0 0 1 77 0 0 0 0 1 0 1 77
sizes 1 1 1: broken 0 2 1 0 0 1 77 0 0 0 0 1 0 1 77
sizes 1 1 1: broken 0 0 2 0 0 1 77 0 0 0 0 1 0 1 77
sizes 1 1 1: broken 0 0 1 2 0 1 77 0 0 0 0 1 0 1 77
sizes 1 1 1: broken 0 0 1 0 0 1 77 0 0 0 0 0 0 1 77
sizes 1 1 1: broken 0 0 1 0 0 1 77 0 0 0 0 1 1 1 77
sizes 1 1 1: broken 0 0 1 0 0 1 77 0 0 0 0 1 0 2 77
# another number of words, and sizes outside the limits
sizes 1 1 1: broken 0 0 1 0 0 1 77 0 0 0 0 1 0 1
sizes 1 1 1: broken
sizes 1 1 9: broken 0 0 0 0 0 0 0 0 0 0 0 0 0 0 0 0 0 0 0 0 0 0 0 0 0 0 0 0 0 0 0
sizes 1 1 0: broken 0 0 0 0 0 0 0 0 0 0 0 0 0
sizes 1 18446744073709551615 1: broken 0 0 1 0 0 1 77 0 0 0 0 1 0 1 77

contents: torn words
# Words with an armed record after each apply step, and the same with one word changed.
# armed, nothing applied
sizes 1 1 1: sound 0 0 0 1 0 1 77 0 0 0 0 0 0 0 0
sizes 1 1 1: broken 0 1 0 1 0 1 77 0 0 0 0 0 0 0 0
sizes 1 1 1: broken 0 0 0 1 1 1 77 0 0 0 0 0 0 0 0
sizes 1 1 1: broken 0 0 0 1 0 2 77 0 0 0 0 0 0 0 0
sizes 1 1 1: broken 0 0 0 1 0 1 77 0 0 0 0 2 0 0 0
# the entry and the last number are written
sizes 1 1 1: sound 0 0 0 1 0 1 77 0 0 0 0 1 0 1 77
sizes 1 1 1: broken 0 0 0 1 0 2 77 0 0 0 0 1 0 1 77
sizes 1 1 1: broken 0 0 0 1 0 1 78 0 0 0 0 1 0 1 77
sizes 1 1 1: broken 0 0 0 1 0 1 77 0 0 0 0 2 0 1 77
sizes 1 1 1: broken 0 0 0 1 0 1 77 0 0 0 0 1 0 2 77
sizes 1 1 1: broken 0 0 0 1 0 1 77 0 0 0 0 1 0 1 78
# count is written too
sizes 1 1 1: sound 0 0 1 1 0 1 77 0 0 0 0 1 0 1 77
sizes 1 1 1: broken 0 0 1 1 0 2 77 0 0 0 0 1 0 1 77
sizes 1 1 1: broken 0 0 1 1 0 1 78 0 0 0 0 1 0 1 77
sizes 1 1 1: broken 0 0 1 1 0 1 77 0 0 0 0 2 0 1 77
sizes 1 1 1: broken 0 0 1 1 0 1 77 0 0 0 0 1 0 2 77
sizes 1 1 1: broken 0 0 1 1 0 1 77 0 0 0 0 1 0 1 78

tasks: refusals in order
# Each cause of a refusal, and their order.
sizes 0 0 0: get 9 4: 1
sizes 65 1 1: close 0: 1
sizes 1 0 0: get 9 4: 8
sizes 1 65537 0: get 9 4: 8
sizes 1 1 0: get 1 4: 3
sizes 1 1 0: put 0 4 1: 13
sizes 1 1 0: get 0 3: 15
sizes 1 1 9: repair 0: 15
sizes 64 65536 1: append 63 1 1 2: 15
sizes 64 65536 3: append 63 1 1 2: 15
sizes 64 65536 2: append 63 1 1 2: 0
sizes 1 1 8: put 0 3 5: 0

jobs: odd flags
# Any value of armed except 0 counts as 1, on words that no lawful image has. For closed and ruined only 1 counts. A job
# that is done ignores further words.
repair 0: feed 0; done nothing-to-mend
repair 0: feed 1; get 4
repair 0: feed 5; get 4
close 0: feed 1; done already-closed
close 0: feed 5; put 1 1
check 0: feed 5; done not-ruined
check 0: get 0; feed 1; done ruined; feed 0; done ruined

jobs: consistent asks first
# `consistent` first reads whether the lock is ruined. If so, that is its reply. If not, the repair comes next.
consistent 0: get 0; silent; feed 1; replied ruined
consistent 0: feed 0; get 3; silent";
