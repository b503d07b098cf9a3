//! The stages of a job.

ghost use Rattle.std.specs.Prelude.{◌≡◌, ℕ, ◌<◌, ◌+◌, ◌↔◌, None, IsTrue, length, slice_set};
ghost use Rattle.redomail.specs.Layout.{IsLayout};
ghost use Rattle.redomail.specs.Jobs.{FitsStage, left_at};
ghost use Rattle.redomail.specs.Refusals.{task_refusal};
ghost use Rattle.redomail.specs.Script.{head, tail, reply_in};
ghost use Rattle.redomail.specs.Stages.{first_stage, stage_after, read_stage, decided_stage, StoresNothing};
ghost use Rattle.redomail.specs.Tasks.{script, append_decision as decided_by};

use crate::append::early_reply;
use crate::layout::{ARMED, CLOSED, COUNT, Layout, RECORD, RUINED};
use crate::next::Next;
use crate::record::Record;
use crate::reply::Reply;
use crate::task::Task;
use rmecore::Body;

/// The stage of a job: its next step, and the values that the steps before it have read.
#[derive(Clone, Copy)]
pub enum JobStage {
    /// Append, with its number and value: reads closed.
    AskClosed(u64, Body),
    /// Append: reads count. The last field is closed.
    AskCount(u64, Body, u64),
    /// Append: reads the sender's last number. The last fields are closed and count.
    AskLast(u64, Body, u64, u64),
    /// `consistent`: reads ruined. The repair comes after it.
    AskUsable,
    /// Repair: reads armed.
    AskArmed,
    /// Repair: reads the record's place.
    AskAt,
    /// Repair: reads the record's number. The field is the place.
    AskSeq(u64),
    /// Repair: reads the record's value. The fields are the place, the number, the words read so far, and how many they are.
    AskValue(u64, u64, [u64; 8], u64),
    /// Stores the record: the number of puts done, and the reply after the last of them.
    Write(Record, u64, Reply),
    /// Close: reads closed.
    AskOpen,
    PutClosed,
    GetBoard(u64),
    PutBoard(u64, u64),
    PutRuined,
    AskRuined,
    Ended(Reply),
}

impl JobStage {
    /// The first stage of a task.
    pub(crate) fn first(layout: Layout, sender: u64, task: Task) -> JobStage
        requires { task_refusal layout sender task ≡ None }
        ensures left { left_at layout sender result ≡ script layout sender task }
        ensures exact { result ≡ first_stage task }
        ensures fits { FitsStage layout result }
    {
        match task {
            Task::Append { seq, value } => JobStage::AskClosed(seq, value),
            Task::Close => JobStage::AskOpen,
            Task::Repair => JobStage::AskArmed,
            Task::BoardGet(i) => JobStage::GetBoard(i),
            Task::BoardPut(i, v) => JobStage::PutBoard(i, v),
            Task::Ruin => JobStage::PutRuined,
            Task::Check => JobStage::AskRuined,
        }
    }

    /// Whether the stage's values are within the bounds of this layout.
    pub(crate) fn fits(&self, layout: Layout) -> bool
        requires { IsLayout layout }
        ensures { IsTrue result ↔ FitsStage layout self.now }
    {
        match *self {
            JobStage::AskClosed(_, value)
            | JobStage::AskCount(_, value, _)
            | JobStage::AskLast(_, value, _, _) => { value.width() == layout.width }
            JobStage::AskValue(_, _, words, read) => is_short(layout, words, read),
            JobStage::Write(record, step, _) => {
                record.value.width() == layout.width && step < 8 + 2 * layout.width
            }
            JobStage::GetBoard(i) | JobStage::PutBoard(i, _) => i < 4,
            JobStage::AskUsable
            | JobStage::AskArmed
            | JobStage::AskAt
            | JobStage::AskSeq(_)
            | JobStage::AskOpen
            | JobStage::PutClosed
            | JobStage::PutRuined
            | JobStage::AskRuined
            | JobStage::Ended(_) => true,
        }
    }

    /// The next access of process `sender`, or the reply.
    pub(crate) fn next(&self, layout: Layout, sender: u64) -> Next
        requires lawful { IsLayout layout }
        requires below { sender < layout.procs }
        requires fits { FitsStage layout self.now }
        ensures { result ≡ head (left_at layout sender self.now) }
    {
        match *self {
            JobStage::AskClosed(..) | JobStage::AskOpen => Next::Get(CLOSED),
            JobStage::AskCount(..) => Next::Get(COUNT),
            JobStage::AskLast(..) => Next::Get(layout.last(sender)),
            JobStage::AskArmed => Next::Get(ARMED),
            JobStage::AskAt => Next::Get(RECORD),
            JobStage::AskSeq(_) => Next::Get(RECORD + 1),
            JobStage::AskValue(_, _, _, read) => Next::Get(RECORD + 2 + read),
            JobStage::Write(ref record, step, _) => {
                let (i, v) = record.put(layout, sender, step);
                Next::Put(i, v)
            }
            JobStage::PutClosed => Next::Put(CLOSED, 1),
            JobStage::GetBoard(i) => Next::Get(layout.board(i)),
            JobStage::PutBoard(i, v) => Next::Put(layout.board(i), v),
            JobStage::PutRuined => Next::Put(RUINED, 1),
            JobStage::AskUsable | JobStage::AskRuined => Next::Get(RUINED),
            JobStage::Ended(reply) => Next::Done(reply),
        }
    }

    /// Takes one step, with the word that was read. A stage that stores a record is changed in place.
    // Inline: one call a step.
    #[inline(always)]
    pub(crate) fn go_on(&mut self, layout: Layout, sender: u64, word: u64)
        requires lawful { IsLayout layout }
        requires below { sender < layout.procs }
        requires fits { FitsStage layout self.old }
        ensures left { left_at layout sender self.new ≡ tail (left_at layout sender self.old) word }
        ensures exact { self.new ≡ stage_after layout self.old word }
        ensures fits { FitsStage layout self.new }
    {
        match self {
            JobStage::Write(_, step, reply) => {
                if *step + 1 < 8 + 2 * layout.width {
                    *step += 1;
                } else {
                    let reply = *reply;
                    *self = JobStage::Ended(reply);
                }
            }
            _ => self.ask_on(layout, sender, word),
        }
    }

    /// A step of a stage that stores no record.
    // Apart: keeps the caller small.
    #[inline(never)]
    fn ask_on(&mut self, layout: Layout, sender: u64, word: u64)
        requires lawful { IsLayout layout }
        requires below { sender < layout.procs }
        requires fits { FitsStage layout self.old }
        requires asks { StoresNothing self.old }
        ensures left { left_at layout sender self.new ≡ tail (left_at layout sender self.old) word }
        ensures exact { self.new ≡ stage_after layout self.old word }
        ensures fits { FitsStage layout self.new }
    {
        *self = self.after(layout, sender, word);
    }

    /// The stage after one that stores no record, with the word that was read.
    // Inline: its one caller is apart.
    #[inline(always)]
    fn after(&self, layout: Layout, sender: u64, word: u64) -> JobStage
        requires lawful { IsLayout layout }
        requires below { sender < layout.procs }
        requires fits { FitsStage layout self.now }
        requires asks { StoresNothing self.now }
        ensures left { left_at layout sender result ≡ tail (left_at layout sender self.now) word }
        ensures exact { result ≡ stage_after layout self.now word }
        ensures fits { FitsStage layout result }
    {
        match *self {
            JobStage::AskClosed(seq, value) => JobStage::AskCount(seq, value, word),
            JobStage::AskCount(seq, value, closed) => JobStage::AskLast(seq, value, closed, word),
            JobStage::AskLast(seq, value, closed, count) => append_decision(
                layout, seq, value, closed, count, word,
            ),
            JobStage::AskUsable if word == 1 => JobStage::Ended(Reply::Ruined(true)),
            JobStage::AskUsable => JobStage::AskArmed,
            JobStage::AskArmed if word == 0 => JobStage::Ended(Reply::Mended(false)),
            JobStage::AskArmed => JobStage::AskAt,
            JobStage::AskAt => JobStage::AskSeq(word),
            JobStage::AskSeq(at) => JobStage::AskValue(at, word, [0; 8], 0),
            JobStage::AskValue(at, seq, words, read) => read_on(layout, at, seq, words, read, word),
            JobStage::Write(..) => unreachable!(),
            JobStage::AskOpen if word == 1 => JobStage::Ended(Reply::AlreadyClosed),
            JobStage::AskOpen => JobStage::PutClosed,
            JobStage::PutClosed => JobStage::Ended(Reply::ClosedNow),
            JobStage::GetBoard(_) => JobStage::Ended(Reply::Word(word)),
            JobStage::PutBoard(..) | JobStage::PutRuined => JobStage::Ended(Reply::Done),
            JobStage::AskRuined => JobStage::Ended(Reply::Ruined(word == 1)),
            JobStage::Ended(reply) => JobStage::Ended(reply),
        }
    }

    /// The reply, if the job has ended.
    // Inline: one call a step.
    #[inline(always)]
    pub(crate) fn reply(&self) -> Option<Reply>
        ensures { (l : Layout) (p : ℕ) → FitsStage l self.now → result ≡ reply_in (head (left_at l p self.now)) }
    {
        match self {
            JobStage::Ended(reply) => Some(*reply),
            _ => None,
        }
    }
}

/// Whether a repair that has read `read` words of the record's value has one more to read.
fn is_short(layout: Layout, words: [u64; 8], read: u64) -> bool
    ensures short { IsTrue result ↔ (read < layout.width) }
    ensures room { length words ≡ 8 }
{
    // For the proof alone: its value is read.
    let _ = words;
    read < layout.width
}

/// The stage of a repair after one more word of the record's value.
fn read_on(layout: Layout, at: u64, seq: u64, words: [u64; 8], read: u64, word: u64) -> JobStage
    requires lawful { IsLayout layout }
    requires within { read < layout.width }
    requires room { length words ≡ 8 }
    ensures left { (p : ℕ) → left_at layout p result ≡ tail (left_at layout p (JobStage.AskValue at seq words read)) word }
    ensures exact { result ≡ read_stage layout at seq (slice_set words read word) (read + 1) }
    ensures fits { FitsStage layout result }
{
    let mut words = words;
    words[read as usize] = word;
    let read = read + 1;
    if read < layout.width {
        return JobStage::AskValue(at, seq, words, read);
    }
    let Ok(value) = Body::new(&words[..read as usize]) else {
        unreachable!()
    };
    JobStage::Write(Record { at, seq, value }, 3 + read, Reply::Mended(true))
}

/// What an append does after it has read its three words: the first condition that holds decides.
fn append_decision(
    layout: Layout,
    seq: u64,
    value: Body,
    closed: u64,
    count: u64,
    last: u64,
) -> JobStage
    requires lawful { IsLayout layout }
    requires fits { length value ≡ layout.width }
    ensures left { (p : ℕ) → left_at layout p result ≡ decided_by layout p seq value closed count last }
    ensures exact { result ≡ decided_stage layout seq value closed count last }
    ensures fits { FitsStage layout result }
{
    match early_reply(layout.cap, seq, closed, count, last) {
        Some(reply) => JobStage::Ended(reply),
        None => {
            let at = count;
            JobStage::Write(Record { at, seq, value }, 0, Reply::Stored)
        }
    }
}
