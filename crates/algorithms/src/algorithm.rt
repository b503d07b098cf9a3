//! An algorithm as a value.

ghost use Rattle.std.specs.Prelude.{◌≡◌};
ghost use Rattle.algorithms.specs.Worlds.{entry_of};

use crate::access::Address;
use crate::expression::Expression;
use crate::line::AlgorithmLine;
use crate::never_claim::NeverClaim;

/// What an algorithm promises of calls under way, where each process goes on taking steps.
#[derive(Clone, Copy, Debug, PartialEq, Eq)]
pub enum ProgressPromise {
    /// While a call is under way somebody enters again and again, unless all calls end.
    DeadlockFreedom,
    /// Each call ends.
    StarvationFreedom,
}

/// What an algorithm promises.
#[derive(Clone, Copy, Debug, PartialEq, Eq)]
pub struct Promises {
    /// The most processes inside at once, those that crashed there counted: k-exclusion. 1 is mutual exclusion.
    pub most_inside: u64,
    /// Who crashed inside is the next one inside.
    pub reentry: bool,
    /// First come, first served.
    pub order: bool,
    /// What becomes of calls under way, where it is promised.
    pub progress: Option<ProgressPromise>,
    /// No move is refused since a value would leave its range.
    pub bounds: bool,
}

/// The most own steps that an algorithm promises, where they are bounded: values of numbers, `procs` and `limit`.
#[derive(Debug, Drop)]
pub struct StepBounds {
    /// Of an `unlock`.
    pub exit: Option<Expression>,
    /// Of a `lock` after a crash inside, up to the re-entry.
    pub recovery: Option<Expression>,
    /// Of a doorway.
    pub doorway: Option<Expression>,
}

/// A constant of a text: a name for a value of numbers, `procs` and `limit`. Where it stood in a line, its value stands there.
#[derive(Debug, Drop)]
pub struct NamedConstant {
    pub name: String,
    pub value: Expression,
}

/// A row of private names: its name, the first of its names, and its size of numbers, `procs` and `limit`.
#[derive(Debug, Drop)]
pub struct NamedRow {
    pub name: String,
    pub first: usize,
    pub size: Expression,
}

/// How many words a declaration has.
#[derive(Debug, Drop)]
pub enum Extent {
    One,
    /// One for each process.
    Each,
    /// An array `[A]` of this size.
    Array(Expression),
    /// A table `[A][B]` of this size, A times B, and the B words of each of its rows, one row after the other.
    Table(Expression, Expression),
}

/// A shared word, or an array of them.
#[derive(Debug, Drop)]
pub struct Declaration {
    pub name: String,
    pub extent: Extent,
    /// The greatest value that may be stored. 2^64 - 1 where there is none.
    pub bound: Option<Expression>,
    /// The process at which a word lives, where it is said. `Me` is the first index of the word there.
    pub home: Option<Expression>,
}

/// A call of a process.
#[derive(Clone, Copy, Debug, PartialEq, Eq)]
pub enum AlgorithmCall {
    Lock,
    Unlock,
    Recover,
    /// Gives up a lock under way.
    Withdraw,
}

/// Where each call begins, as a place among the lines.
#[derive(Clone, Copy, Debug)]
pub struct Entries {
    pub lock: usize,
    pub unlock: usize,
    pub recover: Option<usize>,
    pub withdraw: Option<usize>,
}

impl Entries {
    /// Where a call begins, if there is such a call.
    pub fn of(self, call: AlgorithmCall) -> Option<usize>
        ensures { result ≡ entry_of self call }
    {
        match call {
            AlgorithmCall::Lock => Some(self.lock),
            AlgorithmCall::Unlock => Some(self.unlock),
            AlgorithmCall::Recover => self.recover,
            AlgorithmCall::Withdraw => self.withdraw,
        }
    }
}

/// An algorithm: its shared words, its private names and its lines.
#[derive(Debug, Drop)]
pub struct Algorithm {
    pub name: String,
    /// The least number of processes, and the greatest.
    pub least: u64,
    pub most: u64,
    pub promises: Promises,
    pub step_bounds: StepBounds,
    pub constants: Vec<NamedConstant>,
    pub declarations: Vec<Declaration>,
    /// The private names. The first `lasting` of them stay from call to call, until a crash.
    pub names: Vec<String>,
    pub lasting: usize,
    /// The rows among the names that stay, each of `MOST_ELEMENTS` names.
    pub rows: Vec<NamedRow>,
    pub answers: Vec<String>,
    pub lines: Vec<AlgorithmLine>,
    pub entries: Entries,
    /// What never holds.
    pub claims: Vec<NeverClaim>,
    /// The places of the labels that claims name: that of the first access below each, or how many lines there are where none is.
    pub label_places: Vec<usize>,
}
