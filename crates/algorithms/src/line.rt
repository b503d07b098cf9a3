//! The lines of an algorithm: accesses of shared words, and the local lines between them.

use crate::condition::Condition;
use crate::expression::Expression;

/// What a step says of its process, for a judge of histories.
#[derive(Clone, Copy, Debug, PartialEq, Eq)]
pub enum AlgorithmDeed {
    Begin,
    Ready,
    Enter,
    Reenter,
    Leave,
    Quit,
}

/// What a loop goes over: processes by rising number, or numbers.
#[derive(Debug, Drop)]
pub enum Members {
    All,
    /// All but the process itself.
    Others,
    /// Those with a lower number.
    Lower,
    /// Those with a higher number.
    Higher,
    /// The numbers from the first value up to the second. They name no private name.
    Up(Expression, Expression),
    /// The numbers from the first value down to the second. They name no private name.
    Down(Expression, Expression),
}

/// A shared word: its declaration, and which of the declaration's words it is.
#[derive(Debug, Drop)]
pub struct WordOf {
    pub declaration: usize,
    /// Its place, where the declaration has an array of words.
    pub index: Option<Expression>,
}

/// What an access does with its word.
#[derive(Debug, Drop)]
pub enum Action {
    /// Loads it into a private name.
    Load {
        name: usize,
    },
    /// Stores this value.
    Store {
        value: Expression,
    },
    /// Loads it into a private name, and goes on where the condition then holds. Else the reading was blocked.
    Await {
        name: usize,
        until: Condition,
    },
    /// Loads it into a private name and in the same step stores this value, where the guard holds. The value and the guard
    /// may read the name. It goes on as an await where there is an `until`.
    Swap {
        name: usize,
        value: Expression,
        /// Without one the value is always stored.
        guard: Option<Condition>,
        /// Without one the process always goes on. One that does not hold takes nothing back: the value is stored.
        until: Option<Condition>,
    },
}

/// One access of one shared word.
#[derive(Debug, Drop)]
pub struct AccessLine {
    pub word: WordOf,
    pub action: Action,
    /// Whether a withdraw may begin here.
    pub may_withdraw: bool,
}

/// Which values of a row of private names a line sets.
#[derive(Debug, Drop)]
pub enum Elements {
    /// All, by the row's size. The names of the row that are left become 0.
    All(Expression),
    /// The one at this index.
    At(Expression),
}

/// A line that touches no shared word.
#[derive(Debug, Drop)]
pub enum LocalLine {
    Assign {
        name: usize,
        value: Expression,
    },
    /// Sets values of a row of private names, by the first name of the row.
    AssignRow {
        row: usize,
        elements: Elements,
        value: Expression,
    },
    Note(AlgorithmDeed),
    Goto(usize),
    /// Goes on with the next line where the condition holds.
    Branch {
        condition: Condition,
        otherwise: usize,
    },
    /// The head of a loop. It goes on after the loop where there is no member.
    First {
        name: usize,
        members: Members,
        after: usize,
    },
    /// The end of a loop. It goes on after the loop where there is no further member.
    Next {
        name: usize,
        members: Members,
        body: usize,
    },
}

/// What a line is. Lines that it leads to are given by their places among the lines, from 0.
#[derive(Debug, Drop)]
pub enum LineKind {
    Access(AccessLine),
    Local(LocalLine),
    /// The end of the call, with an answer by its index.
    Done(usize),
}

/// A line of an algorithm, with its number in the text.
#[derive(Debug, Drop)]
pub struct AlgorithmLine {
    pub number: u64,
    pub form: LineKind,
}
