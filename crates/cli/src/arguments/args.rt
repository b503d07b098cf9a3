//! The arguments of each command.

ghost use Rattle.std.specs.Prelude.{◌≡◌, option_copied};

use crate::explain::dictionary_entry::DictionaryEntry;
use algorithms::{MemoryModel, PassageKind};
use crashlab::{RandomMoves, Variant};

/// `replay`: runs a schedule and prints its report.
#[derive(Debug, Drop)]
pub struct ReplayArgs {
    /// Print one JSON object of the report's lines; with `each` one object for each step.
    pub json: bool,
    /// Print a line for each step.
    pub each: bool,
    pub variant: Variant,
    /// The file of the image that the world starts from.
    pub image: Option<String>,
    /// The file to which the last image is written.
    pub save: Option<String>,
    /// The schedule's file; without one, standard input.
    pub file: Option<String>,
}

/// `replay --algorithm`: runs a schedule on an algorithm, and prints its report.
#[derive(Debug, Drop)]
pub struct AlgorithmReplayArgs {
    /// The file of the algorithm's text.
    pub algorithm: String,
    /// Print one JSON object of the report's lines; with `each` one object for each step.
    pub json: bool,
    /// Print a line for each step.
    pub each: bool,
    /// The schedule's file; without one, standard input.
    pub file: Option<String>,
}

/// `run`: senders send through the running lock, each on a thread of its own, and crash at random.
#[derive(Clone, Copy, Debug)]
pub struct RunArgs {
    /// The number of senders.
    pub procs: u64,
    /// The number of messages that each sender sends.
    pub messages: u64,
    /// How many in 1,000 askings of the crash plan fall.
    pub crash: u64,
    /// The seed of the first sender's crashes; each further sender has the next number.
    pub seed: u64,
    /// The number of words of a message.
    pub width: u64,
}

/// `hunt`: draws schedules until one goes wrong.
#[derive(Clone, Copy, Debug)]
pub struct HuntArgs {
    pub variant: Variant,
    pub moves: RandomMoves,
    /// The number of the first round.
    pub first_round: u64,
    pub rounds: u64,
    /// Shrink the schedule that was found.
    pub shrink: bool,
    /// How many threads share out the rounds; 0: as many as there are processors.
    pub jobs: u64,
}

/// `hunt --algorithm`: draws schedules until an algorithm goes wrong.
#[derive(Debug, Drop)]
pub struct AlgorithmHuntArgs {
    /// The file of the algorithm's text.
    pub algorithm: String,
    pub procs: u64,
    pub limit: u64,
    pub moves: RandomMoves,
    /// The number of the first round.
    pub first_round: u64,
    pub rounds: u64,
    /// Shrink the schedule that was found.
    pub shrink: bool,
    /// How many threads share out the rounds; 0: as many as there are processors.
    pub jobs: u64,
}

/// The calls that a search starts.
#[derive(Clone, Copy, Debug)]
pub struct Alphabet {
    pub lock: bool,
    pub unlock: bool,
    pub recover: bool,
    pub consistent: bool,
    pub withdraw: bool,
    /// One append for each number from 1 to the capacity, with the number as each word of its value.
    pub append: bool,
    pub close: bool,
}

/// The cycles in which a search looks for a process that starves.
#[derive(Clone, Copy, Debug)]
pub enum Cycles {
    /// Those in which nobody gives up.
    Nobody,
    /// All.
    Any,
}

/// `explore`: tries all schedules up to a bound, the shorter before the longer.
#[derive(Clone, Copy, Debug)]
pub struct ExploreArgs {
    pub variant: Variant,
    pub procs: u64,
    pub calls: Alphabet,
    /// The most crashes of a process alone in a schedule.
    pub crashes: u64,
    /// The most crashes of all processes at once in a schedule.
    pub system_crashes: u64,
    /// The most moves of a schedule.
    pub moves: u64,
    /// The most states that are kept.
    pub states: u64,
    pub limit: u64,
    pub cap: u64,
    pub width: u64,
    /// Whether it looks for stuck states, with no bound on the moves.
    pub stuck: bool,
    /// The cycles in which it looks for a process that starves, with no bound on the moves.
    pub starving: Option<Cycles>,
    /// Whether states are distinguished by dead variables too. A search for stuck states or for starvation does so anyway.
    pub all_variables: bool,
    /// How many threads expand the states; 0: as many as there are processors. A search for stuck states or for starvation has one.
    pub jobs: u64,
}

/// The calls of an algorithm that a search starts.
#[derive(Clone, Copy, Debug)]
pub struct AlgorithmCalls {
    pub lock: bool,
    pub unlock: bool,
    pub recover: bool,
    pub withdraw: bool,
}

/// `explore --algorithm`: tries all schedules of an algorithm up to a bound, the shorter before the longer.
#[derive(Debug, Drop)]
pub struct AlgorithmExploreArgs {
    /// The file of the algorithm's text.
    pub algorithm: String,
    pub procs: u64,
    /// Without it: the calls that the text has.
    pub calls: Option<AlgorithmCalls>,
    /// The most crashes of a process alone in a schedule.
    pub crashes: u64,
    /// The most crashes of all processes at once.
    pub system_crashes: u64,
    /// The most moves of a schedule.
    pub moves: u64,
    /// The most states that are kept.
    pub states: u64,
    pub limit: u64,
    /// Whether it looks for stuck states, with no bound on the moves.
    pub stuck: bool,
    /// The cycles in which it looks for a process that starves, with no bound on the moves.
    pub starving: Option<Cycles>,
    /// How many threads expand the states; 0: as many as there are processors. A search for stuck states or for starvation has one.
    pub jobs: u64,
}

/// `cost`: looks for the schedule on which a passage of an algorithm has the most remote references.
#[derive(Debug, Drop)]
pub struct CostArgs {
    /// The search whose schedules they are.
    pub search: AlgorithmExploreArgs,
    pub model: MemoryModel,
    pub kind: PassageKind,
}

/// `cost --variant`: looks for the schedule on which a passage of a variant of the lock has the most remote references.
#[derive(Clone, Copy, Debug)]
pub struct VariantCostArgs {
    /// The search whose schedules they are.
    pub search: ExploreArgs,
    pub model: MemoryModel,
    pub kind: PassageKind,
}

/// `cost --mean`: counts the remote references of the passages of an algorithm on random schedules.
#[derive(Debug, Drop)]
pub struct MeanCostArgs {
    /// The file of the algorithm's text.
    pub algorithm: String,
    pub model: MemoryModel,
    pub procs: u64,
    pub limit: u64,
    pub seed: u64,
    pub rounds: u64,
    /// The number of moves of a round.
    pub steps: u64,
}

/// `export`: writes the model of an algorithm in another tool's language.
#[derive(Debug, Drop)]
pub struct ExportArgs {
    /// The file of the algorithm.
    pub algorithm: String,
    pub procs: u64,
    pub limit: u64,
    pub crashes: u64,
}

/// What `states` does with lines of states.
#[derive(Clone, Copy, Debug)]
pub enum StatesTool {
    /// Writes the line of the first state.
    First,
    /// Writes the lines of the successors of the states that it reads.
    Expand,
    /// Writes the lines of those states that it reads from which a move leads into a set.
    Lead,
    /// Writes the lines of those states that it reads which are at home, or from which a move of a way home leads into a set.
    Home,
    /// Says whether the set of states that it reads is closed.
    Check,
    /// Writes the schedule that leads through the sets of states that it reads to a fault.
    Walk,
}

/// What is read, and the form of its lines.
#[derive(Debug, Drop)]
pub struct StreamArgs {
    pub tool: StatesTool,
    /// The most words of a key; 0: as many as the first key has, 24 more, and 8 more for each process.
    pub words: u64,
    /// The number of characters of a word.
    pub digits: u64,
    /// The number of the part of all keys that is checked, from 0 on.
    pub part: u64,
    /// The number of the parts.
    pub parts: u64,
    /// The file of the lines; without one, standard input.
    pub file: Option<String>,
}

/// `states`: the states of a search as lines of a text.
#[derive(Debug, Drop)]
pub struct StatesArgs {
    /// The search whose states they are.
    pub search: ExploreArgs,
    pub stream: StreamArgs,
}

/// `states --algorithm`: the states of an algorithm's search as lines of a text.
#[derive(Debug, Drop)]
pub struct AlgorithmStatesArgs {
    /// The search whose states they are.
    pub search: AlgorithmExploreArgs,
    pub stream: StreamArgs,
}

/// `judge`: judges a trace of deeds.
#[derive(Debug, Drop)]
pub struct JudgeArgs {
    /// Print the verdict as a JSON object.
    pub json: bool,
    /// The trace's file; without one, standard input.
    pub file: Option<String>,
}

/// `draw`: runs a schedule and draws its run.
#[derive(Debug, Drop)]
pub struct DrawArgs {
    /// Write a page that shows the run step by step.
    pub html: bool,
    /// Draw as SVG, and not as text.
    pub svg: bool,
    pub variant: Variant,
    /// The file of the image that the world starts from.
    pub image: Option<String>,
    /// The schedule's file; without one, standard input.
    pub file: Option<String>,
}

/// `draw --algorithm`: runs a schedule on an algorithm, and draws its run.
#[derive(Debug, Drop)]
pub struct AlgorithmDrawArgs {
    /// The file of the algorithm's text.
    pub algorithm: String,
    /// Write a page that shows the run step by step.
    pub html: bool,
    /// Draw as SVG, and not as text.
    pub svg: bool,
    /// The schedule's file; without one, standard input.
    pub file: Option<String>,
}

/// `shrink`: shrinks a schedule that goes wrong on a variant.
#[derive(Debug, Drop)]
pub struct ShrinkArgs {
    pub variant: Variant,
    /// The schedule's file; without one, standard input.
    pub file: Option<String>,
}

/// `shrink --algorithm`: shrinks a schedule that goes wrong on an algorithm.
#[derive(Debug, Drop)]
pub struct AlgorithmShrinkArgs {
    /// The file of the algorithm's text.
    pub algorithm: String,
    /// The schedule's file; without one, standard input.
    pub file: Option<String>,
}

/// `step --algorithm`: holds a session over a schedule on an algorithm.
#[derive(Debug, Drop)]
pub struct AlgorithmStepArgs {
    /// The file of the algorithm's text.
    pub algorithm: String,
    /// The file of the schedule to begin with; without one, the first line of the input is a header.
    pub file: Option<String>,
}

/// A command with its arguments.
#[derive(Debug, Drop)]
pub enum Command {
    Replay(ReplayArgs),
    ReplayAlgorithm(AlgorithmReplayArgs),
    Run(RunArgs),
    Hunt(HuntArgs),
    HuntAlgorithm(AlgorithmHuntArgs),
    Explore(ExploreArgs),
    ExploreAlgorithm(AlgorithmExploreArgs),
    Cost(CostArgs),
    CostVariant(VariantCostArgs),
    MeanCost(MeanCostArgs),
    Export(ExportArgs),
    States(StatesArgs),
    StatesAlgorithm(AlgorithmStatesArgs),
    Judge(JudgeArgs),
    Draw(DrawArgs),
    DrawAlgorithm(AlgorithmDrawArgs),
    Shrink(ShrinkArgs),
    ShrinkAlgorithm(AlgorithmShrinkArgs),
    /// Holds a session over a schedule, which begins with the one in this file.
    Step(Option<String>),
    StepAlgorithm(AlgorithmStepArgs),
    /// Prints what this entry means; without one, the names of all entries.
    Explain(Option<DictionaryEntry>),
}

impl Command {
    ghost use Rattle.cli.specs.FilesNamed.{image_of, input_of, save_of, start_of};

    /// The file that the command reads; without one, it reads standard input.
    pub fn input_file(&self) -> Option<&String>
        ensures { option_copied result ≡ input_of self.now }
    {
        match self {
            Command::Replay(args) => args.file.as_ref(),
            Command::ReplayAlgorithm(args) => args.file.as_ref(),
            Command::States(args) => args.stream.file.as_ref(),
            Command::StatesAlgorithm(args) => args.stream.file.as_ref(),
            Command::Judge(args) => args.file.as_ref(),
            Command::Draw(args) => args.file.as_ref(),
            Command::DrawAlgorithm(args) => args.file.as_ref(),
            Command::Shrink(args) => args.file.as_ref(),
            Command::ShrinkAlgorithm(args) => args.file.as_ref(),
            _ => None,
        }
    }

    /// The file that the command starts from: an image, an algorithm, or the first schedule of a session on the lock.
    pub fn image_file(&self) -> Option<&String>
        ensures { option_copied result ≡ image_of self.now }
    {
        match self {
            Command::Replay(args) => args.image.as_ref(),
            Command::ReplayAlgorithm(args) => Some(&args.algorithm),
            Command::HuntAlgorithm(args) => Some(&args.algorithm),
            Command::ExploreAlgorithm(args) => Some(&args.algorithm),
            Command::Cost(args) => Some(&args.search.algorithm),
            Command::MeanCost(args) => Some(&args.algorithm),
            Command::Export(args) => Some(&args.algorithm),
            Command::StatesAlgorithm(args) => Some(&args.search.algorithm),
            Command::Draw(args) => args.image.as_ref(),
            Command::DrawAlgorithm(args) => Some(&args.algorithm),
            Command::ShrinkAlgorithm(args) => Some(&args.algorithm),
            Command::Step(file) => file.as_ref(),
            Command::StepAlgorithm(args) => Some(&args.algorithm),
            _ => None,
        }
    }

    /// The file of the first schedule of a session on an algorithm.
    pub fn start_file(&self) -> Option<&String>
        ensures { option_copied result ≡ start_of self.now }
    {
        match self {
            Command::StepAlgorithm(args) => args.file.as_ref(),
            _ => None,
        }
    }

    /// The file to which the command saves an image.
    pub fn save_file(&self) -> Option<&String>
        ensures { option_copied result ≡ save_of self.now }
    {
        match self {
            Command::Replay(args) => args.save.as_ref(),
            _ => None,
        }
    }
}
