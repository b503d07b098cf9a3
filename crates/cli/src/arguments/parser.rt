//! The command line for `clap`: its commands, their options and their help.

ghost use Rattle.std.specs.Prelude.{map, IfOk};
ghost use Rattle.cli.specs.CommandLine.{IsParser, app_of_shape, part, shape_of_part, with_subcommands, rule_of_argument, head, replay, run, hunt, explore, cost, export, states, judge, draw, shrink, step, explain, rmelab};

use crate::arguments::argument::{self, Argument};
use clap::Command as Parser;
use std::alloc::{AllocError, Global};

const STATUSES: &str =
    "Exit status: 0 fine, 1 a verdict against, a schedule found, or a message twice or out of order, 2 a fault of the \
input, 3 a fault of a device, of memory or of a member, or too many states in `explore` or `cost`.";

const REPLAY_HELP: &str =
    "In: a schedule: a header such as `rme 1 procs 2 limit 10 cap 1`, then lines such as `lock 0`, `step 0 5`, `crash \
0`, each ended by a line feed. With --algorithm the algorithm's text is read first: docs/use/algorithms.md.\nOut: its \
report: the deeds and answers of each step, the last words, the mailbox and the verdict; with --each --json an object \
for each step, between the images before and after them or, of an algorithm, before its last words, and the \
verdict.\nExit status: 0 if the verdict is fine, 1 if it is against, 2 after a fault of the words, the schedule, the \
algorithm or the image, 3 after a fault of a device or of memory.\n\nExample: rmelab replay examples/tie.rme";

const RUN_HELP: &str =
    "In: nothing. Each sender sends its messages through one running lock, on a thread of its own, and sends a message \
again after each crash.\nOut: the messages of each sender in the mailbox, as `sender 0 messages 50 twice 0 order yes`, \
and the total.\nExit status: 0 if each message is there once and in order, 1 if not, 2 after a fault of the words, 3 \
after a fault of a device, of memory or of a sender.\n\nExample: rmelab run --procs 4 --messages 50 --crash 20 --seed 7";

const HUNT_HELP: &str =
    "In: nothing; with --algorithm the algorithm's text: docs/use/algorithms.md.\nOut: the schedule found, which `rmelab replay` with the same --variant or --algorithm replays to its fault, \
or `nothing found`.\nShown: on standard error, if that is a terminal, the rounds, the moves and the moves a second, \
once a second while it works.\nExit status: 0 if nothing was found, 1 if a schedule was, 2 after a \
fault of the words or the algorithm, 3 after a fault of a device or of memory.\n\nExample: rmelab hunt --variant \
no-look --seed 1 --rounds 10000 --steps 1000";

const EXPLORE_HELP: &str =
    "In: nothing; with --algorithm the algorithm's text: docs/use/algorithms.md. All schedules are tried \
whose moves are the start of a call of --calls, one step, a crash, of which there are at most --crashes, or a crash of \
all processes, of which there are at most --system-crashes: the shorter before the longer. Two \
worlds are one state if their words, their processes, the judge and the crashes left are the same; with --starving \
the judge is left out. Of a process those variables count that a move may still read; all do with --all-variables or, \
of a variant, --stuck or --starving.\nOut: the schedule of fewest moves that goes wrong, which `rmelab replay` with \
the same --variant or --algorithm replays to its fault; of an algorithm that promises `bounds`, also one that ends with \
a move to a value out of range, which `rmelab replay` refuses; `nothing found within K moves`; or, if all was tried, \
`nothing found: all N states`; of another algorithm with moves to values out of range `nothing found: all N states, M \
moves left out from line L`. With --stuck, if none goes wrong: the schedule of fewest moves to a state from which no \
starts and steps bring each process to rest with all lock words 0, unless by an unlock that ruins the lock, or, of an \
algorithm, to rest outside and not in line; it replays to a fine verdict; or `never stuck: all N states`. With \
--starving, whatever goes wrong: a schedule of fewest moves that ends with a cycle in which a process starves, and \
the line `starves P cycle K`: process P, in the last K moves; or `never starving: all N states`. With --stuck and \
--starving: both. With neither, without --moves, of an algorithm that promises \
`deadlock freedom` or `starvation freedom`, if nothing was found: also what --starving finds. Nothing is said of a greater size, limit or number of crashes.\nShown: on standard error, if that \
is a terminal, the states, how many moves deep and the states a second, once a second while it works.\nExit status: 0 \
if nothing was found, 1 if a schedule was, 2 after a fault of the words or the algorithm, 3 after one of a device or \
of memory, or if there are more states than --states.\n\nExample: rmelab explore --variant no-look --procs 2";

const COST_HELP: &str =
    "In: nothing; with --algorithm the algorithm's text: docs/use/algorithms.md. All schedules are tried whose moves are the start of a call of --calls, one \
step, a crash, of which there are at most --crashes, or a crash of all processes, of which there are at most --system-crashes. With \
--mean schedules are drawn: --rounds of --steps moves each, a move being a step of a process or, where it has no call, the start of \
one. A passage costs each access of its process that is remote in the model: docs/dev/texts.md.\nOut: a schedule that reaches the \
greatest cost, and the line `process P passage cost K`; or, if none is the greatest, a schedule and the line `process P passage cost \
unbounded cycle K`: its last K moves can be made again and again, and cost something each time. With --super-passages the line has \
`super-passage` in place of `passage`. Nothing is said of a greater size, limit or number of crashes. With --mean the line `passages N \
cost K mean M`: N passages were completed, K is what they cost together, and M is K/N, rounded down to hundredths; or, if none was, \
`passages 0 cost 0`.\nShown: on standard error, if that is a terminal, the states, how many moves deep and the states a second, once a \
second while it works.\nExit status: 0 if a cost is the greatest, or with --mean, 1 if none is, 2 after a fault of the words or the \
algorithm, 3 after one of a device or of memory, or if there are more states than --states.\n\nExample: rmelab cost --algorithm \
examples/algorithms/mcs.lock --model write-back --procs 2";

const STATES_HELP: &str =
    "In: nothing for first; else texts of states: a header and then a line for each state, as first writes them; with \
--algorithm the algorithm's text first: docs/use/algorithms.md. expand, check: one text. lead, home: a set of \
states, and then the states that are tried. walk: the sets that a schedule leads through, without that of the first \
state. The states are those that explore tries, by all variables.\nOut: of first the header and the line of the \
first state; of expand the header and a line for each move of each state, in the order of the lines and of the \
moves: that of its successor or, if the move goes wrong, `#` and its own; of lead the header and the lines of the \
states from which a move leads into the set; of home those at home, or from which a move leads into it that is no \
crash and ruins nothing; of check `closed: N states` if the first state is in the set, no move from it goes wrong \
and each leads into it, or else why it is not closed; of walk the first schedule through the sets that then goes \
wrong. docs/use/states.md has all of it.\nExit status: 0 if that was written, 1 if a set is not closed or a schedule \
was written, 2 after a fault of the words, the algorithm or a line, 3 after a fault of a device or of \
memory.\n\nExample: rmelab states first --variant no-look --procs 2";

const JUDGE_HELP: &str =
    "In: a trace: a header such as `trace 1 procs 2 cap 1`, then deeds such as `begin 0`, `ready 0`, `enter 0`.\nOut: \
the verdict line; with --json an object.\nExit status: 0 if the verdict is fine, 1 if it is against, 2 after a fault \
of the words or the trace, 3 after a fault of a device or of memory.\n\nExample: rmelab judge examples/overtaken.trace";

const DRAW_HELP: &str =
    "In: a schedule: a header such as `rme 1 procs 2 limit 10 cap 1`, then lines such as `lock 0`, `step 0 5`, `crash \
0`, each ended by a line feed. With --algorithm the algorithm's text is read first: docs/use/algorithms.md.\nOut: its \
run, time downward: a column for each process, a row for each step or crash, and at the right what it does; with --svg \
a picture of this, and with --html a page for a browser with the picture and each step.\nExit status: 0 if the verdict \
is fine, 1 if it is against, 2 after a fault of the words, the schedule, the algorithm or the image, 3 after a fault \
of a device or of memory.\n\nExample: rmelab draw examples/tie.rme";

const SHRINK_HELP: &str =
    "In: a schedule: a header such as `rme 1 procs 2 limit 10 cap 1`, then lines such as `lock 0`, `step 0 5`, `crash \
0`, each ended by a line feed. With --algorithm the algorithm's text is read first: docs/use/algorithms.md.\nOut: if \
its verdict on the variant or the algorithm is against, a 1-minimal schedule with a verdict against the same number: \
no line can be left out and no count of steps lowered by one. Otherwise the verdict line.\nExit status: 0 if the \
verdict is fine, 1 if it is against, 2 after a fault of the words, the schedule or the algorithm, 3 after a fault of a \
device or of memory.\n\nExample: rmelab shrink --variant no-look examples/two-in-the-doorway.rme";

const EXPLAIN_HELP: &str =
    "In: nothing.\nOut: what the words name, in two sentences, and the page that defines it; without words all names, \
one a line.\nExit status: 0 if the words are a name, 2 if they are not, 3 after a fault of a device or of \
memory.\n\nExample: rmelab explain fault 5";

const STEP_HELP: &str =
    "In: lines of a schedule, and undo, redo, to answer P, save FILE, help and quit, each answered at once. Without \
FILE the first line is a header. With --algorithm the algorithm's text is read first: docs/use/algorithms.md.\nOut: \
for a line of a schedule each of its steps, as replay --each prints them; then the words of each process, their row \
of the restart table, its state, and who is inside. A line that is refused or can't be read gets its fault, and \
changes nothing.\nExit status: 0 at the end of the session, 2 if it can't begin, 3 after a fault of a device or of \
memory.\n\nExample: rmelab step examples/tie.rme";

const EXPORT_HELP: &str =
    "In: the algorithm's text: docs/use/algorithms.md.\nOut: a model in Promela of all its schedules whose moves are the start of \
a call, one step, or a crash, of which there are at most --crashes. SPIN searches it, and finds an assertion violated where \
the promises are broken, but for never lines and promises on calls under way: spin -a, then a C compiler with -DSAFETY \
-DNOREDUCE. It stores as many states as explore counts, where the judge has nothing against it and no number is above \
32767.\nExit status: 0, 2 after a fault of the words or the algorithm, 3 after one of a device or of memory.\n\nExample: \
rmelab export --promela examples/algorithms/mcs.lock --procs 2";

/// What `--version` prints.
const VERSION: &str = "0.1.0";

/// A command with these arguments.
fn command<'a>(
    alloc: Global,
    name: &'a str,
    about: &'a str,
    help: &'a str,
    arguments: &[Argument<'a>],
) -> Result<Parser<'a>, AllocError>
    ensures { IfOk result (IsParser (app_of_shape (part name.entry.now (map rule_of_argument arguments.now)))) }
{
    let mut command = Parser::new(alloc, name).about(about).after_help(help);
    for argument in arguments {
        command = command.arg(argument.arg(alloc))?;
    }
    Ok(command)
}

/// The parser of `replay`, with its help.
fn replay<'a>(alloc: Global) -> Result<Parser<'a>, AllocError>
    ensures { IfOk result (IsParser (app_of_shape replay)) }
{
    let about = "Runs a schedule of steps and crashes, and prints its report";
    command(alloc, "replay", about, REPLAY_HELP, &argument::REPLAY)
}

/// The parser of `run`, with its help.
fn run<'a>(alloc: Global) -> Result<Parser<'a>, AllocError>
    ensures { IfOk result (IsParser (app_of_shape run)) }
{
    let about = "Runs senders on threads, with drawn crashes, and counts their messages";
    command(alloc, "run", about, RUN_HELP, &argument::RUN)
}

/// The parser of `hunt`, with its help.
fn hunt<'a>(alloc: Global) -> Result<Parser<'a>, AllocError>
    ensures { IfOk result (IsParser (app_of_shape hunt)) }
{
    let about = "Draws schedules until a variant of the lock, or an algorithm, goes wrong";
    command(alloc, "hunt", about, HUNT_HELP, &argument::HUNT)
}

/// The parser of `explore`, with its help.
fn explore<'a>(alloc: Global) -> Result<Parser<'a>, AllocError>
    ensures { IfOk result (IsParser (app_of_shape explore)) }
{
    let about = "Tries all schedules up to a bound, for the shortest that goes wrong";
    command(alloc, "explore", about, EXPLORE_HELP, &argument::EXPLORE)
}

/// The parser of `cost`, with its help.
fn cost<'a>(alloc: Global) -> Result<Parser<'a>, AllocError>
    ensures { IfOk result (IsParser (app_of_shape cost)) }
{
    let about = "Counts the remote references of a passage: the most, or the mean";
    command(alloc, "cost", about, COST_HELP, &argument::COST)
}

/// The parser of `export`, with its help.
fn export<'a>(alloc: Global) -> Result<Parser<'a>, AllocError>
    ensures { IfOk result (IsParser (app_of_shape export)) }
{
    let about = "Writes the model of an algorithm for another tool";
    command(alloc, "export", about, EXPORT_HELP, &argument::EXPORT)
}

/// The parser of `states`, with its help.
fn states<'a>(alloc: Global) -> Result<Parser<'a>, AllocError>
    ensures { IfOk result (IsParser (app_of_shape states)) }
{
    let about = "Writes and checks the states of a search as lines of a text";
    command(alloc, "states", about, STATES_HELP, &argument::STATES)
}

/// The parser of `judge`, with its help.
fn judge<'a>(alloc: Global) -> Result<Parser<'a>, AllocError>
    ensures { IfOk result (IsParser (app_of_shape judge)) }
{
    let about = "Judges a trace of deeds, and prints the verdict";
    command(alloc, "judge", about, JUDGE_HELP, &argument::JUDGE)
}

/// The parser of `draw`, with its help.
fn draw<'a>(alloc: Global) -> Result<Parser<'a>, AllocError>
    ensures { IfOk result (IsParser (app_of_shape draw)) }
{
    let about = "Draws the run of a schedule as a space-time diagram";
    command(alloc, "draw", about, DRAW_HELP, &argument::DRAW)
}

/// The parser of `shrink`, with its help.
fn shrink<'a>(alloc: Global) -> Result<Parser<'a>, AllocError>
    ensures { IfOk result (IsParser (app_of_shape shrink)) }
{
    let about = "Minimizes a schedule that goes wrong on a variant of the lock, or on an algorithm";
    command(alloc, "shrink", about, SHRINK_HELP, &argument::SHRINK)
}

/// The parser of `step`, with its help.
fn step<'a>(alloc: Global) -> Result<Parser<'a>, AllocError>
    ensures { IfOk result (IsParser (app_of_shape step)) }
{
    let about = "Holds a session: takes the lines of a schedule one by one, and goes back";
    command(alloc, "step", about, STEP_HELP, &argument::STEP)
}

/// The parser of `explain`, with its help.
fn explain<'a>(alloc: Global) -> Result<Parser<'a>, AllocError>
    ensures { IfOk result (IsParser (app_of_shape explain)) }
{
    let about = "Says what a number or a word of reports and faults means";
    command(alloc, "explain", about, EXPLAIN_HELP, &argument::EXPLAIN)
}

/// The parser of the program without its commands: what it is, its version and its exit statuses.
fn head<'a>(alloc: Global) -> Parser<'a>
    ensures { IsParser (app_of_shape head) result }
{
    Parser::new(alloc, "rmelab")
        .about("A laboratory of recoverable first-come first-served locks")
        .after_help(STATUSES)
        .version(VERSION)
        .subcommand_required(true)
}

/// A command of the command line.
#[derive(Clone, Copy)]
enum ParserPart {
    Replay,
    Run,
    Hunt,
    Explore,
    Cost,
    Export,
    States,
    Judge,
    Draw,
    Shrink,
    Step,
    Explain,
}

/// The commands, as the help lists them.
const PARTS: [ParserPart; 12] = [
    ParserPart::Replay,
    ParserPart::Run,
    ParserPart::Hunt,
    ParserPart::Explore,
    ParserPart::Cost,
    ParserPart::Export,
    ParserPart::States,
    ParserPart::Judge,
    ParserPart::Draw,
    ParserPart::Shrink,
    ParserPart::Step,
    ParserPart::Explain,
];

impl ParserPart {
    /// The parser of this command.
    fn parser<'a>(self, alloc: Global) -> Result<Parser<'a>, AllocError>
        ensures { IfOk result (IsParser (app_of_shape (shape_of_part self))) }
    {
        match self {
            ParserPart::Replay => replay(alloc),
            ParserPart::Run => run(alloc),
            ParserPart::Hunt => hunt(alloc),
            ParserPart::Explore => explore(alloc),
            ParserPart::Cost => cost(alloc),
            ParserPart::Export => export(alloc),
            ParserPart::States => states(alloc),
            ParserPart::Judge => judge(alloc),
            ParserPart::Draw => draw(alloc),
            ParserPart::Shrink => shrink(alloc),
            ParserPart::Step => step(alloc),
            ParserPart::Explain => explain(alloc),
        }
    }
}

/// A command line of these commands.
fn parser_of<'a>(alloc: Global, parts: &[ParserPart]) -> Result<Parser<'a>, AllocError>
    ensures { IfOk result (IsParser (with_subcommands (app_of_shape head) (map shape_of_part parts.now))) }
{
    let mut whole = head(alloc);
    for part in parts {
        let part = part.parser(alloc)?;
        whole = whole.subcommand(part)?;
    }
    Ok(whole)
}

/// The whole command line. `AllocError`: out of memory.
pub fn parser<'a>(alloc: Global) -> Result<Parser<'a>, AllocError>
    ensures { IfOk result (IsParser rmelab) }
{
    parser_of(alloc, &PARTS)
}
