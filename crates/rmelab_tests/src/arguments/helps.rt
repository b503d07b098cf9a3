//! What `clap` prints: the help of the program and of each command, and the errors for bad words.

pub const HELPS_AND_WRONG_WORDS: &str = "
@text HELP
A laboratory of recoverable first-come first-served locks

Usage: rmelab <COMMAND>

Commands:
  replay   Runs a schedule of steps and crashes, and prints its report
  run      Runs senders on threads, with drawn crashes, and counts their messages
  hunt     Draws schedules until a variant of the lock, or an algorithm, goes wrong
  explore  Tries all schedules up to a bound, for the shortest that goes wrong
  cost     Counts the remote references of a passage: the most, or the mean
  export   Writes the model of an algorithm for another tool
  states   Writes and checks the states of a search as lines of a text
  judge    Judges a trace of deeds, and prints the verdict
  draw     Draws the run of a schedule as a space-time diagram
  shrink   Minimizes a schedule that goes wrong on a variant of the lock, or on an algorithm
  step     Holds a session: takes the lines of a schedule one by one, and goes back
  explain  Says what a number or a word of reports and faults means
  help     Print this message or the help of the given subcommand(s)

Options:
  -h, --help     Print help
  -V, --version  Print version

Exit status: 0 fine, 1 a verdict against, a schedule found, or a message twice or out of order, 2 a fault of the input, 3 a fault of a device, of memory or of a member, or too many states in `explore` or `cost`.
@text JUDGE
Judges a trace of deeds, and prints the verdict

Usage: rmelab judge [OPTIONS] [FILE]

Arguments:
  [FILE]  The trace; without it, standard input is read

Options:
      --json  Print the verdict as a JSON object
  -h, --help  Print help

In: a trace: a header such as `trace 1 procs 2 cap 1`, then deeds such as `begin 0`, `ready 0`, `enter 0`.
Out: the verdict line; with --json an object.
Exit status: 0 if the verdict is fine, 1 if it is against, 2 after a fault of the words or the trace, 3 after a fault of a device or of memory.

Example: rmelab judge examples/overtaken.trace
@row rmelab --help @out HELP
@row rmelab replay --help @out
Runs a schedule of steps and crashes, and prints its report

Usage: rmelab replay [OPTIONS] [FILE]

Arguments:
  [FILE]  The schedule; without it, standard input is read

Options:
      --json              Print one JSON object of the report's lines; with --each an object for each step
      --each              Print each step, with its word and the state of its process
      --variant <V>       right, no-look, no-ties, renumber, exit-on-crash, count-up or last-skipped
      --algorithm <FILE>  Run this algorithm, a text, in place of a variant
      --image <FILE>      Begin with the words of this image, every process crashed
      --save <FILE>       Write the last image to this file
  -h, --help              Print help

In: a schedule: a header such as `rme 1 procs 2 limit 10 cap 1`, then lines such as `lock 0`, `step 0 5`, `crash 0`, each ended by a line feed. With --algorithm the algorithm's text is read first: docs/use/algorithms.md.
Out: its report: the deeds and answers of each step, the last words, the mailbox and the verdict; with --each --json an object for each step, between the images before and after them or, of an algorithm, before its last words, and the verdict.
Exit status: 0 if the verdict is fine, 1 if it is against, 2 after a fault of the words, the schedule, the algorithm or the image, 3 after a fault of a device or of memory.

Example: rmelab replay examples/tie.rme
@row rmelab run --help @out
Runs senders on threads, with drawn crashes, and counts their messages

Usage: rmelab run [OPTIONS] --procs <N> --messages <M> --crash <C> --seed <S>

Options:
      --procs <N>     1 to 16 senders
      --messages <M>  1 to 4096 messages of each
      --crash <C>     0 to 50 crashes in 1000 askings
      --seed <S>      The seed of the crashes
      --width <W>     1 to 8 words a message; 1 without it
  -h, --help          Print help

In: nothing. Each sender sends its messages through one running lock, on a thread of its own, and sends a message again after each crash.
Out: the messages of each sender in the mailbox, as `sender 0 messages 50 twice 0 order yes`, and the total.
Exit status: 0 if each message is there once and in order, 1 if not, 2 after a fault of the words, 3 after a fault of a device, of memory or of a sender.

Example: rmelab run --procs 4 --messages 50 --crash 20 --seed 7
@row rmelab hunt --help @out
Draws schedules until a variant of the lock, or an algorithm, goes wrong

Usage: rmelab hunt [OPTIONS] --seed <S> --rounds <R> --steps <K>

Options:
      --variant <V>         right, no-look, no-ties, renumber, exit-on-crash, count-up or last-skipped
      --algorithm <FILE>    Run this algorithm, a text, in place of a variant
      --procs <N>           1 to 64 processes; 2 without it; with --algorithm alone
      --limit <L>           Numbers up to L; 1000000 without it; with --algorithm alone
      --seed <S>            The seed of the moves
      --first-round <A>     Begin with round A, by one thread; 0 without it
      --rounds <R>          1 to 10000 rounds
      --steps <K>           1 to 10000 moves a round
      --system-crashes <G>  0 to 1000 crashes of all processes at once in 1000 moves; 0 without it
      --shrink              Minimize the schedule found, as `shrink` does
      --jobs <N>            N threads at once; without it, or 0, as many as there are processors
  -h, --help                Print help

In: nothing; with --algorithm the algorithm's text: docs/use/algorithms.md.
Out: the schedule found, which `rmelab replay` with the same --variant or --algorithm replays to its fault, or `nothing found`.
Shown: on standard error, if that is a terminal, the rounds, the moves and the moves a second, once a second while it works.
Exit status: 0 if nothing was found, 1 if a schedule was, 2 after a fault of the words or the algorithm, 3 after a fault of a device or of memory.

Example: rmelab hunt --variant no-look --seed 1 --rounds 10000 --steps 1000
@row rmelab explore --help @out
Tries all schedules up to a bound, for the shortest that goes wrong

Usage: rmelab explore [OPTIONS] --procs <N>

Options:
      --variant <V>         right, no-look, no-ties, renumber, exit-on-crash, count-up or last-skipped
      --algorithm <FILE>    Run this algorithm, a text, in place of a variant
      --procs <N>           1 to 64 processes
      --calls <LIST>        lock, unlock, recover, withdraw, and of a variant consistent, append and close, with commas; without it lock,unlock, with --stuck consistent too, and of an algorithm the calls of its text
      --crashes <C>         At most C crashes; 0 without it
      --system-crashes <G>  At most G crashes of all processes at once; 0 without it
      --moves <K>           At most K moves; no bound without it
      --states <S>          At most S states; 10000000 without it
      --limit <L>           Numbers up to L; 4 without it
      --cap <M>             Room for M messages; 1 without it; not with --algorithm
      --width <W>           1 to 8 words a message; 1 without it; not with --algorithm
      --stuck               Look for stuck states too; not with --moves
      --starving [<WHO>]    Look for a process that starves; WHO may give up: nobody, as without it, or any; not with --moves
      --all-variables       Distinguish states by dead variables too; not with --algorithm
      --jobs <N>            N threads at once; without it, or 0, as many as there are processors
  -h, --help                Print help

In: nothing; with --algorithm the algorithm's text: docs/use/algorithms.md. All schedules are tried whose moves are the start of a call of --calls, one step, a crash, of which there are at most --crashes, or a crash of all processes, of which there are at most --system-crashes: the shorter before the longer. Two worlds are one state if their words, their processes, the judge and the crashes left are the same; with --starving the judge is left out. Of a process those variables count that a move may still read; all do with --all-variables or, of a variant, --stuck or --starving.
Out: the schedule of fewest moves that goes wrong, which `rmelab replay` with the same --variant or --algorithm replays to its fault; of an algorithm that promises `bounds`, also one that ends with a move to a value out of range, which `rmelab replay` refuses; `nothing found within K moves`; or, if all was tried, `nothing found: all N states`; of another algorithm with moves to values out of range `nothing found: all N states, M moves left out from line L`. With --stuck, if none goes wrong: the schedule of fewest moves to a state from which no starts and steps bring each process to rest with all lock words 0, unless by an unlock that ruins the lock, or, of an algorithm, to rest outside and not in line; it replays to a fine verdict; or `never stuck: all N states`. With --starving, whatever goes wrong: a schedule of fewest moves that ends with a cycle in which a process starves, and the line `starves P cycle K`: process P, in the last K moves; or `never starving: all N states`. With --stuck and --starving: both. With neither, without --moves, of an algorithm that promises `deadlock freedom` or `starvation freedom`, if nothing was found: also what --starving finds. Nothing is said of a greater size, limit or number of crashes.
Shown: on standard error, if that is a terminal, the states, how many moves deep and the states a second, once a second while it works.
Exit status: 0 if nothing was found, 1 if a schedule was, 2 after a fault of the words or the algorithm, 3 after one of a device or of memory, or if there are more states than --states.

Example: rmelab explore --variant no-look --procs 2
@row rmelab cost --help @out
Counts the remote references of a passage: the most, or the mean

Usage: rmelab cost [OPTIONS] --model <M> --procs <N>

Options:
      --variant <V>         right, no-look, no-ties, renumber, exit-on-crash, count-up or last-skipped
      --algorithm <FILE>    Run this algorithm, a text, in place of a variant
      --model <M>           dsm, write-through or write-back
      --super-passages      Count in super-passages, which a crash does not end
      --procs <N>           1 to 64 processes
      --calls <LIST>        The calls that are started, as for `explore`
      --crashes <C>         At most C crashes; 0 without it
      --system-crashes <G>  At most G crashes of all processes at once; 0 without it
      --states <S>          At most S states; 10000000 without it
      --limit <L>           Numbers up to L; 4 without it
      --mean                Count on random schedules: --seed, --rounds and --steps go with it alone, and --limit is 1000000 without it; not with --variant, --super-passages, --calls, --crashes, --system-crashes or --states
      --seed <S>            The seed of the moves; 0 without it
      --rounds <R>          1 to 10000 rounds; 100 without it
      --steps <K>           1 to 10000 moves a round; 1000 without it
  -h, --help                Print help

In: nothing; with --algorithm the algorithm's text: docs/use/algorithms.md. All schedules are tried whose moves are the start of a call of --calls, one step, a crash, of which there are at most --crashes, or a crash of all processes, of which there are at most --system-crashes. With --mean schedules are drawn: --rounds of --steps moves each, a move being a step of a process or, where it has no call, the start of one. A passage costs each access of its process that is remote in the model: docs/dev/texts.md.
Out: a schedule that reaches the greatest cost, and the line `process P passage cost K`; or, if none is the greatest, a schedule and the line `process P passage cost unbounded cycle K`: its last K moves can be made again and again, and cost something each time. With --super-passages the line has `super-passage` in place of `passage`. Nothing is said of a greater size, limit or number of crashes. With --mean the line `passages N cost K mean M`: N passages were completed, K is what they cost together, and M is K/N, rounded down to hundredths; or, if none was, `passages 0 cost 0`.
Shown: on standard error, if that is a terminal, the states, how many moves deep and the states a second, once a second while it works.
Exit status: 0 if a cost is the greatest, or with --mean, 1 if none is, 2 after a fault of the words or the algorithm, 3 after one of a device or of memory, or if there are more states than --states.

Example: rmelab cost --algorithm examples/algorithms/mcs.lock --model write-back --procs 2
@row rmelab export --help @out
Writes the model of an algorithm for another tool

Usage: rmelab export [OPTIONS] --promela <FILE> --procs <N>

Options:
      --promela <FILE>  The algorithm whose model is written
      --procs <N>       1 to 64 processes
      --crashes <C>     At most C crashes; 0 without it
      --limit <L>       Numbers up to L; 4 without it
  -h, --help            Print help

In: the algorithm's text: docs/use/algorithms.md.
Out: a model in Promela of all its schedules whose moves are the start of a call, one step, or a crash, of which there are at most --crashes. SPIN searches it, and finds an assertion violated where the promises are broken, but for never lines and promises on calls under way: spin -a, then a C compiler with -DSAFETY -DNOREDUCE. It stores as many states as explore counts, where the judge has nothing against it and no number is above 32767.
Exit status: 0, 2 after a fault of the words or the algorithm, 3 after one of a device or of memory.

Example: rmelab export --promela examples/algorithms/mcs.lock --procs 2
@row rmelab states --help @out
Writes and checks the states of a search as lines of a text

Usage: rmelab states [OPTIONS] --procs <N> <TOOL> [FILE]

Arguments:
  <TOOL>  first, expand, lead, home, check or walk
  [FILE]  The states; without it, standard input is read

Options:
      --variant <V>         right, no-look, no-ties, renumber, exit-on-crash, count-up or last-skipped
      --algorithm <FILE>    Run this algorithm, a text, in place of a variant
      --procs <N>           1 to 64 processes
      --calls <LIST>        The calls that are started, as for `explore`
      --crashes <C>         At most C crashes; 0 without it
      --system-crashes <G>  At most G crashes of all processes at once; 0 without it
      --limit <L>           Numbers up to L; 4 without it
      --cap <M>             Room for M messages; 1 without it; not with --algorithm
      --width <W>           1 to 8 words a message; 1 without it; not with --algorithm
      --words <K>           Room for K words a state; without it, or 0, 24 more than the first has, and 8 a process
      --digits <D>          1 to 10 characters a word; 2 without it
      --part <I>            Check moves into part I of all states; 0 without it
      --parts <P>           of P parts; 1 without it
  -h, --help                Print help

In: nothing for first; else texts of states: a header and then a line for each state, as first writes them; with --algorithm the algorithm's text first: docs/use/algorithms.md. expand, check: one text. lead, home: a set of states, and then the states that are tried. walk: the sets that a schedule leads through, without that of the first state. The states are those that explore tries, by all variables.
Out: of first the header and the line of the first state; of expand the header and a line for each move of each state, in the order of the lines and of the moves: that of its successor or, if the move goes wrong, `#` and its own; of lead the header and the lines of the states from which a move leads into the set; of home those at home, or from which a move leads into it that is no crash and ruins nothing; of check `closed: N states` if the first state is in the set, no move from it goes wrong and each leads into it, or else why it is not closed; of walk the first schedule through the sets that then goes wrong. docs/use/states.md has all of it.
Exit status: 0 if that was written, 1 if a set is not closed or a schedule was written, 2 after a fault of the words, the algorithm or a line, 3 after a fault of a device or of memory.

Example: rmelab states first --variant no-look --procs 2
@row rmelab judge --help @out JUDGE
@row rmelab draw --help @out
Draws the run of a schedule as a space-time diagram

Usage: rmelab draw [OPTIONS] [FILE]

Arguments:
  [FILE]  The schedule; without it, standard input is read

Options:
      --variant <V>       right, no-look, no-ties, renumber, exit-on-crash, count-up or last-skipped
      --algorithm <FILE>  Run this algorithm, a text, in place of a variant
      --image <FILE>      Begin with the words of this image, every process crashed
      --svg               Write a picture, as SVG
      --html              Write a page that shows the run step by step
  -h, --help              Print help

In: a schedule: a header such as `rme 1 procs 2 limit 10 cap 1`, then lines such as `lock 0`, `step 0 5`, `crash 0`, each ended by a line feed. With --algorithm the algorithm's text is read first: docs/use/algorithms.md.
Out: its run, time downward: a column for each process, a row for each step or crash, and at the right what it does; with --svg a picture of this, and with --html a page for a browser with the picture and each step.
Exit status: 0 if the verdict is fine, 1 if it is against, 2 after a fault of the words, the schedule, the algorithm or the image, 3 after a fault of a device or of memory.

Example: rmelab draw examples/tie.rme
@row rmelab shrink --help @out
Minimizes a schedule that goes wrong on a variant of the lock, or on an algorithm

Usage: rmelab shrink [OPTIONS] [FILE]

Arguments:
  [FILE]  The schedule; without it, standard input is read

Options:
      --variant <V>       right, no-look, no-ties, renumber, exit-on-crash, count-up or last-skipped
      --algorithm <FILE>  Run this algorithm, a text, in place of a variant
  -h, --help              Print help

In: a schedule: a header such as `rme 1 procs 2 limit 10 cap 1`, then lines such as `lock 0`, `step 0 5`, `crash 0`, each ended by a line feed. With --algorithm the algorithm's text is read first: docs/use/algorithms.md.
Out: if its verdict on the variant or the algorithm is against, a 1-minimal schedule with a verdict against the same number: no line can be left out and no count of steps lowered by one. Otherwise the verdict line.
Exit status: 0 if the verdict is fine, 1 if it is against, 2 after a fault of the words, the schedule or the algorithm, 3 after a fault of a device or of memory.

Example: rmelab shrink --variant no-look examples/two-in-the-doorway.rme
@row rmelab step --help @out
Holds a session: takes the lines of a schedule one by one, and goes back

Usage: rmelab step [OPTIONS] [FILE]

Arguments:
  [FILE]  The schedule to begin with; without it, the first line is a header

Options:
      --algorithm <FILE>  Run this algorithm, a text, in place of a variant
  -h, --help              Print help

In: lines of a schedule, and undo, redo, to answer P, save FILE, help and quit, each answered at once. Without FILE the first line is a header. With --algorithm the algorithm's text is read first: docs/use/algorithms.md.
Out: for a line of a schedule each of its steps, as replay --each prints them; then the words of each process, their row of the restart table, its state, and who is inside. A line that is refused or can't be read gets its fault, and changes nothing.
Exit status: 0 at the end of the session, 2 if it can't begin, 3 after a fault of a device or of memory.

Example: rmelab step examples/tie.rme
@row rmelab explain --help @out
Says what a number or a word of reports and faults means

Usage: rmelab explain [WORDS]...

Arguments:
  [WORDS]...  The name, as `fault 5`, `refused 12`, `rule 7`, `against 4`, `answer clean` or `step look`

Options:
  -h, --help  Print help

In: nothing.
Out: what the words name, in two sentences, and the page that defines it; without words all names, one a line.
Exit status: 0 if the words are a name, 2 if they are not, 3 after a fault of a device or of memory.

Example: rmelab explain fault 5
@row rmelab help @out HELP
@row rmelab help judge @out JUDGE
@row rmelab run --procs 1 --messages 1 --crash 0 @ends 2 @err
error: the following required arguments were not provided:
  --seed <S>

Usage: rmelab run --procs <N> --messages <M> --crash <C> --seed <S>

For more information, try '--help'.
@row rmelab hunt --variant right --rounds 1 --steps 1 @ends 2 @err
error: the following required arguments were not provided:
  --seed <S>

Usage: rmelab hunt --seed <S> --rounds <R> --steps <K> --variant <V>

For more information, try '--help'.
@row rmelab replay a b @ends 2 @err
error: unexpected argument 'b' found

Usage: rmelab replay [OPTIONS] [FILE]

For more information, try '--help'.
@row rmelab @ends 2 @err
error: 'rmelab' requires a subcommand but one was not provided
  [subcommands: replay, run, hunt, explore, cost, export, states, judge, draw, shrink, step, explain, help]

Usage: rmelab <COMMAND>

For more information, try '--help'.
@row rmelab hunt --variant right --seed 1 --rounds x --steps 1 @ends 2 @err
error: invalid value 'x' for '--rounds <R>': invalid digit found in string

For more information, try '--help'.
";
