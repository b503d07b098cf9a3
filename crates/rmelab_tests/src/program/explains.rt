//! What `explain` prints: the names of all entries, one entry of each kind, and words that name none.

/// An entry, and what is printed for words that name no entry.
pub const TEXTS: &str = "
@text NO_NEWLINE
fault 5: The last line does not end with a line feed. Each line of a schedule or a trace has to end with one.
See docs/dev/texts.md, Faults of the text.
@text NO_NAME
error: 'fault 7' names nothing that is explained

For more information, try 'rmelab explain'.
@text UNWRITTEN
rmelab: write failed
";

pub const EXPLANATIONS: &str = "
@row rmelab explain @out
fault 1
fault 2
fault 3
fault 4
fault 5
fault 6
refused 1
refused 2
refused 3
refused 4
refused 5
refused 6
refused 7
refused 8
refused 9
refused 10
refused 11
refused 12
refused 13
refused 14
refused 15
refused 16
refused 17
refused 18
out of memory
rule 1
rule 2
rule 3
rule 4
rule 5
rule 6
rule 7
rule 8
rule 9
against 1
against 2
against 3
against 4
against 5
against 6
against 7
against 8
against 9
against 10
against 11
answer clean
answer owner-died
answer numbers-spent
answer not-recoverable
answer unlocked
answer withdrawn
answer found idle
answer found left
answer found doorway
answer found waiting
answer found inside
answer stored
answer already
answer out-of-order
answer full
answer closed
answer closed-now
answer already-closed
answer mended
answer nothing-to-mend
answer word
answer put
answer ruined
answer not-ruined
step open
step peek
step take
step shut
step look
step weigh
step mark
step drop
step reread
step get
step put
step glance
algorithm fault 1
algorithm fault 2
algorithm fault 3
algorithm fault 4
algorithm fault 5
algorithm fault 6
algorithm fault 7
algorithm fault 8
algorithm fault 9
algorithm fault 10
algorithm fault 11
algorithm fault 12
algorithm fault 13
algorithm fault 14
algorithm fault 15
algorithm fault 16
algorithm fault 17
algorithm fault 18
@row rmelab explain fault 5 @out NO_NEWLINE
@row rmelab explain refused 12 @out
refused 12: The process came back after a crash inside, and has not mended what it found. First `consistent P` has to be answered.
See docs/dev/surface.md, Rules for all calls.
@row rmelab explain out of memory @out
out of memory: A request for memory was refused. This is the answer only if there is no other cause, and the call may be made again.
See docs/dev/surface.md, Rules for all calls.
@row rmelab explain rule 7 @out
rule 7: The words ruined, closed and armed are at most 1, and count is at most the capacity. Closed and armed are not both 1.
See docs/dev/texts.md, Image.
@row rmelab explain against 4 @out
against 4: `by Q of P`: process Q entered, though P was ready before Q began, and P has neither entered since nor given up its place. First come, first served is violated.
See docs/theory/judge.md, The judge table.
@row rmelab explain answer clean @out
answer clean: The process waited in the line, and is inside. There is nothing to mend.
See docs/theory/model.md, Calls as rows of steps.
@row rmelab explain answer found left @out
answer found left: `recover` read the words 0,0,1: the process had crashed on its way out. It has completed its exit, and is at rest.
See docs/theory/model.md, Restart table.
@row rmelab explain answer already @out
answer already: The mailbox has the sender's message with this number. Nothing was written, so an append that a crash cut off can be made again.
See docs/theory/mailbox.md, Tasks.
@row rmelab explain step look @out
step look: Loads choosing of another process, to pass it. If it is 1 the step is blocked, and the next one reads the same word.
See docs/theory/model.md, Step.
@row rmelab explain refused 16 @out
refused 16: A value is not 0 to 18446744073709551615, a division is by 0, an index is no process, a store is above its bound, a deed is the fourth of its step, or loops have too many rounds without an access. The start or the step is refused, and nothing changes.
See docs/use/algorithms.md, Meaning.
@row rmelab explain algorithm fault 7 @out
algorithm fault 7: A shared word is part of a value, a condition or an index, or is stored into another. One line makes one access: read the word into a private name in a line of its own.
See docs/use/algorithms.md, Faults of a text.
@row rmelab explain fault 7 @ends 2 @err NO_NAME
@row rmelab explain  @ends 2 @err
error: '' names nothing that is explained

For more information, try 'rmelab explain'.
@row rmelab explain answer found @ends 2 @err
error: 'answer found' names nothing that is explained

For more information, try 'rmelab explain'.
@row rmelab explain --all @ends 2 @err
error: unexpected argument '--all' found

  tip: to pass '--all' as a value, use '-- --all'

Usage: rmelab explain [WORDS]...

For more information, try '--help'.
@row rmelab explain @fails write @ends 3 @err UNWRITTEN
@row rmelab explain fault 5 @fails write @ends 3 @err UNWRITTEN
@row rmelab explain fault 5 @fails flush @out NO_NEWLINE @ends 3 @err UNWRITTEN
@row rmelab explain fault 7 @fails err @ends 2
";
