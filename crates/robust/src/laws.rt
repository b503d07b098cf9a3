//! Laws over every run of the table, whoever takes its steps. Each is the contract of a function that does nothing.

ghost use Rattle.table_runs.specs.Headline.{EveryRunIsSound};
ghost use Rattle.table_runs.specs.ReadMessages.{LoadsTell, RunsShow, EntriesStandInRuns};
ghost use Rattle.table_runs.specs.Ruins.{NobodyRuins};
ghost use Rattle.table_runs.specs.Tabled.{CallsKeepTheTable};
ghost use Rattle.table_runs.specs.WholeSteps.{StoredAppendSteps};

/// For any number of processes, any limit and room, and any list of entries that is a run, with or without crashes, the deeds
/// are legal: the judge allows each of them. No two processes are inside. Nobody enters before one that crashed inside has
/// entered again. One whose doorway was finished before another's super-passage began enters first, unless it withdrew. Each
/// sender's messages are in the mailbox once, in order, none after closing. The words at the end of the run are lawful, and
/// each append that was answered Stored or Already is shown.
pub fn every_run_is_sound()
    ensures { EveryRunIsSound }
{
    rmeworld::laws::every_execution_is_sound();
    judge::laws::legal_histories_are_plain();
}

/// A load finds its word's value in the global state right before it.
#[tactic(auto, using(table_runs::proofs::Runs::last_reads))]
pub fn loads_tell()
    ensures { LoadsTell }
{}

/// After every run the entries below count are the messages that the mailbox list shows, and there is room for them.
#[tactic(auto, using(table_runs::proofs::Shown::runs_show))]
pub fn runs_show()
    ensures { RunsShow }
{}

/// Entries below count never change later in a run, and count doesn't fall.
#[tactic(auto, using(table_runs::proofs::Shown::entries_stand_in_runs))]
pub fn entries_stand_in_runs()
    ensures { EntriesStandInRuns }
{}

/// Each call of a member takes just the own steps of the table of docs/theory/model.md and its blocked steps, whatever the
/// others do meanwhile. While it has no answer it has taken fewer than the most that such a call takes.
pub fn calls_keep_the_table()
    ensures { CallsKeepTheTable }
{}

/// The own steps of an append that stores, from lock words that are all 0, are 3n + 18 + 2W and its blocked readings.
#[tactic(auto, using(table_runs::proofs::WholeSteps::stored_append_steps))]
pub fn steps_of_a_stored_append()
    ensures { StoredAppendSteps }
{}

/// In a run whose processes all start their calls as the workers of a lab do, with an unlock only after a mending or an
/// append, nobody ruins the lock, however often they crash.
pub fn nobody_ruins()
    ensures { NobodyRuins }
{
    rmeworld::laws::messages_were_sent();
    loads_tell();
}
