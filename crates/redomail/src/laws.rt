//! Laws of the mailbox, over every run of its definitions. Each law is the contract of a function with an empty body.

ghost use Rattle.redomail.specs.Laws.{TasksAreSafe, ConsistentIsSafe, SafeIsSeen, StepsStaySafe, PutsAreOwn, TasksKeep, ShownGrows, ShownEntriesStand, EntriesStand, RepairCompletes, RepliesHaveTheirSteps, MendingHasItsSteps, TasksEnd, ConsistentEnds, NumbersAreShown, AnsweredIsShown, NewWords, ShapePassesOn, MayLeave, ShapeIsContent, ContentIsShape};

/// Each task that may begin is a safe script.
pub fn tasks_are_safe()
    ensures { TasksAreSafe }
{}

/// `consistent` is a safe script whenever a process is inside.
pub fn consistent_is_safe()
    ensures { ConsistentIsSafe }
{}

/// While a safe script runs, the words have the shape.
pub fn safe_is_seen()
    ensures { SafeIsSeen }
{}

/// A step of a safe script does allowed deeds only, and the rest of the script is safe again.
pub fn steps_stay_safe()
    ensures { StepsStaySafe }
{}

/// A put does deeds of the mailbox only, and they are those of the process that puts.
pub fn puts_are_own()
    ensures { PutsAreOwn }
{}

/// After any number of a task's steps the words have the shape of a mailbox that legal deeds lead to.
pub fn tasks_keep()
    ensures { TasksKeep }
{}

/// No deed removes a message that is shown.
pub fn shown_grows()
    ensures { ShownGrows }
{}

/// The entries below count stay the same, and count never falls, whichever legal deeds come in between.
pub fn shown_entries_stand()
    ensures { ShownEntriesStand }
{}

/// Under any number of a task's steps the entries below count stay the same, and count does not fall.
pub fn entries_stand()
    ensures { EntriesStand }
{}

/// A repair completes the apply steps, however many of them were done before the crash.
pub fn repair_completes()
    ensures { RepairCompletes }
{}

/// Each task takes the steps that its reply has in the table of own steps.
pub fn replies_have_their_steps()
    ensures { RepliesHaveTheirSteps }
{}

/// `consistent` takes the steps that its reply has in the table of own steps.
pub fn mending_has_its_steps()
    ensures { MendingHasItsSteps }
{}

/// After each task the words ruined and armed are those that its reply says.
pub fn tasks_end()
    ensures { TasksEnd }
{}

/// After `consistent` the words ruined and armed are those that its reply says.
pub fn consistent_ends()
    ensures { ConsistentEnds }
{}

/// Of each process, the messages shown have the numbers 1 to their count.
pub fn numbers_are_shown()
    ensures { NumbersAreShown }
{}

/// If an append replies Stored or Already, a message with its number is among its sender's messages shown.
pub fn answered_is_shown()
    ensures { AnsweredIsShown }
{}

/// Words that are all 0 have the shape of an empty mailbox.
pub fn new_words()
    ensures { NewWords }
{}

/// If no record is armed, or the lock is ruined, the words have the shape for the next process inside too.
pub fn shape_passes_on()
    ensures { ShapePassesOn }
{}

/// If no record is armed, or the lock is ruined, the mailbox lets a process leave.
pub fn may_leave()
    ensures { MayLeave }
{}

/// Words with the shape keep the rules of `content`, and their content is the messages that the mailbox shows.
pub fn shape_is_content()
    ensures { ShapeIsContent }
{}

/// Words that keep the rules of `content` have the shape.
pub fn content_is_shape()
    ensures { ContentIsShape }
{}
