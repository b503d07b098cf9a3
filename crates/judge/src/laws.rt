//! Laws over every list of deeds. Each law is the contract of a function with an empty body.

ghost use Rattle.std.specs.Prelude.{◌≡◌, ◌<◌, ◌^◌, ◌↔◌, ℕ, Bool, List, [], ◌∷◌, ◌++◌, map, Ok};
ghost use Rattle.rmecore.specs.AbstractLock.{Abstract, Legal, row};
ghost use Rattle.rmecore.specs.declared.outer.Outer.TheVariants.{Enter};
ghost use Rattle.rmecore.specs.Needs.{AllHold, first_fault};
ghost use Rattle.rmecore.specs.Place.{Event};
ghost use Rattle.rmecore.specs.World.{at_rest, Run, deeds};
ghost use Rattle.redomail.specs.Mailbox.{doer};
ghost use Rattle.judge.specs.Alike.{AreAlike};
ghost use Rattle.judge.specs.Halves.{outers, LockAllows, MailAllows, all_after, Agree};
ghost use Rattle.judge.specs.Kept.{Kept, HasBits, row_word};
ghost use Rattle.judge.specs.Legal.{Leads, IsLegal};
ghost use Rattle.judge.specs.Plain.{IsPlain, LockInOrder};
ghost use Rattle.judge.specs.PlainFrom.{IsPlainFrom};
ghost use Rattle.judge.specs.Stands.{Keeps};
ghost use Rattle.judge.specs.Starts.{state_of, IsStart};
ghost use Rattle.judge.specs.Table.{State, entry_needs, lock_needs, mail_needs, needs, after, state_after_deed};

use crate::start::Start;
use redomail::Deed;
use rmecore::Outer;

/// Every legal history of a new lock has the plain properties, for any number of processes and any capacity.
pub fn legal_histories_are_plain()
    ensures { (procs cap : ℕ) (history : List Deed) → IsLegal procs cap history → IsPlain history }
{}

/// Every history that continues from a start which `Judge::from_start` accepts has the plain properties from that start.
pub fn histories_from_a_start_are_plain()
    ensures { (start : Start) (history : List Deed) (t : State) → IsStart start → Leads (state_of start) history t
        → IsPlainFrom start history }
{}

/// The deeds of every run of the core from all words 0 are legal beside a mailbox of any capacity, and have the lock's plain
/// properties. It holds for any number of processes and any limit.
pub fn core_runs_are_legal()
    ensures legal { (n limit cap : ℕ) (events : List Event) → Run n limit at_rest events
        → IsLegal n cap (map Deed.Outer (deeds n limit at_rest events)) }
    ensures plain { (n limit : ℕ) (events : List Event) → Run n limit at_rest events
        → LockInOrder (map Deed.Outer (deeds n limit at_rest events)) }
{
    rmecore::laws::every_run_is_legal();
}

/// A list of deeds is legal from a state exactly if the lock allows its deeds of the lock and the mailbox list allows each
/// deed. Where one process may be inside, the lock is the abstract lock.
pub fn histories_have_two_halves()
    ensures together { (s : State) (history : List Deed) → LockAllows s.most_inside s.procs s.lock (outers history)
        → MailAllows s.procs s.cap s.lock s.mail history → Leads s history (all_after s history) }
    ensures lock { (s t : State) (history : List Deed) → Leads s history t
        → LockAllows s.most_inside s.procs s.lock (outers history) }
    ensures one { (n : ℕ) (a : Abstract) (deeds : List Outer) → LockAllows 1 n a deeds ↔ Legal n a deeds }
    ensures mail { (s t : State) (history : List Deed) → Leads s history t → MailAllows s.procs s.cap s.lock s.mail history }
    ensures state { (s t : State) (history : List Deed) → Leads s history t → t ≡ all_after s history }
{}

/// A deed of one of the n processes is legal if the lock and the mailbox both allow it. The state after it is the one that
/// the judge table gives. A legal history with one more legal deed is legal, and so is one followed by another that
/// continues from its end.
pub fn histories_grow()
    ensures deed { (s : State) (deed : Deed) → doer deed < s.procs → AllHold (lock_needs s deed)
        → AllHold (mail_needs s deed) → state_after_deed s deed ≡ Ok (after s deed) }
    ensures grow { (s t u : State) (history : List Deed) (deed : Deed) → Leads s history t → state_after_deed t deed ≡ Ok u
        → Leads s (history ++ deed ∷ []) u }
    ensures go_on { (s t u : State) (history later : List Deed) → Leads s history t → Leads t later u → Leads s (history ++ later) u }
{}

/// Only the processes below n matter. If a list of deeds is legal from a state, it is legal from every state whose lock
/// agrees on these processes.
pub fn only_the_processes_count()
    ensures lock { (n : ℕ) (a b : Abstract) (deeds : List Outer) → Agree n a b → Legal n a deeds → Legal n b deeds }
    ensures history { (s t : State) (b : Abstract) (history : List Deed) → Agree s.procs s.lock b → Leads s history t
        → Leads (record s { lock = b }) history (all_after (record s { lock = b }) history) }
{}

/// Where one process may be inside, the needs of k-exclusion find the fault that the abstract lock's row finds.
pub fn exclusion_of_one_is_mutual_exclusion()
    ensures { (n : ℕ) (a : Abstract) (p : ℕ) → first_fault (entry_needs 1 n a p) ≡ first_fault (row n a (Enter p)) }
{}

/// The number of a row of bits has these bits and no others.
pub fn rows_have_their_bits()
    ensures bits { (n : ℕ) (f : ℕ → Bool) → HasBits (row_word n f) n f }
    ensures below { (n : ℕ) (f : ℕ → Bool) → row_word n f < 2 ^ n }
{}

/// Alike states give the same verdict on every deed, and are alike after it. Any two states of one judge are alike.
pub fn alike_states_stay_alike()
    ensures kept { (judge : Kept) (s t : State) → Keeps judge s → Keeps judge t → AreAlike s t }
    ensures verdict { (s t : State) (d : Deed) → AreAlike s t → first_fault (needs s d) ≡ first_fault (needs t d) }
    ensures after { (s t : State) (d : Deed) → AreAlike s t → doer d < s.procs → AreAlike (after s d) (after t d) }
{}
