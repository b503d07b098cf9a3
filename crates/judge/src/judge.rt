//! The judge: it checks one deed of a history after another, without allocating.

ghost use Rattle.std.specs.Prelude.{◌≡◌, ℕ, ◌+◌, ◌==◌, count_by, nat_lt, length, ◌<◌, ◌≤◌, ◌↔◌, ◌⊎◌, Bool, true, is_some, List, [], ◌∷◌, ◌++◌, IfNone, IfSome, IsSome, All, slice_index, IsTrue, IfOk, IfErr, IsErrOf, MatchResult, OnErr, OnOk, Ok, Err, false};
ghost use Rattle.rmecore.specs.AbstractLock.{doer as lock_doer};
ghost use Rattle.rmecore.specs.Needs.{put, least_below, first_fault as fault_of};
ghost use Rattle.redomail.specs.Mailbox.{is_by};
ghost use Rattle.judge.specs.Table.{State, empty_state, empty_state_of, count_inside, count_dead_in, lock_needs, mail_needs, needs, after, state_after_deed};
ghost use Rattle.judge.specs.Legal.{judged_all};
ghost use Rattle.judge.specs.Kept.{HasRoom, Lists};
ghost use Rattle.judge.specs.Stands.{Keeps, StandsAfter};
ghost use Rattle.judge.specs.Starts.{state_of, IsStart, IsWithin, LockHolds, MailHolds};

use crate::deeds::{doer, is_pending};
use crate::faults::{fault_unless, first_fault};
use crate::mail_part::MailPart;
use crate::start::Start;
use crate::{place, rows, shape};
use redomail::{Deed, Message};
use rmecore::{Fault, Outer, Phase, Refusal};
use std::alloc::{AllocError, Global};
use std::marker::Model;

/// The judge of one list of deeds. Its state is that after the deeds it has accepted. Of the messages shown it keeps the
/// number for each sender, not the messages.
#[derive(Debug, Drop)]
pub struct Judge {
    procs: u64,
    cap: u64,
    most_inside: u64,
    phases: Vec<Phase>,
    ahead: Vec<u64>,
    counts: Vec<u64>,
    shown: u64,
    pending: Option<Message>,
    closed: bool,
    ruined: bool,
}

impl Model for Judge {
    ghost use Rattle.judge.specs.Kept.{Kept, IsSound};

    ghost Value = { Kept };

    ghost use Rattle.judge.specs.View.{kept_of};

    ghost view = { kept_of };

    ghost invariant = { λ judge. IsSound (kept_of judge) };
}

impl Judge {
    /// A judge of a new lock, before any deed. `procs` is 1 to 64, `cap`, the mailbox's capacity in messages, 1 to 65,536.
    ///
    /// `BadProcs` and `BadCap`: a size outside these limits. `OutOfMemory`: an allocation failed. No later call allocates.
    pub fn new(alloc: Global, procs: u64, cap: u64) -> Result<Judge, Refusal>
        ensures made { IfOk result (λ judge. StandsAfter (empty_state procs cap) [] judge) }
        ensures procs { IsErrOf result Refusal.BadProcs ↔ ((procs ≡ 0) ⊎ (64 < procs)) }
        ensures cap { IsErrOf result Refusal.BadCap ↔ ((0 < procs) × (procs ≤ 64) × ((cap ≡ 0) ⊎ (65536 < cap))) }
        ensures only { IfErr result (λ r. (r ≡ Refusal.BadProcs) ⊎ (r ≡ Refusal.BadCap) ⊎ (r ≡ Refusal.OutOfMemory)) }
    {
        Judge::of_exclusion(alloc, 1, procs, cap)
    }

    /// As `new`, of k-exclusion: at most `most_inside` processes are inside at once, those that crashed there counted. 0: none
    /// may enter.
    pub fn of_exclusion(
        alloc: Global,
        most_inside: u64,
        procs: u64,
        cap: u64,
    ) -> Result<Judge, Refusal>
        ensures made { IfOk result (λ judge. StandsAfter (empty_state_of most_inside procs cap) [] judge) }
        ensures procs { IsErrOf result Refusal.BadProcs ↔ ((procs ≡ 0) ⊎ (64 < procs)) }
        ensures cap { IsErrOf result Refusal.BadCap ↔ ((0 < procs) × (procs ≤ 64) × ((cap ≡ 0) ⊎ (65536 < cap))) }
        ensures only { IfErr result (λ r. (r ≡ Refusal.BadProcs) ⊎ (r ≡ Refusal.BadCap) ⊎ (r ≡ Refusal.OutOfMemory)) }
    {
        shape::check_sizes(procs, cap)?;
        Ok(Judge::with_nothing_shown(alloc, most_inside, procs, cap)?)
    }

    /// A judge of a new lock of these sizes.
    fn with_nothing_shown(
        alloc: Global,
        most_inside: u64,
        procs: u64,
        cap: u64,
    ) -> Result<Judge, AllocError>
        requires { IsWithin procs cap }
        ensures { IfOk result (λ judge. StandsAfter (empty_state_of most_inside procs cap) [] judge) }
    {
        let n = procs as usize;
        let phases = vec![in alloc; Phase::Out; n]?;
        let ahead = vec![in alloc; 0; n]?;
        let counts = vec![in alloc; 0; n]?;
        Ok(Judge {
            procs,
            cap,
            most_inside,
            phases,
            ahead,
            counts,
            shown: 0,
            pending: None,
            closed: false,
            ruined: false,
        })
    }

    /// A judge of a history that continues from a start, for example the start of an image. The start's messages are read
    /// once and not kept.
    ///
    /// `BadProcs`, `BadCap` and `OutOfMemory` as for `new`. `BadShape`: no earlier deeds could have led to this start.
    pub fn from_start(alloc: Global, start: &Start) -> Result<Judge, Refusal>
        ensures made { IfOk result (λ judge. StandsAfter (state_of start.now) [] judge) }
        ensures start { OnOk result (IsStart start.now) }
        ensures procs { IsErrOf result Refusal.BadProcs ↔ ((start.now.procs ≡ 0) ⊎ (64 < start.now.procs)) }
        ensures cap { IsErrOf result Refusal.BadCap ↔ ((0 < start.now.procs) × (start.now.procs ≤ 64)
            × ((start.now.cap ≡ 0) ⊎ (65536 < start.now.cap))) }
        ensures shape { IsErrOf result Refusal.BadShape ↔ (IsWithin start.now.procs start.now.cap
            × (LockHolds start.now × MailHolds start.now → ⊥)) }
        ensures only { IfErr result (λ r. (r ≡ Refusal.BadProcs) ⊎ (r ≡ Refusal.BadCap) ⊎ (r ≡ Refusal.BadShape)
            ⊎ (r ≡ Refusal.OutOfMemory)) }
    {
        shape::check_sizes(start.procs, start.cap)?;
        let Some(counts) = shape::counts(start) else {
            return Err(Refusal::BadShape);
        };
        Judge::with_counts(alloc, start, &counts)
    }

    /// A judge of a history that continues from a start with these counts.
    fn with_counts(alloc: Global, start: &Start, counts: &[u64; 64]) -> Result<Judge, Refusal>
        requires start { IsStart start.now }
        requires counts { Lists counts.now 64 (λ p. count_by (is_by p) start.now.shown) }
        ensures made { IfOk result (λ judge. StandsAfter (state_of start.now) [] judge) }
        ensures only { IfErr result (λ r. r ≡ Refusal.OutOfMemory) }
    {
        let phases = Vec::from_slice(alloc, start.phases.as_slice())?;
        let ahead = rows::rows_of(alloc, start.ahead.as_slice())?;
        let counts = Vec::from_slice(alloc, &counts[..start.procs as usize])?;
        Ok(Judge {
            procs: start.procs,
            cap: start.cap,
            most_inside: 1,
            phases,
            ahead,
            counts,
            shown: start.shown.as_slice().len() as u64,
            pending: start.pending,
            closed: start.closed,
            ruined: start.ruined,
        })
    }

    /// The phase of p.
    fn phase(&self, p: u64) -> Phase
        requires { p < self.now.procs }
        ensures { (s : State) → Keeps self.now s → result ≡ s.lock.phase p }
    {
        self.phases[p as usize]
    }

    /// Whether `seq` is the number of p's next message.
    fn is_next(&self, p: u64, seq: u64) -> bool
        requires { p < self.now.procs }
        ensures { (s : State) → Keeps self.now s → result ≡ (seq == count_by (is_by p) s.mail.shown + 1) }
    {
        seq == self.counts[p as usize] + 1
    }

    /// Whether the mailbox has room for one more message.
    fn has_room(&self) -> bool
        ensures room { (s : State) → Keeps self.now s → result ≡ nat_lt (length s.mail.shown) s.cap }
        ensures below { IsTrue result → self.now.shown < self.now.cap }
    {
        self.shown < self.cap
    }

    /// The least process ahead of p, or the number of processes if there is none.
    fn least_ahead(&self, p: u64) -> u64
        requires { p < self.now.procs }
        ensures { (s : State) → Keeps self.now s → result ≡ least_below s.procs (s.lock.ahead p) }
    {
        rows::least_in(self.ahead[p as usize], self.procs)
    }

    /// How many processes are inside.
    fn count_inside(&self) -> usize
        ensures count { (s : State) → Keeps self.now s → result ≡ count_inside s.procs s.lock }
        ensures few { result ≤ 64 }
    {
        place::count_inside(&self.phases)
    }

    /// How many processes are dead in.
    fn count_dead_in(&self) -> usize
        ensures count { (s : State) → Keeps self.now s → result ≡ count_dead_in s.procs s.lock }
        ensures few { result ≤ 64 }
    {
        place::count_dead_in(&self.phases)
    }
}

impl Judge {
    /// The fault of an Enter, if any.
    fn enter_fault(&self, p: u64) -> Option<Fault>
        requires { p < self.now.procs }
        ensures { (s : State) → Keeps self.now s → result ≡ fault_of (lock_needs s (Deed.Outer (Outer.Enter p))) }
    {
        let of = self.least_ahead(p);
        let inside = self.count_inside() as u64;
        let holding = inside + self.count_dead_in() as u64;
        first_fault(&[
            (place::is_ready(self.phase(p)), Fault::OutOfPlace),
            (inside < self.most_inside, Fault::TwoInside),
            (holding < self.most_inside, Fault::NotReentered),
            (of == self.procs, Fault::Overtaken { by: p, of }),
        ])
    }

    /// The fault of a deed of the lock, if any.
    fn lock_fault(&self, p: u64, deed: Outer) -> Option<Fault>
        requires below { p < self.now.procs }
        requires own { p ≡ lock_doer deed }
        ensures { (s : State) → Keeps self.now s
            → result ≡ fault_of (lock_needs s (Deed.Outer deed) ++ mail_needs s (Deed.Outer deed)) }
    {
        let phase = self.phase(p);
        match deed {
            Outer::Begin(_) => fault_unless(place::is_out(phase), Fault::OutOfPlace),
            Outer::Ready(_) => fault_unless(place::is_door(phase), Fault::OutOfPlace),
            Outer::Enter(_) => self.enter_fault(p),
            Outer::Crash(_) => None,
            Outer::Reenter(_) => fault_unless(place::is_dead_in(phase), Fault::OutOfPlace),
            Outer::Leave(_) => first_fault(&[
                (place::is_inside(phase), Fault::OutOfPlace),
                (self.pending.is_none() || self.ruined, Fault::MailOrder),
            ]),
            Outer::Quit(_) => fault_unless(
                place::is_door(phase) || place::is_ready(phase),
                Fault::OutOfPlace,
            ),
        }
    }

    /// The fault of a Commit with this number, if any.
    fn commit_fault(&self, p: u64, seq: u64) -> Option<Fault>
        requires { p < self.now.procs }
        ensures fault { (s : State) (v : List ℕ) → Keeps self.now s → result ≡ fault_of (mail_needs s (Deed.Commit p seq v)) }
        ensures room { IfNone result (self.now.shown < self.now.cap) }
    {
        first_fault(&[
            (place::is_inside(self.phase(p)), Fault::NotInside),
            (!self.ruined, Fault::MailOrder),
            (self.pending.is_none(), Fault::MailOrder),
            (self.has_room(), Fault::MailOrder),
            (self.is_next(p, seq), Fault::MailOrder),
            (!self.closed, Fault::AfterClose),
        ])
    }

    /// The fault of a deed, if any.
    fn fault(&self, deed: &Deed) -> Option<Fault>
        ensures fault { (s : State) → Keeps self.now s → result ≡ fault_of (needs s deed.now) }
        ensures room { IfNone result (HasRoom self.now deed.now) }
    {
        let p = doer(deed);
        if p >= self.procs {
            return Some(Fault::OutOfPlace);
        }
        let inside = place::is_inside(self.phase(p));
        match *deed {
            Deed::Outer(outer) => self.lock_fault(p, outer),
            Deed::Commit { p, seq, .. } => self.commit_fault(p, seq),
            Deed::Show { at, seq, v, .. } => first_fault(&[
                (inside, Fault::NotInside),
                (is_pending(self.pending, p, seq, v), Fault::MailOrder),
                (at == self.shown, Fault::MailOrder),
            ]),
            Deed::Close { .. } => first_fault(&[
                (inside, Fault::NotInside),
                (self.pending.is_none(), Fault::MailOrder),
                (!self.closed, Fault::AfterClose),
            ]),
            Deed::Ruin { .. } => {
                first_fault(&[(inside, Fault::NotInside), (!self.ruined, Fault::MailOrder)])
            }
        }
    }

    /// Sets the phase of p.
    fn move_to(&mut self, p: u64, phase: Phase)
        requires { p < self.old.procs }
        ensures { (s : State) → Keeps self.old s
            → Keeps self.new (record s { lock = record s.lock { phase = put s.lock.phase p phase } }) }
    {
        self.phases[p as usize] = phase;
    }

    /// p begins its doorway. All processes that are ready now are ahead of it.
    fn begin(&mut self, p: u64)
        requires { p < self.old.procs }
        ensures { (s : State) → Keeps self.old s → Keeps self.new (after s (Deed.Outer (Outer.Begin p))) }
    {
        self.ahead[p as usize] = rows::ready_row(&self.phases);
        self.phases[p as usize] = Phase::Door;
    }

    /// Sets the phase of p, and takes p out of all ahead sets.
    fn pass(&mut self, p: u64, phase: Phase)
        requires { p < self.old.procs }
        ensures { (s : State) → Keeps self.old s → Keeps self.new
            (record s { lock = record { phase = put s.lock.phase p phase; ahead = λ q. put (s.lock.ahead q) p false } }) }
    {
        rows::clear_column(&mut self.ahead, p);
        self.phases[p as usize] = phase;
    }

    /// Counts one more message of p as shown. No message is pending after it.
    fn show(&mut self, p: u64)
        requires below { p < self.old.procs }
        requires pending { is_some self.old.pending ≡ true }
        ensures { (s : State) (at seq : ℕ) (v : List ℕ) → Keeps self.old s → Keeps self.new (after s (Deed.Show p at seq v)) }
    {
        self.counts[p as usize] += 1;
        self.shown += 1;
        self.pending = None;
    }

    /// Applies a deed of the lock.
    fn take_outer(&mut self, deed: Outer)
        requires { lock_doer deed < self.old.procs }
        ensures { (s : State) → Keeps self.old s → Keeps self.new (after s (Deed.Outer deed)) }
    {
        match deed {
            Outer::Begin(p) => self.begin(p),
            Outer::Ready(p) => self.move_to(p, Phase::Ready),
            Outer::Enter(p) => self.pass(p, Phase::Inside),
            Outer::Crash(p) => {
                let phase = self.phase(p);
                self.move_to(p, place::phase_after_crash(phase));
            }
            Outer::Reenter(p) => self.move_to(p, Phase::Inside),
            Outer::Leave(p) => self.move_to(p, Phase::Out),
            Outer::Quit(p) => self.pass(p, Phase::Out),
        }
    }

    /// Applies a deed.
    fn take(&mut self, deed: &Deed)
        requires { HasRoom self.old deed.now }
        ensures { (s : State) → Keeps self.old s → Keeps self.new (after s deed.now) }
    {
        match *deed {
            Deed::Outer(outer) => self.take_outer(outer),
            Deed::Commit { p, seq, v } => {
                self.pending = Some(Message {
                    sender: p,
                    seq,
                    value: v,
                });
            }
            Deed::Show { p, .. } => self.show(p),
            Deed::Close { .. } => self.closed = true,
            Deed::Ruin { .. } => self.ruined = true,
        }
    }

    /// Judges the next deed of the history and applies it. The fault is that of the deed's first need that fails. After a
    /// fault the judge is unchanged, and may be fed another deed. It does not allocate. It looks through the processes at
    /// most four times.
    pub fn feed(&mut self, deed: Deed) -> Result<(), Fault>
        ensures judged { (s : State) → Keeps self.old s → MatchResult result
            (λ _. (state_after_deed s deed ≡ Ok (after s deed))
            × Keeps self.new (after s deed)) (λ fault. state_after_deed s deed ≡ Err fault) }
        ensures fed { (start : State) (history : List Deed) → StandsAfter start history self.old
            → MatchResult result (λ _. StandsAfter start (history ++ deed ∷ []) self.new)
            (λ fault. judged_all start (history ++ deed ∷ []) ≡ Err fault) }
        ensures same { OnErr result (self.new ≡ self.old) }
    {
        self.feed_from(&deed)
    }

    /// As `feed`, for a borrowed deed: the replay judges a deed where its history holds it.
    // Inline: one call a deed.
    #[inline(always)]
    pub fn feed_from(&mut self, deed: &Deed) -> Result<(), Fault>
        ensures judged { (s : State) → Keeps self.old s → MatchResult result
            (λ _. (state_after_deed s deed.now ≡ Ok (after s deed.now)) × Keeps self.new (after s deed.now))
            (λ fault. state_after_deed s deed.now ≡ Err fault) }
        ensures fed { (start : State) (history : List Deed) → StandsAfter start history self.old
            → MatchResult result (λ _. StandsAfter start (history ++ deed.now ∷ []) self.new)
            (λ fault. judged_all start (history ++ deed.now ∷ []) ≡ Err fault) }
        ensures same { OnErr result (self.new ≡ self.old) }
    {
        if let Some(fault) = self.fault(deed) {
            return Err(fault);
        }
        self.take(deed);
        Ok(())
    }
}

impl Judge {
    ghost use Rattle.judge.specs.Kept.{IsSound, row_word, kept_with};

    /// The number of processes.
    pub fn procs(&self) -> u64
        ensures { result ≡ self.now.procs }
    {
        self.procs
    }

    /// For this workspace alone, to encode a judge's state: the phase of each process.
    pub fn seam_phases(&self) -> &[Phase]
        ensures { result.now ≡ self.now.phases }
    {
        self.phases.as_slice()
    }

    /// For this workspace alone, as `seam_phases`: the number of messages shown, for each sender.
    pub fn seam_counts(&self) -> &[u64]
        ensures { result.now ≡ self.now.counts }
    {
        self.counts.as_slice()
    }

    /// For this workspace alone, as `seam_phases`: the set ahead of p, as a row of bits. Judges with the same state have the
    /// same row. None: there is no process p.
    pub fn seam_ahead(&self, p: u64) -> Option<u64>
        ensures some { IsSome result ↔ (p < self.now.procs) }
        ensures row { (s : State) → Keeps self.now s → IfSome result (λ row. row ≡ row_word s.procs (s.lock.ahead p)) }
    {
        if p >= self.procs {
            return None;
        }
        Some(rows::only_first(self.ahead[p as usize], self.procs))
    }

    /// For this workspace alone, as `seam_phases`: the state of the mailbox.
    pub fn seam_mail(&self) -> MailPart
        ensures { result ≡ record {
          shown = self.now.shown;
          pending = self.now.pending;
          closed = self.now.closed;
          ruined = self.now.ruined;
        } }
    {
        MailPart {
            shown: self.shown,
            pending: self.pending,
            closed: self.closed,
            ruined: self.ruined,
        }
    }

    /// Whether this is a state within the sizes of this judge.
    fn may_keep(&self, phases: &[Phase], ahead: &[u64], counts: &[u64], mail: &MailPart) -> bool
        ensures { IsTrue result ↔ IsSound (kept_with self.now phases.now ahead.now counts.now mail.now) }
    {
        let n = self.procs as usize;
        phases.len() == n
            && ahead.len() == n
            && counts.len() == n
            && mail.shown <= self.cap
            && (mail.pending.is_none() || mail.shown < self.cap)
            && shape::all_within(counts, mail.shown)
    }

    /// For this workspace alone, the inverse of `seam_phases` and the others: sets the judge's state, without allocating.
    /// False: the state is outside the judge's sizes, and nothing changed. It accepts a state that no deeds lead to.
    pub fn seam_set(
        &mut self,
        phases: &[Phase],
        ahead: &[u64],
        counts: &[u64],
        mail: &MailPart,
    ) -> bool
        ensures set { IsTrue result → self.new ≡ kept_with self.old phases.now ahead.now counts.now mail.now }
        ensures same { result ≡ false → self.new ≡ self.old }
        ensures sound { IsTrue result ↔ IsSound (kept_with self.old phases.now ahead.now counts.now mail.now) }
    {
        if !self.may_keep(phases, ahead, counts, mail) {
            return false;
        }
        self.phases.copy_from_slice(phases);
        self.ahead.copy_from_slice(ahead);
        self.counts.copy_from_slice(counts);
        self.shown = mail.shown;
        self.pending = mail.pending;
        self.closed = mail.closed;
        self.ruined = mail.ruined;
        true
    }
}
