//! The labels, the names, the deeds and the withdraws of a call that was read.

ghost use Rattle.std.specs.Prelude.{◌≡◌, ◌&&◌, ◌||◌, ◌≤◌, ◌↔◌, true, false, not, map, slice_get, bytes_eq, position, Some, None, IfErr, OnOk, OnErr, IsTrue, is_some};
ghost use Rattle.std.specs.List.{find};
ghost use Rattle.algorithms.specs.Faults.{fault_of};
ghost use Rattle.algorithms.specs.declared.fault.ReadFault.{ReadFault};
ghost use Rattle.algorithms.specs.declared.fault.ReadFault.TheVariants.{UnknownName, NotAssignable, BadLabel};
ghost use Rattle.algorithm_texts.specs.declared.lines.Jump.{Jump};
ghost use Rattle.algorithm_texts.specs.Drafts.{Drafted, draft_view, form_of, form_with_place, line_of};
ghost use Rattle.algorithm_texts.specs.FinishedDrafts.{is_label_in, label_named, is_within, reachable_place, target_of, jump_led, jumps_led, call_led};
ghost use Rattle.algorithm_texts.specs.Lawful.{LabelsDiffer, HasLine, IsInLoop, IsKnown, ReadsKnown, SetsFree, LineFitsAt, AllLinesFit, LinesFit};
ghost use Rattle.algorithm_texts.specs.TextFaults.{IsFaultOfCall, IsFaultOfJump, IsFaultOfLabel, IsFaultOfLine, IsUnfit, leads_nowhere, number_at, unfit_kind};
ghost use Rattle.algorithm_texts.specs.Usage.{begins_loop, ends_loop, has_usage, deed_fits, fits, uses, passes_at};

use crate::lines::{CallRead, Draft, Jump, Label, lead_line};
use crate::usage::{Usage, has_usage};
use algorithms::algorithm::{AlgorithmCall, Promises};
use algorithms::fault::{AlgorithmFault, ReadFault};
use algorithms::line::{AlgorithmDeed, AlgorithmLine, LineKind, LocalLine};

/// Whether a deed fits what is promised.
fn deed_fits(deed: AlgorithmDeed, promises: Promises) -> bool
    ensures { result ≡ deed_fits promises deed }
{
    match deed {
        AlgorithmDeed::Enter | AlgorithmDeed::Leave => true,
        AlgorithmDeed::Begin | AlgorithmDeed::Ready | AlgorithmDeed::Quit => promises.order,
        AlgorithmDeed::Reenter => promises.order && promises.reentry,
    }
}

/// Whether a label stands in this call.
fn is_in(label: &Label, call: CallRead) -> bool
    ensures { result ≡ is_label_in call label.now }
{
    call.number < label.number && label.number <= call.last
}

/// The place of the label of a call that has this name.
fn place_named(labels: &[Label], call: CallRead, name: &[u8]) -> Option<usize>
    ensures { result ≡ position (λ label. bytes_eq label.name name.now && is_label_in call label) labels.now }
{
    labels
        .iter()
        .position(|label| label.name.is(name) && is_in(label, call))
}

/// Whether the label at a place is the first of a call that has this name.
fn is_first(labels: &[Label], call: CallRead, name: &[u8], at: usize) -> bool
    ensures { IsTrue result ↔ (position (λ label. bytes_eq label.name name.now && is_label_in call label) labels.now ≡ Some at) }
{
    match place_named(labels, call, name) {
        Some(first) => first == at,
        None => false,
    }
}

/// The label of a call that has this name.
fn label_named(labels: &[Label], call: CallRead, name: &[u8]) -> Option<Label>
    ensures { result ≡ label_named labels.now call name.now }
{
    labels.get(place_named(labels, call, name)?).copied()
}

/// Whether a place lies in a block: at its first place or after it, and before its end.
pub fn is_within(block: (usize, usize), at: usize) -> bool
    ensures { result ≡ is_within block at }
{
    block.0 <= at && at < block.1
}

/// The place of a label, where it can be reached from this place: it stands in no block that the place isn't in.
fn reachable_place(blocks: &[(usize, usize)], at: usize, label: Label) -> Option<usize>
    ensures { result ≡ reachable_place blocks.now at label.place label.block }
{
    match label.block {
        None => Some(label.place),
        Some(block) => match blocks.get(block) {
            Some(block) if is_within(*block, at) => Some(label.place),
            _ => None,
        },
    }
}

/// Where a goto leads.
fn target(labels: &[Label], blocks: &[(usize, usize)], call: CallRead, jump: Jump) -> Option<usize>
    ensures { result ≡ target_of labels.now blocks.now call jump }
{
    let label = label_named(labels, call, jump.name.as_bytes())?;
    reachable_place(blocks, jump.place, label)
}

/// The number of the line at a place.
pub fn number_at(lines: &[AlgorithmLine], place: usize) -> u64
    ensures { result ≡ number_at (map line_of lines.now) place }
{
    match lines.get(place) {
        Some(line) => line.number,
        None => 0,
    }
}

/// Lets a goto of a call lead to its label.
fn lead(
    lines: &mut Vec<AlgorithmLine>,
    labels: &[Label],
    blocks: &[(usize, usize)],
    call: CallRead,
    jump: Jump,
) -> Result<(), AlgorithmFault>
    ensures ok { OnOk result (jump_led labels.now blocks.now call (map line_of lines.old.items) jump
        ≡ Some (map line_of lines.new.items)) }
    ensures err { OnErr result (jump_led labels.now blocks.now call (map line_of lines.old.items) jump ≡ None) }
    ensures leads { OnOk result (is_some (target_of labels.now blocks.now call jump) ≡ true) }
    ensures named { IfErr result (λ fault. (target_of labels.now blocks.now call jump ≡ None)
        × (fault ≡ fault_of (number_at (map line_of lines.old.items) jump.place) BadLabel)) }
{
    let place = jump.place;
    match target(labels, blocks, call, jump) {
        Some(target) => {
            lead_line(lines, place, target);
            Ok(())
        }
        None => Err(ReadFault::BadLabel.at(number_at(lines.as_slice(), place))),
    }
}

/// Lets the gotos of a call lead to their labels.
fn resolve(
    lines: &mut Vec<AlgorithmLine>,
    labels: &[Label],
    blocks: &[(usize, usize)],
    call: CallRead,
    jumps: &[Jump],
) -> Result<(), AlgorithmFault>
    ensures ok { OnOk result (jumps_led labels.now blocks.now call jumps.now (map line_of lines.old.items)
        ≡ Some (map line_of lines.new.items)) }
    ensures err { OnErr result (jumps_led labels.now blocks.now call jumps.now (map line_of lines.old.items) ≡ None) }
    ensures named { IfErr result (λ fault. (jump : Jump) × (find (leads_nowhere labels.now blocks.now call) jumps.now ≡ Some jump)
        × (fault ≡ fault_of (number_at (map line_of lines.old.items) jump.place) BadLabel)) }
{
    for jump in jumps {
        if is_within((call.from, call.to), jump.place) {
            lead(lines, labels, blocks, call, *jump)?;
        }
    }
    Ok(())
}

/// The deed and the withdraw of one line.
fn check_deed(promises: Promises, call: AlgorithmCall, form: &LineKind) -> Result<(), ReadFault>
    ensures ok { OnOk result (fits promises call (form_of form.now) ≡ true) }
    ensures err { OnErr result (fits promises call (form_of form.now) ≡ false) }
    ensures named { IfErr result (λ fault. fault ≡ unfit_kind (form_of form.now)) }
{
    match form {
        LineKind::Local(LocalLine::Note(deed)) => {
            if deed_fits(*deed, promises) {
                Ok(())
            } else {
                Err(ReadFault::BadDeed)
            }
        }
        LineKind::Access(access) => {
            if access.may_withdraw && call != AlgorithmCall::Lock {
                Err(ReadFault::BadCall)
            } else {
                Ok(())
            }
        }
        _ => Ok(()),
    }
}

impl Draft {
    /// `NameTaken` at the first label whose name another one of the call has before it.
    fn check_labels(&self, call: CallRead) -> Result<(), AlgorithmFault>
        ensures ok { OnOk result (LabelsDiffer (draft_view self.now).labels call) }
        ensures err { OnErr result (LabelsDiffer (draft_view self.now).labels call → ⊥) }
        ensures first { IfErr result (λ fault. IsFaultOfLabel (draft_view self.now).labels call fault) }
    {
        for (at, label) in self.labels.iter().enumerate() {
            if is_in(label, call)
                && !is_first(self.labels.as_slice(), call, label.name.as_bytes(), at)
            {
                return Err(ReadFault::NameTaken.at(label.number));
            }
        }
        Ok(())
    }

    /// Whether the line at a place uses a name so.
    pub fn uses_at(&self, usage: Usage, name: usize, place: usize) -> bool
        ensures { result ≡ passes_at (has_usage usage name) (uses (draft_view self.now).lines) place }
    {
        match self.algorithm.lines.get(place) {
            Some(line) => has_usage(&line.form, usage, name),
            None => false,
        }
    }

    /// Whether a line of the call uses a name so.
    fn has_line(&self, call: CallRead, usage: Usage, name: usize) -> bool
        ensures { IsTrue result ↔ HasLine (uses (draft_view self.now).lines) call (has_usage usage name) }
    {
        for place in call.from..call.to {
            if self.uses_at(usage, name, place) {
                return true;
            }
        }
        false
    }

    /// Whether a loop with this name is open at a place, where `inside` says whether one is before it.
    fn is_open(&self, name: usize, place: usize, inside: bool) -> bool
        ensures { result ≡ (inside || passes_at (begins_loop name) (uses (draft_view self.now).lines) place) }
    {
        inside || self.uses_at(Usage::Begins, name, place)
    }

    /// Whether it is open after that place too.
    fn stays_open(&self, name: usize, place: usize, inside: bool) -> bool
        ensures { result ≡ ((inside || passes_at (begins_loop name) (uses (draft_view self.now).lines) place)
            && not (passes_at (ends_loop name) (uses (draft_view self.now).lines) place)) }
    {
        self.is_open(name, place, inside) && !self.uses_at(Usage::Ends, name, place)
    }

    /// Whether a place is in a loop with this name.
    fn is_in_loop(&self, call: CallRead, name: usize, place: usize) -> bool
        requires { call.«from» ≤ place }
        ensures { IsTrue result ↔ IsInLoop (uses (draft_view self.now).lines) call name place }
    {
        let mut inside = false;
        for at in call.from..place {
            inside = self.stays_open(name, at, inside);
        }
        self.is_open(name, place, inside)
    }

    /// Whether a place knows this name.
    fn is_known(&self, call: CallRead, name: usize, place: usize) -> bool
        requires { call.«from» ≤ place }
        ensures { IsTrue result ↔ IsKnown (uses (draft_view self.now).lines) call (draft_view self.now).lasting name place }
    {
        if self.has_line(call, Usage::Begins, name) {
            self.is_in_loop(call, name, place)
        } else {
            name < self.algorithm.lasting || self.has_line(call, Usage::Sets, name)
        }
    }

    /// `UnknownName` where a line reads a name that it does not know.
    fn check_read(&self, call: CallRead, place: usize) -> Result<(), ReadFault>
        requires { call.«from» ≤ place }
        ensures ok { OnOk result (ReadsKnown (draft_view self.now) call place) }
        ensures err { OnErr result (ReadsKnown (draft_view self.now) call place → ⊥) }
        ensures named { IfErr result (λ fault. fault ≡ UnknownName) }
    {
        for name in 0..self.algorithm.names.len() {
            if self.uses_at(Usage::Reads, name, place) && !self.is_known(call, name, place) {
                return Err(ReadFault::UnknownName);
            }
        }
        Ok(())
    }

    /// `NotAssignable` where a line sets a name of a loop.
    fn check_loops(&self, call: CallRead, place: usize) -> Result<(), ReadFault>
        ensures ok { OnOk result (SetsFree (draft_view self.now) call place) }
        ensures err { OnErr result (SetsFree (draft_view self.now) call place → ⊥) }
        ensures named { IfErr result (λ fault. fault ≡ NotAssignable) }
    {
        for name in 0..self.algorithm.names.len() {
            if self.uses_at(Usage::Sets, name, place) && self.has_line(call, Usage::Begins, name) {
                return Err(ReadFault::NotAssignable);
            }
        }
        Ok(())
    }

    /// The names, the deed and the withdraw of one line.
    fn check_form(&self, call: CallRead, place: usize, form: &LineKind) -> Result<(), ReadFault>
        requires beginning { call.«from» ≤ place }
        requires there { slice_get (uses (draft_view self.now).lines) place ≡ Some (form_with_place 0 (form_of form.now)) }
        ensures ok { OnOk result (LineFitsAt (draft_view self.now) call place) }
        ensures err { OnErr result (LineFitsAt (draft_view self.now) call place → ⊥) }
        ensures named { IfErr result (λ fault. IsUnfit (draft_view self.now) call place fault) }
    {
        self.check_read(call, place)?;
        self.check_loops(call, place)?;
        check_deed(self.algorithm.promises, call.call, form)
    }

    /// The names, the deed and the withdraw of the line at a place.
    fn check_line(&self, call: CallRead, place: usize) -> Result<(), AlgorithmFault>
        requires { call.«from» ≤ place }
        ensures ok { OnOk result (LineFitsAt (draft_view self.now) call place) }
        ensures err { OnErr result (LineFitsAt (draft_view self.now) call place → ⊥) }
        ensures named { IfErr result (λ fault. (kind : ReadFault) × IsUnfit (draft_view self.now) call place kind
            × (fault ≡ fault_of (number_at (draft_view self.now).lines place) kind)) }
    {
        match self.algorithm.lines.get(place) {
            Some(line) => match self.check_form(call, place, &line.form) {
                Ok(()) => Ok(()),
                Err(fault) => Err(fault.at(line.number)),
            },
            None => Ok(()),
        }
    }

    /// The names, the deeds and the withdraws of all lines of a call.
    fn check_lines(&self, call: CallRead) -> Result<(), AlgorithmFault>
        ensures ok { OnOk result (AllLinesFit (draft_view self.now) call) }
        ensures err { OnErr result (AllLinesFit (draft_view self.now) call → ⊥) }
        ensures first { IfErr result (λ fault. IsFaultOfLine (draft_view self.now) call fault) }
    {
        for place in call.from..call.to {
            self.check_line(call, place)?;
        }
        Ok(())
    }

    /// Lets the gotos of a call lead to their labels.
    fn lead_jumps(&mut self, call: CallRead) -> Result<(), AlgorithmFault>
        ensures ok { OnOk result (call_led (draft_view self.old) call ≡ Some (draft_view self.new)) }
        ensures err { OnErr result (call_led (draft_view self.old) call ≡ None) }
        ensures first { IfErr result (λ fault. IsFaultOfJump (draft_view self.old) call fault) }
    {
        resolve(
            &mut self.algorithm.lines,
            self.labels.as_slice(),
            self.blocks.as_slice(),
            call,
            self.jumps.as_slice(),
        )
    }

    /// The labels, the names, the deeds and the withdraws of a call.
    pub fn check_call(&mut self, call: CallRead) -> Result<(), AlgorithmFault>
        ensures led { OnOk result (call_led (draft_view self.old) call ≡ Some (draft_view self.new)) }
        ensures fits { OnOk result (LinesFit (draft_view self.new) call) }
        ensures err { OnErr result ((d : Drafted) → call_led (draft_view self.old) call ≡ Some d → LinesFit d call → ⊥) }
        ensures first { IfErr result (λ fault. IsFaultOfCall (draft_view self.old) call fault) }
    {
        self.check_labels(call)?;
        self.lead_jumps(call)?;
        self.check_lines(call)
    }
}
