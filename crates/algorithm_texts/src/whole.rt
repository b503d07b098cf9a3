//! A whole text.

ghost use Rattle.std.specs.Prelude.{◌≡◌, ◌⊎◌, ◌<◌, ℕ, if◌then◌else◌, List, None, Some, true, reverse, length, map, IfOk, IfErr, OnOk, OnErr, MatchOption, is_some};
ghost use Rattle.std.specs.List.{All, list_any};
ghost use Rattle.algorithms.specs.declared.algorithm.AlgorithmCall.TheVariants.{Withdraw};
ghost use Rattle.algorithms.specs.Deeds.{SaysDeed};
ghost use Rattle.algorithms.specs.Faults.{fault_of};
ghost use Rattle.algorithms.specs.declared.fault.ReadFault.TheVariants.{Endless, BadDeed};
ghost use Rattle.algorithms.specs.Ranked.{LocalLinesEnd, AccessesLeadOn};
ghost use Rattle.algorithms.specs.declared.line.AlgorithmDeed.TheVariants as deeds;
ghost use Rattle.algorithm_texts.specs.Drafts.{Drafted, PlacedLine, draft_view, line_of, start_term};
ghost use Rattle.algorithm_texts.specs.FinishedDrafts.{begins_of, call_in, finished_draft, first_of, is_in, kind_led, with_entries, with_lines};
ghost use Rattle.algorithm_texts.specs.Lawful.{CallsFit, KindFits};
ghost use Rattle.algorithm_texts.specs.Marks.{KeepsMarks};
ghost use Rattle.algorithm_texts.specs.Programs.{SpellsAlgorithm, SpellsDraft};
ghost use Rattle.algorithm_texts.specs.Runs.{AllRuns, KindComesTo, KindRuns};
ghost use Rattle.algorithm_texts.specs.UnreachedLines.{EndUnreached, MarksRuns, starts_in};
ghost use Rattle.algorithm_texts.specs.Usage.{may_withdraw};
ghost use Rattle.algorithm_texts.specs.TextFaults.{FailsFirst, IsFaultOfAllRuns, IsFaultOfAllCalls, IsFaultOfEither, IsFaultOfEmptyCall, IsFaultOfKindCall, IsFaultOfKindRuns, IsFaultOfNoCall, IsFaultOfText, IsFaultOfWays, IsFaultOfWithdraw, OrMemory, StaysAt, number_at, number_of_kind};
ghost use Rattle.algorithm_texts.specs.TextLines.{IsRefusalOf};
ghost use Rattle.algorithm_texts.specs.TextDrafts.{is_call};

use crate::claim_labels::claimed_places;
use crate::drafts::forms;
use crate::flow::mark_all;
use crate::lines::{CallRead, Draft};
use crate::marks::{end_unmarked, runs_stay};
use crate::usage::may_withdraw;
use algorithms::algorithm::{AlgorithmCall, Entries};
use algorithms::deeds::says_deed;
use algorithms::expression::Expression;
use algorithms::fault::{AlgorithmFault, ReadFault};
use algorithms::first_values::{FirstValues, InitializedAlgorithm};
use algorithms::line::{AlgorithmDeed, AlgorithmLine};
use std::alloc::Global;

/// The first call of this kind.
fn first_call(calls: &[CallRead], call: AlgorithmCall) -> Option<CallRead>
    ensures { result ≡ call_in call (reverse calls.now) }
{
    let mut first = None;
    for read in calls {
        first = first_of(first, *read, call);
    }
    first
}

/// A call that was found, else this one where it is of the kind.
fn first_of(first: Option<CallRead>, read: CallRead, call: AlgorithmCall) -> Option<CallRead>
    ensures { result ≡ first_of first (if is_call call read then Some read else None) }
{
    match first {
        Some(first) => Some(first),
        None => { if read.call == call { Some(read) } else { None } }
    }
}

/// A call of the draft.
fn call_of(draft: &Draft, call: AlgorithmCall) -> Option<CallRead>
    ensures { result ≡ call_in call (draft_view draft.now).calls }
{
    first_call(draft.calls.as_slice(), call)
}

/// `FallsOff` where a call has no lines.
fn check_filled(draft: &Draft) -> Result<(), AlgorithmFault>
    ensures ok { OnOk result (All (λ call. call.«from» < call.to) (draft_view draft.now).calls) }
    ensures err { OnErr result (All (λ call. call.«from» < call.to) (draft_view draft.now).calls → ⊥) }
    ensures first { IfErr result (λ fault. IsFaultOfEmptyCall (draft_view draft.now) fault) }
{
    for call in &draft.calls {
        if call.from >= call.to {
            return Err(ReadFault::FallsOff.at(call.number));
        }
    }
    Ok(())
}

/// Where a call begins.
fn beginning(draft: &Draft, call: AlgorithmCall) -> Option<usize>
    ensures { result ≡ begins_of (call_in call (draft_view draft.now).calls) }
{
    match call_of(draft, call) {
        Some(call) => Some(call.from),
        None => None,
    }
}

/// Sets where each call begins. `BadCall` where there is no lock or no unlock.
fn set_entries(draft: &mut Draft) -> Result<(), AlgorithmFault>
    ensures ok { OnOk result (with_entries (draft_view draft.old) ≡ Some (draft_view draft.new)) }
    ensures err { OnErr result (with_entries (draft_view draft.old) ≡ None) }
    ensures named { IfErr result (λ fault. IsFaultOfNoCall (draft_view draft.old) fault) }
{
    let fault = ReadFault::BadCall.at(draft.number);
    let Some(lock) = call_of(draft, AlgorithmCall::Lock) else {
        return Err(fault);
    };
    let Some(unlock) = call_of(draft, AlgorithmCall::Unlock) else {
        return Err(fault);
    };
    let recover = beginning(draft, AlgorithmCall::Recover);
    let withdraw = beginning(draft, AlgorithmCall::Withdraw);
    draft.algorithm.entries = Entries {
        lock: lock.from,
        unlock: unlock.from,
        recover,
        withdraw,
    };
    Ok(())
}

/// Checks the labels, the names, the deeds and the withdraws of a call, if it is there.
fn check_call(draft: &mut Draft, call: AlgorithmCall) -> Result<(), AlgorithmFault>
    ensures led { OnOk result (kind_led call (draft_view draft.old) ≡ Some (draft_view draft.new)) }
    ensures fits { OnOk result (KindFits (draft_view draft.new) call) }
    ensures err { OnErr result ((d : Drafted) → kind_led call (draft_view draft.old) ≡ Some d → KindFits d call → ⊥) }
    ensures first { IfErr result (λ fault. IsFaultOfKindCall (draft_view draft.old) fault call) }
{
    match call_of(draft, call) {
        Some(read) => draft.check_call(read),
        None => Ok(()),
    }
}

/// The number of the first line that may withdraw.
fn first_withdraw(lines: &[AlgorithmLine]) -> Option<u64>
    ensures any { is_some result ≡ list_any (λ line. may_withdraw line.form) (map line_of lines.now) }
    ensures first { MatchOption result ((at : ℕ) → StaysAt (map line_of lines.now) at) (λ number. (at : ℕ)
        × FailsFirst (StaysAt (map line_of lines.now)) at × (number ≡ number_at (map line_of lines.now) at)) }
{
    for line in lines {
        if may_withdraw(&line.form) {
            return Some(line.number);
        }
    }
    None
}

/// `BadCall` where a line may withdraw and there is no call withdraw, or the call is there and no line may.
fn check_withdraw(draft: &Draft) -> Result<(), AlgorithmFault>
    ensures ok { OnOk result (is_some (call_in Withdraw (draft_view draft.now).calls)
        ≡ list_any (λ line. may_withdraw line.form) (draft_view draft.now).lines) }
    ensures err { OnErr result (is_some (call_in Withdraw (draft_view draft.now).calls)
        ≡ list_any (λ line. may_withdraw line.form) (draft_view draft.now).lines → ⊥) }
    ensures first { IfErr result (λ fault. IsFaultOfWithdraw (draft_view draft.now) fault) }
{
    match (
        first_withdraw(draft.algorithm.lines.as_slice()),
        call_of(draft, AlgorithmCall::Withdraw),
    ) {
        (Some(number), None) => Err(ReadFault::BadCall.at(number)),
        (None, Some(call)) => Err(ReadFault::BadCall.at(call.number)),
        (Some(_), Some(_)) | (None, None) => Ok(()),
    }
}

/// Checks the labels, the names, the deeds and the withdraws of all calls.
fn check_calls(draft: &mut Draft) -> Result<(), AlgorithmFault>
    ensures finished { OnOk result (finished_draft (draft_view draft.old) ≡ Some (draft_view draft.new)) }
    ensures fit { OnOk result (CallsFit (draft_view draft.new)) }
    ensures err { OnErr result ((d : Drafted) → finished_draft (draft_view draft.old) ≡ Some d → CallsFit d → ⊥) }
    ensures first { IfErr result (λ fault. IsFaultOfAllCalls (draft_view draft.old) fault) }
{
    check_filled(draft)?;
    set_entries(draft)?;
    check_call(draft, AlgorithmCall::Lock)?;
    check_call(draft, AlgorithmCall::Unlock)?;
    check_call(draft, AlgorithmCall::Recover)?;
    check_call(draft, AlgorithmCall::Withdraw)?;
    check_withdraw(draft)
}

/// The draft of a text whose calls fit.
fn fitting_draft(alloc: Global, text: &[u8]) -> Result<Draft, AlgorithmFault>
    ensures ok { IfOk result (λ draft. SpellsDraft text.now (draft_view draft)) }
    ensures err { IfErr result (λ fault. IsRefusalOf fault ((draft : Drafted) × SpellsDraft text.now draft)) }
    ensures first { IfErr result (λ fault. OrMemory fault (IsFaultOfText text.now fault)) }
{
    let mut draft = forms(alloc, text)?;
    check_calls(&mut draft)?;
    Ok(draft)
}

/// Marks the places to which the runs of a call come, if it is there, and checks what they may do.
fn check_run(
    alloc: Global,
    draft: &Draft,
    call: AlgorithmCall,
    marks: &mut [bool],
) -> Result<(), AlgorithmFault>
    requires { length marks.old ≡ length (draft_view draft.now).lines }
    ensures runs { OnOk result (KindRuns (draft_view draft.now) call) }
    ensures size { length marks.new ≡ length marks.old }
    ensures kept { OnOk result (KeepsMarks marks.old marks.new) }
    ensures marked { OnOk result ((at : ℕ) → KindComesTo (draft_view draft.now) call at → is_in marks.new at ≡ true) }
    ensures comes { OnOk result ((at : ℕ) → is_in marks.new at ≡ true
        → (is_in marks.old at ≡ true) ⊎ KindComesTo (draft_view draft.now) call at) }
    ensures err { IfErr result (λ fault. IsRefusalOf fault (KindRuns (draft_view draft.now) call)) }
    ensures first { IfErr result (λ fault. OrMemory fault (IsFaultOfKindRuns (draft_view draft.now) fault call)) }
{
    match call_of(draft, call) {
        Some(read) => {
            let reached = draft.check_runs(alloc, read)?;
            mark_all(marks, read, reached.as_slice());
            Ok(())
        }
        None => Ok(()),
    }
}

/// Marks the places to which the runs of all calls come, and checks what they may do.
fn check_kinds(alloc: Global, draft: &Draft, marks: &mut [bool]) -> Result<(), AlgorithmFault>
    requires long { length marks.old ≡ length (draft_view draft.now).lines }
    requires none { (at : ℕ) → is_in marks.old at ≡ true → ⊥ }
    ensures runs { OnOk result (AllRuns (draft_view draft.now)) }
    ensures size { length marks.new ≡ length marks.old }
    ensures marks { OnOk result (MarksRuns (draft_view draft.now) marks.new) }
    ensures err { IfErr result (λ fault. IsRefusalOf fault (AllRuns (draft_view draft.now))) }
    ensures first { IfErr result (λ fault. OrMemory fault (IsFaultOfAllRuns (draft_view draft.now) fault)) }
{
    check_run(alloc, draft, AlgorithmCall::Lock, marks)?;
    check_run(alloc, draft, AlgorithmCall::Unlock, marks)?;
    check_run(alloc, draft, AlgorithmCall::Recover, marks)?;
    check_run(alloc, draft, AlgorithmCall::Withdraw, marks)
}

/// The places to which the runs of all calls come, where they do what they may.
fn check_all(alloc: Global, draft: &Draft) -> Result<Vec<bool>, AlgorithmFault>
    ensures runs { OnOk result (AllRuns (draft_view draft.now)) }
    ensures marks { IfOk result (λ marks. MarksRuns (draft_view draft.now) marks.items) }
    ensures err { IfErr result (λ fault. IsRefusalOf fault (AllRuns (draft_view draft.now))) }
    ensures first { IfErr result (λ fault. OrMemory fault (IsFaultOfAllRuns (draft_view draft.now) fault)) }
{
    let mut marks = vec![in alloc; false; draft.algorithm.lines.len()]?;
    check_kinds(alloc, draft, marks.as_mut_slice())?;
    Ok(marks)
}

/// Lets lines to which no run comes end their calls. That the places that are marked lead to no other, and that all others are of
/// ways without text of their own, is looked at again: it is always so.
fn end_ways(draft: &mut Draft, marks: &[bool]) -> Result<(), AlgorithmFault>
    requires { MarksRuns (draft_view draft.old) marks.now }
    ensures lines { OnOk result (EndUnreached (draft_view draft.old) (draft_view draft.new).lines) }
    ensures kept { OnOk result (draft_view draft.new ≡ with_lines (draft_view draft.new).lines (draft_view draft.old)) }
    ensures err { OnErr result ((lines : List PlacedLine) → EndUnreached (draft_view draft.old) lines → ⊥) }
    ensures named { IfErr result (λ fault. fault ≡ fault_of (draft_view draft.old).number Endless) }
{
    if !runs_stay(&draft.algorithm, marks) {
        return Err(ReadFault::Endless.at(draft.number));
    }
    end_unmarked(&mut draft.algorithm.lines, marks);
    Ok(())
}

/// Checks what the runs of all calls may do.
fn check_flow(alloc: Global, draft: &mut Draft) -> Result<(), AlgorithmFault>
    ensures runs { OnOk result (AllRuns (draft_view draft.old)) }
    ensures lines { OnOk result (EndUnreached (draft_view draft.old) (draft_view draft.new).lines) }
    ensures kept { OnOk result (draft_view draft.new ≡ with_lines (draft_view draft.new).lines (draft_view draft.old)) }
    ensures ends { OnOk result (LocalLinesEnd draft.new.algorithm) }
    ensures leads { OnOk result (AccessesLeadOn draft.new.algorithm) }
    ensures err { IfErr result (λ fault. IsRefusalOf fault (AllRuns (draft_view draft.old)
        × ((lines : List PlacedLine) × EndUnreached (draft_view draft.old) lines))) }
    ensures first { IfErr result (λ fault. OrMemory fault (IsFaultOfAllRuns (draft_view draft.old) fault
        ⊎ (AllRuns (draft_view draft.old) × IsFaultOfWays (draft_view draft.old) fault))) }
{
    let marks = check_all(alloc, draft)?;
    end_ways(draft, marks.as_slice())
}

/// The number of the line that begins a call, or of the last line where there is none.
fn number_of_kind(draft: &Draft, call: AlgorithmCall) -> u64
    ensures { result ≡ number_of_kind (draft_view draft.now) call }
{
    match call_of(draft, call) {
        Some(call) => call.number,
        None => draft.number,
    }
}

/// Checks that a line of the call that begins at this place says a deed.
fn check_said(
    draft: &Draft,
    call: AlgorithmCall,
    entry: usize,
    deed: AlgorithmDeed,
) -> Result<(), AlgorithmFault>
    ensures ok { OnOk result (SaysDeed draft.now.algorithm entry deed) }
    ensures err { OnErr result (SaysDeed draft.now.algorithm entry deed → ⊥) }
    ensures named { IfErr result (λ fault. fault ≡ fault_of (number_of_kind (draft_view draft.now) call) BadDeed) }
{
    if says_deed(&draft.algorithm, entry, deed) {
        return Ok(());
    }
    Err(ReadFault::BadDeed.at(number_of_kind(draft, call)))
}

/// Checks that the lock says that it enters, and the unlock that it leaves.
fn check_deeds(draft: &Draft) -> Result<(), AlgorithmFault>
    ensures enters { OnOk result (SaysDeed draft.now.algorithm draft.now.algorithm.entries.lock deeds.Enter) }
    ensures leaves { OnOk result (SaysDeed draft.now.algorithm draft.now.algorithm.entries.unlock deeds.Leave) }
    ensures err { OnErr result (SaysDeed draft.now.algorithm draft.now.algorithm.entries.lock deeds.Enter
        → SaysDeed draft.now.algorithm draft.now.algorithm.entries.unlock deeds.Leave → ⊥) }
    ensures first { IfErr result (λ fault. IsFaultOfEither (draft_view draft.now)
        (SaysDeed draft.now.algorithm draft.now.algorithm.entries.lock deeds.Enter)
        (SaysDeed draft.now.algorithm draft.now.algorithm.entries.unlock deeds.Leave) fault) }
{
    let entries = draft.algorithm.entries;
    check_said(
        draft,
        AlgorithmCall::Lock,
        entries.lock,
        AlgorithmDeed::Enter,
    )?;
    check_said(
        draft,
        AlgorithmCall::Unlock,
        entries.unlock,
        AlgorithmDeed::Leave,
    )
}

/// The first values of an algorithm, where a first value or a constant is said.
fn first_values(starts: Vec<Option<Expression>>, says_values: bool) -> Option<FirstValues>
    ensures { starts_in result ≡ (if says_values then Some (map start_term starts.items) else None) }
{
    if says_values {
        Some(FirstValues { starts })
    } else {
        None
    }
}

/// Reads an algorithm from a text, with the first values of its words.
///
/// Faults are looked for in four rounds, and the first that is found is named: those of the characters and tokens of all lines;
/// those of forms, declared names, blocks and calls; call by call those of labels, names and deeds, and then the labels that claims
/// name; and call by call those of what runs may do, and at last that the lock says `enter` and the unlock `leave`. Calls are taken
/// in the order lock, unlock, recover, withdraw, whatever their order in the text, and in each call labels before names and deeds.
pub fn read_algorithm(alloc: Global, text: &[u8]) -> Result<InitializedAlgorithm, AlgorithmFault>
    ensures spells { IfOk result (λ a. SpellsAlgorithm text.now a) }
    ensures ends { IfOk result (λ a. LocalLinesEnd a.algorithm) }
    ensures leads { IfOk result (λ a. AccessesLeadOn a.algorithm) }
    ensures enters { IfOk result (λ a. SaysDeed a.algorithm a.algorithm.entries.lock deeds.Enter) }
    ensures leaves { IfOk result (λ a. SaysDeed a.algorithm a.algorithm.entries.unlock deeds.Leave) }
    ensures refuses { IfErr result (λ fault. IsRefusalOf fault ((a : InitializedAlgorithm) × SpellsAlgorithm text.now a)) }
    ensures first { IfErr result (λ fault. OrMemory fault (IsFaultOfText text.now fault)) }
{
    let mut draft = fitting_draft(alloc, text)?;
    let label_places = claimed_places(alloc, &draft)?;
    check_flow(alloc, &mut draft)?;
    check_deeds(&draft)?;
    let Draft {
        mut algorithm,
        starts,
        says_values,
        ..
    } = draft;
    let first_values = first_values(starts, says_values);
    algorithm.label_places = label_places;
    Ok(InitializedAlgorithm {
        algorithm,
        first_values,
    })
}
