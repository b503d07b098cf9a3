//! Which calls a process may start.

ghost use Rattle.std.specs.Prelude.{◌≡◌, Some};
ghost use Rattle.algorithm_lab.specs.Monitors.{phase_refusal, is_idle};
ghost use Rattle.algorithm_lab.specs.Runs.{call_of};

use crate::run_refusal::RunRefusal;
use algorithms::{AlgorithmCall, AlgorithmPlace};
use rmecore::Phase;
use rmeworld::Call;

/// The call of an algorithm that a line of a schedule starts, if it can have it.
pub(crate) fn call_of(call: Call) -> Option<AlgorithmCall>
    ensures { result ≡ call_of call }
{
    match call {
        Call::Lock => Some(AlgorithmCall::Lock),
        Call::Unlock => Some(AlgorithmCall::Unlock),
        Call::Recover => Some(AlgorithmCall::Recover),
        Call::Withdraw => Some(AlgorithmCall::Withdraw),
        Call::Consistent | Call::Append { .. } | Call::Close | Call::Get(_) | Call::Put(_, _) =>
            None,
    }
}

/// Why a process in this phase may not start the call.
pub(crate) fn phase_refusal(phase: Phase, call: AlgorithmCall) -> Option<RunRefusal>
    ensures why { result ≡ phase_refusal phase call }
    ensures memory { result ≡ Some RunRefusal.OutOfMemory → ⊥ }
{
    match (phase, call) {
        (Phase::Inside, AlgorithmCall::Lock | AlgorithmCall::Recover) => Some(
            RunRefusal::AlreadyIn,
        ),
        (Phase::Inside, AlgorithmCall::Unlock | AlgorithmCall::Withdraw) => None,
        (Phase::Out | Phase::Door | Phase::Ready | Phase::DeadIn, AlgorithmCall::Unlock) => Some(
            RunRefusal::NotOwner,
        ),
        (_, AlgorithmCall::Lock | AlgorithmCall::Recover | AlgorithmCall::Withdraw) => None,
    }
}

/// Whether a process at this place has no call.
pub(crate) fn is_idle(place: AlgorithmPlace) -> bool
    ensures { result ≡ is_idle place }
{
    match place {
        AlgorithmPlace::Rest | AlgorithmPlace::Dead => true,
        AlgorithmPlace::At(_) => false,
    }
}
