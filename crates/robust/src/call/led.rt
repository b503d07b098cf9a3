//! What the fast path of a lock has led to, for its caller and for the machine of the process.
ghost use Rattle.std.specs.Prelude.{◌≡◌, true, false};
ghost use Rattle.rmeworld.specs.MachineState.{process_state_of as standing_at};
ghost use Rattle.rmeworld.specs.declared.script_state.ScriptState.TheVariants as ScriptState;
ghost use Rattle.robust.specs.FastPath.{checked_process_state};
ghost use Rattle.robust.specs.FastCalls.{reports_by};

use rmecore::Stage;
use rmeworld::{Answer, Process};

/// What the fast path of a lock has led to, for its caller: a blocked reading, an entry with nothing to mend, or neither.
/// After `Further` the machine takes the other steps.
#[derive(Clone, Copy)]
pub enum Led {
    Blocked,
    Entered,
    Further,
}

/// What the fast path answers: none, where the machine goes on; an inner none, where it was blocked; or the answer of the
/// lock.
pub fn led_answer(led: Led) -> Option<Option<Answer>>
    ensures { result ≡ reports_by led }
{
    match led {
        Led::Blocked => Some(None),
        Led::Entered => Some(Some(Answer::Clean)),
        Led::Further => None,
    }
}

/// Puts the machine of a process that found the lock ruined on its way out.
pub fn bar(process: &mut Process)
    requires free { process.old.script_state ≡ ScriptState.Free }
    requires barred { process.old.barred ≡ false }
    ensures at { standing_at process.new ≡ checked_process_state true }
    ensures same { (process.new.layout ≡ process.old.layout) × (process.new.limit ≡ process.old.limit)
        × (process.new.index ≡ process.old.index) }
{
    let next = process.layout().procs;
    process.seam_machine_state(Stage::Wait {
        number: 1,
        next,
        looked: false,
    });
    process.feed(1);
    process.feed(1);
}
