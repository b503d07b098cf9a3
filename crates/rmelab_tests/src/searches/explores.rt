//! Searches of all schedules up to a bound. The schedules and the counts are those of the plain search in bench/explore.

use crate::support::invocation::{all_come_to, output_of};
use crate::support::row::text_named;
use std::test::Fail;

/// `SHORTEST`: both read the numbers in the doorway and find none. Process 1 enters, and so does 0, which doesn't look whether 1
/// is choosing. `KEPT`: who locks can't let go of the lock. `NOT_BACK`: who crashed can't come back.
/// `UNMENDED`: who crashed inside can't mend. `SPENT`: process 0 waits until process 1 has looked for a number, of which none is
/// left, again and again.
pub const TEXTS: &str = "
@text SHORTEST
rme 1 procs 2 limit 1 cap 1
lock 0
step 0
step 0
step 0
step 0
step 0
lock 1
step 1
step 1
step 1
step 1
step 1
step 1
step 1
step 1
step 0
step 0
step 0
step 0
step 1
@text GONE_OUT
rme 1 procs 1 limit 1 cap 1
lock 0
step 0
step 0
step 0
step 0
step 0
step 0
step 0
crash 0
lock 0
step 0
step 0
step 0
step 0
step 0
step 0
@text ALL_OUT
rme 1 procs 2 limit 1 cap 1
lock 0
step 0
step 0
step 0
step 0
step 0
step 0
step 0
step 0
step 0
step 0
crash all
lock 0
step 0
step 0
step 0
step 0
step 0
step 0
@text KEPT
rme 1 procs 2 limit 1 cap 1
lock 0
@text NOT_BACK
rme 1 procs 2 limit 1 cap 1
crash 0
@text UNMENDED
rme 1 procs 2 limit 4 cap 1
lock 0
step 0
step 0
step 0
step 0
step 0
step 0
step 0
step 0
step 0
step 0
crash 0
@text SPENT
rme 1 procs 2 limit 1 cap 1
lock 0
step 0
step 0
step 0
step 0
step 0
step 0
step 0
lock 1
step 1
step 1
step 1
step 1
step 0
step 1
step 1
starves 0 cycle 8
@text UNWRITTEN
rmelab: write failed
@text TOO_MANY
rmelab: too many states
@text BAD_SIZE
rmelab: bad size
";

/// The counts are those of the plain program, whose search back goes over lists of the states before each.
/// Of the right lock without `unlock`, and without a call by which a crashed process comes back, a state is stuck. So is one
/// after a crash inside where `consistent` is none of the calls: each unlock then ruins the lock. Of a wrong
/// variant a schedule that goes wrong is written: under `no-ties` both have the number 1, and neither waits for the other.
pub const EXPLORES: &str = "
@row rmelab explore --variant no-look --procs 2 --limit 1 @out SHORTEST @ends 1
@row rmelab explore --variant no-look --procs 2 --limit 1 --moves 20 --calls unlock,lock @out SHORTEST @ends 1
@row rmelab explore --variant exit-on-crash --procs 1 --limit 1 --crashes 1 @out GONE_OUT @ends 1
@row rmelab explore --variant no-look --procs 2 --limit 1 --moves 19 @out
nothing found within 19 moves
@row rmelab explore --variant no-look --procs 2 --limit 1 --all-variables @out SHORTEST @ends 1
@row rmelab explore --variant right --procs 2 @out
nothing found: all 925 states
@row rmelab explore --variant right --procs 2 --crashes 1 --limit 1 --jobs 2 @out
nothing found: all 1541 states
@row rmelab explore --variant right --procs 2 --crashes 1 --limit 1 --all-variables @out
nothing found: all 2109 states
@row rmelab explore --variant right --procs 2 --crashes 1 --stuck @out
never stuck: all 7913 states
@row rmelab explore --variant right --procs 2 --crashes 1 --calls lock,unlock,recover,consistent --limit 1 --stuck @out
never stuck: all 3807 states
@row rmelab explore --variant right --procs 2 --crashes 1 --calls lock,unlock --stuck @out UNMENDED @ends 1
@row rmelab explore --variant right --procs 2 --crashes 1 --calls lock,consistent,unlock --limit 1 --stuck @out
never stuck: all 2145 states
@row rmelab explore --variant right --procs 3 --limit 1 --stuck @out
never stuck: all 9145 states
@row rmelab explore --variant renumber --procs 2 --crashes 1 --limit 2 --stuck @out
never stuck: all 4151 states
@row rmelab explore --variant right --procs 2 --calls lock --limit 1 --stuck @out KEPT @ends 1
@row rmelab explore --variant right --procs 2 --calls unlock --limit 1 --crashes 1 --stuck @out NOT_BACK @ends 1
@row rmelab explore --variant right --procs 2 --calls lock --limit 1 @out
nothing found: all 198 states
@row rmelab explore --variant no-look --procs 2 --limit 1 --stuck @out SHORTEST @ends 1
@row rmelab explore --variant no-ties --procs 2 --limit 1 --stuck @ends 1 @out
rme 1 procs 2 limit 1 cap 1
lock 0
step 0
step 0
step 0
step 0
step 0
lock 1
step 1
step 1
step 1
step 1
step 1
step 0
step 0
step 1
step 1
step 0
step 0
step 0
step 1
step 1
step 1
@row rmelab explore --variant exit-on-crash --procs 1 --limit 1 --crashes 1 --stuck @out GONE_OUT @ends 1
@row rmelab explore --variant exit-on-crash --procs 2 --limit 1 --system-crashes 1 @out ALL_OUT @ends 1
@row rmelab explore --variant exit-on-crash --procs 2 --limit 1 --system-crashes 1 --stuck @out ALL_OUT @ends 1
@row rmelab explore --variant right --procs 2 --limit 1 --crashes 1 --system-crashes 1 --jobs 2 @out
nothing found: all 6689 states
@row rmelab explore --variant right --procs 2 --limit 1 --crashes 1 --system-crashes 1 --all-variables @out
nothing found: all 9662 states
@row rmelab explore --variant right --procs 2 --limit 1 --system-crashes 1 --stuck @out
never stuck: all 3089 states
@row rmelab explore --variant right --procs 2 --starving @out
never starving: all 799 states
@row rmelab explore --variant right --procs 2 --calls lock,unlock,withdraw --limit 2 --starving @out
never starving: all 458 states
@row rmelab explore --variant right --procs 2 --limit 1 --starving any @out SPENT @ends 1
@row rmelab explore --variant right --procs 2 --limit 1 --stuck --starving @out
never stuck: all 259 states
never starving: all 211 states
@row rmelab explore --variant right --procs 2 --limit 1 --calls lock --starving --stuck --states 210 @ends 1 @out
rme 1 procs 2 limit 1 cap 1
lock 0
never starving: all 150 states
@row rmelab explore --variant right --procs 2 --limit 1 --states 210 --starving @ends 3 @err TOO_MANY
@row rmelab explore --variant right --procs 2 --limit 1 --states 258 --stuck --starving @ends 3 @err TOO_MANY
@row rmelab explore --variant right --procs 2 --moves 9 --starving @ends 2 @err BAD_SIZE
@row rmelab explore --variant right --procs 2 --starving some @ends 2 @err BAD_SIZE
@row rmelab explore --variant right --procs 65 --starving @ends 2 @err BAD_SIZE
@row rmelab explore --variant right --procs 2 --limit 1 --starving any @fails write @ends 3 @err UNWRITTEN
@row rmelab explore --variant right --procs 2 --crashes 1 --limit 1 --states 1540 @ends 3 @err TOO_MANY
@row rmelab explore --variant right --procs 2 --crashes 1 --limit 1 --states 2108 --all-variables @ends 3 @err TOO_MANY
@row rmelab explore --variant right --procs 2 --limit 1 --states 258 --stuck @ends 3 @err TOO_MANY
@row rmelab explore --variant right --procs 2 --moves 9 --stuck @ends 2 @err BAD_SIZE
@row rmelab explore --variant right --procs 65 @ends 2 @err BAD_SIZE
@row rmelab explore --variant right --procs 65 --stuck @ends 2 @err BAD_SIZE
@row rmelab explore --variant right --procs 1 --limit 0 @ends 2 @err BAD_SIZE
@row rmelab explore --variant right --procs 1 --width 9 @ends 2 @err BAD_SIZE
@row rmelab explore --variant right --procs 1 --calls lock,run @ends 2 @err BAD_SIZE
@row rmelab explore --variant wrong --procs 1 @ends 2 @err
rmelab: bad variant
@row rmelab explore --variant right @ends 2 @err
error: the following required arguments were not provided:
  --procs <N>

Usage: rmelab explore --procs <N> --variant <V>

For more information, try '--help'.
@row rmelab explore --variant exit-on-crash --procs 1 --limit 1 --crashes 1 @fails write @ends 3 @err UNWRITTEN
@row rmelab explore --variant exit-on-crash --procs 1 --limit 1 --crashes 1 @fails flush @out GONE_OUT @ends 3 @err UNWRITTEN
@row rmelab explore --variant right --procs 1 --limit 1 --moves 3 @fails write @ends 3 @err UNWRITTEN
@row rmelab explore --variant right --procs 2 --limit 1 @fails write @ends 3 @err UNWRITTEN
@row rmelab explore --variant right --procs 2 --limit 1 --states 258 @fails err @ends 3
";

const EXPLORES_STUCK_AT_LENGTH: &str = "
@row rmelab explore --variant right --procs 2 --crashes 3 --stuck @out
never stuck: all 46219 states
@row rmelab explore --variant right --procs 3 --crashes 1 --limit 1 --stuck @out
never stuck: all 93278 states
";

/// It takes longer than `rt try` allows.
#[test]
fn explores_stuck_at_length(rt: HostRuntime) -> Result<(), Fail> {
    all_come_to(&rt, rt.alloc(), &[], EXPLORES_STUCK_AT_LENGTH)
}

/// A schedule that is found replays to its fault, and one to a stuck state to a fine verdict.
#[test]
fn explored_schedules_replay(rt: HostRuntime) -> Result<(), Fail> {
    for (line, name, status) in [
        ("rmelab replay --variant no-look", "SHORTEST", 1),
        ("rmelab replay --variant exit-on-crash", "GONE_OUT", 1),
        ("rmelab replay", "KEPT", 0),
        ("rmelab replay", "NOT_BACK", 0),
        ("rmelab replay", "UNMENDED", 0),
    ] {
        let schedule = text_named("", &[TEXTS], name).ok_or("no text")?;
        output_of(&rt, rt.alloc(), line, "", schedule.as_bytes(), status)?;
    }
    Ok(())
}
