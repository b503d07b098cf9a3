//! Each request for memory of searches, of schedules that are shrunk, and of commands on algorithms is refused in turn.

use crate::searches::{
    algorithm_costs, algorithm_explores, algorithm_exports, algorithm_runs, explores, named_texts,
    shrinks,
};
use crate::support::invocation::all_come_to;
use std::test::Fail;

const OUT_OF_MEMORY: &str = "
@memory
@row rmelab shrink --variant right @out FINE @in
rme 1 procs 1 limit 10 cap 1
lock 0
step 0 8
@row rmelab shrink --variant no-look @in TWO_INSIDE @out LEAST @ends 1
@row rmelab explore --variant exit-on-crash --procs 1 --limit 1 --crashes 1 @out GONE_OUT @ends 1
@row rmelab explore --variant right --procs 1 --limit 1 --moves 3 @out
nothing found within 3 moves
@row rmelab explore --algorithm a.lock --procs 2 @file a.lock ONE_WORD @out TWO_AT_ONCE @ends 1
@row rmelab explore --algorithm a.lock --procs 1 --limit 1 @file a.lock COUNTED @out OUT_OF_RANGE_ALONE @ends 1
@row rmelab explore --algorithm a.lock --procs 1 --stuck --limit 1 --crashes 1 @file a.lock ONE_WORD @out LEFT_HELD @ends 1
@row rmelab cost --algorithm a.lock --model write-through --procs 1 --limit 1 @file a.lock ONE_WORD @out ALONE_COSTS
@row rmelab cost --algorithm a.lock --model dsm --procs 1 --limit 1 --crashes 1 @file a.lock ONE_WORD @out SPINS @ends 1
@row rmelab explore --algorithm a.lock --procs 2 --cap 1 @ends 2 @err NO_MAILBOX
@row rmelab explore --procs 2 @ends 2 @err NO_LOCK
@row rmelab hunt --algorithm a.lock --seed 1 --rounds 1 --steps 3 @file a.lock PETERSON @out
nothing found
@row rmelab shrink --algorithm a.lock @in ALONE @file a.lock PETERSON @out FINE
@row rmelab draw --algorithm a.lock @in ALONE @file a.lock PETERSON @out ALONE_DRAWN
@row rmelab export --promela a.lock --procs 2 --limit 1 --crashes 1 @file a.lock PETERSON @out PETERSON_MODEL
@row rmelab replay --algorithm a.lock @in ALONE @file a.lock PETERSON @out ALONE_TOLD
@row rmelab replay --algorithm a.lock --each @in ALONE @file a.lock PETERSON @out ALONE_BY_STEPS
@row rmelab replay --algorithm a.lock --json @in ALONE @file a.lock PETERSON @out ALONE_AS_OBJECT
@row rmelab replay --algorithm a.lock --each --json @in ALONE @file a.lock PETERSON @out ALONE_AS_LINES
@row rmelab step --algorithm a.lock @in SESSION @file a.lock ONE_WORD @out HELD
@row rmelab replay --algorithm a.lock @in ALONE @ends 2 @file a.lock
algorithm a for 2 processes
promises exclusion
shared x[2]
call lock
v := x
@err
rmelab: algorithm line 5, column 6: fault 4: indexes given: 0, declared: 1
@row rmelab step --algorithm a.lock b.rme @file a.lock PETERSON @file b.rme ALONE @out BEGUN @in
undo
";

#[test]
fn searches(rt: HostRuntime) -> Result<(), Fail> {
    let models = algorithm_exports::models(rt.alloc())?;
    let texts = [
        models.as_str(),
        algorithm_runs::TEXTS,
        algorithm_costs::TEXTS,
        algorithm_explores::TEXTS,
        explores::TEXTS,
        named_texts::SHARED,
        shrinks::TEXTS,
    ];
    all_come_to(&rt, rt.alloc(), &texts, OUT_OF_MEMORY)
}
