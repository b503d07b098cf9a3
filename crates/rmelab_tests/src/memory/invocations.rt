//! Each request for memory of replays, of a trace, of sessions, of a drawing and of explanations is refused in turn.

use crate::program::{drawings, explains};
use crate::replays::{reports, sessions, stepwise};
use crate::support::invocation::all_come_to;
use std::test::Fail;

const OUT_OF_MEMORY: &str = "
@memory
@row rmelab replay @in SMALLEST @out REPORT
@row rmelab replay --json --save a.json @in SMALLEST @out OBJECT
@row rmelab replay --each @in SMALLEST @out TOLD
@row rmelab replay --each --json @in SMALLEST @out LINES
@row rmelab judge @in IN_ORDER @out
verdict fine
@row rmelab step @in IN_AND_BACK @out IN_AND_BACK_TOLD
@row rmelab draw @in SMALLEST @out DRAWN
@row rmelab explain fault 5 @out NO_NEWLINE
@row rmelab explain fault 7 @ends 2 @err NO_NAME
";

#[test]
fn invocations(rt: HostRuntime) -> Result<(), Fail> {
    let texts = [
        reports::TEXTS,
        sessions::TEXTS,
        stepwise::TEXTS,
        drawings::TEXTS,
        explains::TEXTS,
    ];
    all_come_to(&rt, rt.alloc(), &texts, OUT_OF_MEMORY)
}
