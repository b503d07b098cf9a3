//! Models of algorithms for other tools, and what is refused.

use crate::searches::{algorithm_runs, named_texts};
use crate::support::invocation::all_come_to;
use algorithms_tests::models::{PETERSON, whole_model};
use std::alloc::Global;
use std::test::Fail;

/// A script of the model of Peterson's lock, with one crash.
pub fn models(alloc: Global) -> Result<String, Fail> {
    let mut script = String::from_str(alloc, "@text PETERSON_MODEL\n")?;
    script.push_str(whole_model(alloc, &PETERSON)?.as_str())?;
    Ok(script)
}

const EXPORTS: &str = "
@row rmelab export --promela a.lock --procs 2 --limit 1 --crashes 1 @file a.lock PETERSON @out PETERSON_MODEL
@row rmelab export --promela a.lock --procs 3 @file a.lock PETERSON @ends 2 @err BAD_SIZE
@row rmelab export --promela a.lock --procs 2 --limit 0 @file a.lock PETERSON @ends 2 @err BAD_SIZE
@row rmelab export --promela a.lock --procs 2 --limit 32768 @file a.lock PETERSON @ends 2 @err BAD_SIZE
@row rmelab export --promela a.lock --procs 2 --crashes 32768 @file a.lock PETERSON @ends 2 @err BAD_SIZE
";

const EXPORTS_THAT_FAIL: &str = "
@program
@row rmelab export --promela a.lock --procs 2 @file a.lock HIDDEN @ends 2 @err
rmelab: algorithm line 6, column 6: fault 7: a second access in one line
@row rmelab export --promela a.lock --procs 2 @ends 3 @err UNREAD
@row rmelab export --promela a.lock --procs 2 @file a.lock PETERSON @fails file-read @ends 3 @err UNREAD
@row rmelab export --promela a.lock --procs 2 @file a.lock PETERSON @fails write @ends 3 @err UNWRITTEN
";

#[test]
fn models_of_an_algorithm(rt: HostRuntime) -> Result<(), Fail> {
    let models = models(rt.alloc())?;
    let texts = [models.as_str(), algorithm_runs::TEXTS, named_texts::SHARED];
    all_come_to(&rt, rt.alloc(), &texts, EXPORTS)?;
    all_come_to(&rt, rt.alloc(), &texts, EXPORTS_THAT_FAIL)
}
