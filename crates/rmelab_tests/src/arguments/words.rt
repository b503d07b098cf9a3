//! The command lines that spell a command.

use crate::support::invocation::words_of;
use cli::arguments::words::read_words;
use std::test::Fail;
use test_support::text::cut;

/// Command lines, and the command that each spells, whole. Any variant goes without an image, and the right lock beside one. The
/// numbers of `hunt` and `run` are the greatest.
const SPELLED: &str = "\
rmelab replay
Replay(ReplayArgs { json: false, each: false, variant: Right, image: None, save: None, file: None })

rmelab replay --image a.json
Replay(ReplayArgs { json: false, each: false, variant: Right, image: Some(\"a.json\"), save: None, file: None })

rmelab replay --variant right --image a.json
Replay(ReplayArgs { json: false, each: false, variant: Right, image: Some(\"a.json\"), save: None, file: None })

rmelab replay --image a.json --variant right
Replay(ReplayArgs { json: false, each: false, variant: Right, image: Some(\"a.json\"), save: None, file: None })

rmelab replay --variant no-look
Replay(ReplayArgs { json: false, each: false, variant: NoLook, image: None, save: None, file: None })

rmelab replay --variant count-up a.rme
Replay(ReplayArgs { json: false, each: false, variant: CountUp, image: None, save: None, file: Some(\"a.rme\") })

rmelab replay --save a.json --variant right
Replay(ReplayArgs { json: false, each: false, variant: Right, image: None, save: Some(\"a.json\"), file: None })

rmelab draw --image a.json
Draw(DrawArgs { html: false, svg: false, variant: Right, image: Some(\"a.json\"), file: None })

rmelab draw --variant right --image a.json
Draw(DrawArgs { html: false, svg: false, variant: Right, image: Some(\"a.json\"), file: None })

rmelab hunt --variant last-skipped --seed 1 --rounds 10000 --steps 10000
Hunt(HuntArgs { variant: LastSkipped, moves: RandomMoves { seed: 1, steps: 10000, system_crashes: 0 }, first_round: 0, \
rounds: 10000, shrink: false, jobs: 0 })

rmelab hunt --variant last-skipped --seed 1 --rounds 10000 --steps 10000 --jobs 7
Hunt(HuntArgs { variant: LastSkipped, moves: RandomMoves { seed: 1, steps: 10000, system_crashes: 0 }, first_round: 0, \
rounds: 10000, shrink: false, jobs: 7 })

rmelab hunt --variant no-look --seed 1 --first-round 40 --rounds 10 --steps 20
Hunt(HuntArgs { variant: NoLook, moves: RandomMoves { seed: 1, steps: 20, system_crashes: 0 }, first_round: 40, \
rounds: 10, shrink: false, jobs: 0 })

rmelab hunt --variant no-look --seed 1 --rounds 10 --steps 20 --system-crashes 1000
Hunt(HuntArgs { variant: NoLook, moves: RandomMoves { seed: 1, steps: 20, system_crashes: 1000 }, first_round: 0, \
rounds: 10, shrink: false, jobs: 0 })

rmelab hunt --algorithm a.lock --seed 1 --first-round 40 --rounds 10 --steps 20 --jobs 7
HuntAlgorithm(AlgorithmHuntArgs { algorithm: \"a.lock\", procs: 2, limit: 1000000, \
moves: RandomMoves { seed: 1, steps: 20, system_crashes: 0 }, first_round: 40, rounds: 10, shrink: false, jobs: 7 })

rmelab hunt --algorithm a.lock --seed 1 --rounds 10 --steps 20 --system-crashes 5
HuntAlgorithm(AlgorithmHuntArgs { algorithm: \"a.lock\", procs: 2, limit: 1000000, \
moves: RandomMoves { seed: 1, steps: 20, system_crashes: 5 }, first_round: 0, rounds: 10, shrink: false, jobs: 0 })

rmelab run --procs 16 --messages 4096 --crash 50 --seed 7
Run(RunArgs { procs: 16, messages: 4096, crash: 50, seed: 7, width: 1 })

rmelab run --procs 16 --messages 4096 --crash 50 --seed 7 --width 8
Run(RunArgs { procs: 16, messages: 4096, crash: 50, seed: 7, width: 8 })

rmelab explore --variant right --procs 2
Explore(ExploreArgs { variant: Right, procs: 2, calls: Alphabet { lock: true, unlock: true, recover: false, consistent: false, \
withdraw: false, append: false, close: false }, crashes: 0, system_crashes: 0, moves: 18446744073709551615, states: 10000000, limit: 4, cap: 1, \
width: 1, stuck: false, starving: None, all_variables: false, jobs: 0 })

rmelab explore --variant right --procs 2 --calls unlock,lock,lock
Explore(ExploreArgs { variant: Right, procs: 2, calls: Alphabet { lock: true, unlock: true, recover: false, consistent: false, \
withdraw: false, append: false, close: false }, crashes: 0, system_crashes: 0, moves: 18446744073709551615, states: 10000000, limit: 4, cap: 1, \
width: 1, stuck: false, starving: None, all_variables: false, jobs: 0 })

rmelab explore --variant right --procs 2 --calls close,append
Explore(ExploreArgs { variant: Right, procs: 2, calls: Alphabet { lock: false, unlock: false, recover: false, consistent: false, \
withdraw: false, append: true, close: true }, crashes: 0, system_crashes: 0, moves: 18446744073709551615, states: 10000000, limit: 4, cap: 1, \
width: 1, stuck: false, starving: None, all_variables: false, jobs: 0 })

rmelab explore --variant right --procs 2 --stuck --starving any
Explore(ExploreArgs { variant: Right, procs: 2, calls: Alphabet { lock: true, unlock: true, recover: false, consistent: true, \
withdraw: false, append: false, close: false }, crashes: 0, system_crashes: 0, moves: 18446744073709551615, states: 10000000, limit: 4, cap: 1, \
width: 1, stuck: true, starving: Some(Any), all_variables: false, jobs: 0 })

rmelab explore --algorithm a.lock --procs 2 --starving
ExploreAlgorithm(AlgorithmExploreArgs { algorithm: \"a.lock\", procs: 2, calls: None, crashes: 0, system_crashes: 0, \
moves: 18446744073709551615, states: 10000000, limit: 4, stuck: false, starving: Some(Nobody), jobs: 0 })

rmelab explore --algorithm a.lock --procs 2 --stuck --limit 1 --jobs 3
ExploreAlgorithm(AlgorithmExploreArgs { algorithm: \"a.lock\", procs: 2, calls: None, crashes: 0, system_crashes: 0, \
moves: 18446744073709551615, states: 10000000, limit: 1, stuck: true, starving: None, jobs: 3 })

rmelab explore --algorithm a.lock --procs 2 --crashes 1 --system-crashes 2
ExploreAlgorithm(AlgorithmExploreArgs { algorithm: \"a.lock\", procs: 2, calls: None, crashes: 1, system_crashes: 2, \
moves: 18446744073709551615, states: 10000000, limit: 4, stuck: false, starving: None, jobs: 0 })

rmelab export --promela a.lock --procs 3
Export(ExportArgs { algorithm: \"a.lock\", procs: 3, limit: 4, crashes: 0 })

rmelab export --promela a.lock --procs 2 --limit 1 --crashes 2
Export(ExportArgs { algorithm: \"a.lock\", procs: 2, limit: 1, crashes: 2 })

rmelab cost --algorithm a.lock --model dsm --procs 3 --crashes 1
Cost(CostArgs { search: AlgorithmExploreArgs { algorithm: \"a.lock\", procs: 3, calls: None, crashes: 1, \
system_crashes: 0, \
moves: 18446744073709551615, states: 10000000, limit: 4, stuck: false, starving: None, jobs: 0 }, model: Distributed, \
kind: Passage })

rmelab cost --algorithm a.lock --model write-back --procs 2 --super-passages --limit 1
Cost(CostArgs { search: AlgorithmExploreArgs { algorithm: \"a.lock\", procs: 2, calls: None, crashes: 0, \
system_crashes: 0, \
moves: 18446744073709551615, states: 10000000, limit: 1, stuck: false, starving: None, jobs: 0 }, model: WriteBack, \
kind: SuperPassage })

rmelab cost --variant right --model write-through --procs 2 --super-passages --crashes 1 --limit 2
CostVariant(VariantCostArgs { search: ExploreArgs { variant: Right, procs: 2, calls: Alphabet { lock: true, unlock: true, recover: false, \
consistent: false, withdraw: false, append: false, close: false }, crashes: 1, system_crashes: 0, moves: 18446744073709551615, states: 10000000, \
limit: 2, cap: 1, width: 1, stuck: false, starving: None, all_variables: false, jobs: 0 }, model: WriteThrough, kind: SuperPassage })

rmelab cost --algorithm a.lock --model dsm --procs 3 --mean
MeanCost(MeanCostArgs { algorithm: \"a.lock\", model: Distributed, procs: 3, limit: 1000000, seed: 0, rounds: 100, steps: 1000 })

rmelab cost --mean --steps 10000 --rounds 10000 --seed 7 --limit 9 --algorithm a.lock --model write-through --procs 2
MeanCost(MeanCostArgs { algorithm: \"a.lock\", model: WriteThrough, procs: 2, limit: 9, seed: 7, rounds: 10000, steps: 10000 })

rmelab replay --algorithm a.lock --json b.rme
ReplayAlgorithm(AlgorithmReplayArgs { algorithm: \"a.lock\", json: true, each: false, file: Some(\"b.rme\") })

rmelab step --algorithm a.lock b.rme
StepAlgorithm(AlgorithmStepArgs { algorithm: \"a.lock\", file: Some(\"b.rme\") })

rmelab states check --variant right --procs 2 --part 1 --parts 3 a.states
States(StatesArgs { search: ExploreArgs { variant: Right, procs: 2, calls: Alphabet { lock: true, unlock: true, recover: false, \
consistent: false, withdraw: false, append: false, close: false }, crashes: 0, system_crashes: 0, moves: 18446744073709551615, states: 10000000, \
limit: 4, cap: 1, width: 1, stuck: false, starving: None, all_variables: false, jobs: 0 }, stream: StreamArgs { tool: Check, \
words: 0, digits: 2, part: 1, parts: 3, file: Some(\"a.states\") } })

rmelab states first --algorithm a.lock --procs 2 --words 70 --digits 1
StatesAlgorithm(AlgorithmStatesArgs { search: AlgorithmExploreArgs { algorithm: \"a.lock\", procs: 2, calls: None, crashes: 0, \
system_crashes: 0, \
moves: 18446744073709551615, states: 10000000, limit: 4, stuck: false, starving: None, jobs: 0 }, stream: StreamArgs { \
tool: First, words: 70, digits: 1, part: 0, parts: 1, file: None } })

rmelab judge
Judge(JudgeArgs { json: false, file: None })";

#[test]
fn lines_spell_commands(rt: HostRuntime) -> Result<(), Fail> {
    for row in SPELLED.split("\n\n") {
        let mut wanted = row;
        let line = cut(&mut wanted, "\n");
        let command = read_words(rt.alloc(), &words_of(rt.alloc(), line)?)?;
        let spelled = format!(in rt.alloc(); "{command:?}")?;
        assert!(rt; spelled.as_str() == wanted, "{line}");
    }
    Ok(())
}
