//! First values of words, against the numbers of the reference program's second version.

use crate::texts::swaps;
use algorithm_texts::read_algorithm;
use algorithms::{Address, AlgorithmWorld};
use std::test::Fail;

/// What a text with first values spells.
pub const SPELLED: &str = "spell first values
== seats
--
Access(AccessLine { word: WordOf { declaration: 0, index: Some(Me) }, action: Load { name: 0 }, may_withdraw: false })
Access(AccessLine { word: WordOf { declaration: 0, index: Some(Number(0)) }, action: Swap { name: 0, value: Number(0), guard: Some(Compare(Equal, Private(0), Procs)), until: Some(Compare(Equal, Private(0), Procs)) }, may_withdraw: false })
Local(Note(Enter))
Done(0)
Access(AccessLine { word: WordOf { declaration: 0, index: Some(Number(0)) }, action: Store { value: Procs }, may_withdraw: false })
Local(Note(Leave))
Done(0)
answer \n\
Entries { lock: 0, unlock: 4, recover: None, withdraw: None }
seats [\"v\"]
[Declaration { name: \"seat\", extent: Each, bound: Some(Number(2)), home: None }]
Promises { most_inside: 1, reentry: false, order: false, progress: None, bounds: false }
StepBounds { exit: None, recovery: None, doorway: None }
1 to 64 processes, 0 lasting names
first values Some(FirstValues { starts: [Some(Procs)] })
";

/// The numbers of `mcs`, in which 0 is nobody, and a lock that there is for one and two processes.
pub const SEARCHES: &str = "\
search from first values\n\
== mcs_nil 2 1 0\n--\n89 states\n\
== mcs_nil 2 1 1\n--\n644 states\n\
== mcs_nil 3 1 0\n--\n2361 states\n\
== anderson 1 1 0\n--\n6 states\n\
== anderson 2 4 0\n--\n81 states\n\
== anderson 2 4 1\n--\n8 moves\n\
== anderson 3 4 0\n--\n1105 states\n\
== seats 1 1 0\n--\n5 states\n\
== seats 2 1 0\n--\n21 states\n\
== seats 2 1 1\n--\n66 states\n\
== seats 3 1 0\n--\nthe algorithm is not for this number of processes\n\
== narrow 1 1 0\n--\nthe algorithm is not for this number of processes\n\
== narrow 2 1 0\n--\n12 states\n\
";

pub const RUNS: &str = "\
run from first values\n\
== seats 2 1\n\
lock 0 -> started\n\
step 0 -> 8 seat[0] 2\n\
step 0 -> 9 seat[0] swap 2 = 0 enter done\n\
lock 1 -> started\n\
step 1 -> 8 seat[1] 2\n\
step 1 -> 9 seat[0] swap 0 blocked\n\
unlock 0 -> started\n\
step 0 -> 14 seat[0] = 2 leave done\n\
words 2 2\n\
== anderson 2 1\n\
lock 0 -> started\n\
step 0 -> 10 tail swap 0 = 1 begin ready\n\
step 0 -> 12 open[0] 1 enter done\n\
lock 1 -> started\n\
step 1 -> 10 tail swap 1 = 0 begin ready\n\
step 1 -> 12 open[1] 0 blocked\n\
unlock 0 -> started\n\
step 0 -> 17 open[0] = 0\n\
step 0 -> 18 open[1] = 1 leave done\n\
step 1 -> 12 open[1] 1 enter done\n\
words 0 0 1\n\
";

/// What is wrong, a text, and where: the line, and the number of its fault.
pub const BAD: &str = "\
read faults of first values\n\
== owner of one word\nalgorithm a for 2 processes\npromises exclusion\nconstant nil = procs\nshared x starts owner\nshared w\ncall lock\n  w := 1 this is enter\n  done\ncall unlock\n  w := 0 this is leave\n  done\n--\nline 4: fault 4\n\
== me of an array\nalgorithm a for 2 processes\npromises exclusion\nconstant nil = procs\nshared x[procs] starts me\nshared w\ncall lock\n  w := 1 this is enter\n  done\ncall unlock\n  w := 0 this is leave\n  done\n--\nline 4: fault 4\n\
== owner in a bound\nalgorithm a for 2 processes\npromises exclusion\nconstant nil = procs\nshared x[procs] up to owner\nshared w\ncall lock\n  w := 1 this is enter\n  done\ncall unlock\n  w := 0 this is leave\n  done\n--\nline 4: fault 4\n\
== owner in a constant\nalgorithm a for 2 processes\npromises exclusion\nconstant nil = procs\nconstant x = owner\nshared w\ncall lock\n  w := 1 this is enter\n  done\ncall unlock\n  w := 0 this is leave\n  done\n--\nline 4: fault 4\n\
== no value\nalgorithm a for 2 processes\npromises exclusion\nconstant nil = procs\nshared x starts\nshared w\ncall lock\n  w := 1 this is enter\n  done\ncall unlock\n  w := 0 this is leave\n  done\n--\nline 4: fault 4\n\
== me in the value\nalgorithm a for 2 processes\npromises exclusion\nconstant nil = procs\nshared x starts me\nshared w\ncall lock\n  w := 1 this is enter\n  done\ncall unlock\n  w := 0 this is leave\n  done\n--\nline 4: fault 4\n\
== a name in the value\nalgorithm a for 2 processes\npromises exclusion\nconstant nil = procs\nshared x starts y\nshared w\ncall lock\n  w := 1 this is enter\n  done\ncall unlock\n  w := 0 this is leave\n  done\n--\nline 4: fault 4\n\
== more after the value\nalgorithm a for 2 processes\npromises exclusion\nconstant nil = procs\nshared x starts nil nil\nshared w\ncall lock\n  w := 1 this is enter\n  done\ncall unlock\n  w := 0 this is leave\n  done\n--\nline 4: fault 4\n\
== a bound after it\nalgorithm a for 2 processes\npromises exclusion\nconstant nil = procs\nshared x starts 1 up to 2\nshared w\ncall lock\n  w := 1 this is enter\n  done\ncall unlock\n  w := 0 this is leave\n  done\n--\nline 4: fault 4\n\
== no value after a bound\nalgorithm a for 2 processes\npromises exclusion\nconstant nil = procs\nshared x up to 2 starts\nshared w\ncall lock\n  w := 1 this is enter\n  done\ncall unlock\n  w := 0 this is leave\n  done\n--\nline 4: fault 4\n\
== no bound\nalgorithm a for 2 processes\npromises exclusion\nconstant nil = procs\nshared x up to starts 2\nshared w\ncall lock\n  w := 1 this is enter\n  done\ncall unlock\n  w := 0 this is leave\n  done\n--\nline 4: fault 4\n\
== twice\nalgorithm a for 2 processes\npromises exclusion\nconstant nil = procs\nshared x starts 1 starts 2\nshared w\ncall lock\n  w := 1 this is enter\n  done\ncall unlock\n  w := 0 this is leave\n  done\n--\nline 4: fault 4\n\
== the word itself\nalgorithm a for 2 processes\npromises exclusion\nconstant nil = procs\nshared x starts nil + x\nshared w\ncall lock\n  w := 1 this is enter\n  done\ncall unlock\n  w := 0 this is leave\n  done\n--\nline 4: fault 4\n\
== of a private name\nalgorithm a for 2 processes\npromises exclusion\nconstant nil = procs\nprivate x starts 1\nshared w\ncall lock\n  w := 1 this is enter\n  done\ncall unlock\n  w := 0 this is leave\n  done\n--\nline 4: fault 4\n\
";

/// `starts` is no word of the format.
pub const GOOD: &str = "\
read first values\n\
== owner\nalgorithm a for 2 processes\npromises exclusion\nconstant owner = 7\nshared x[procs] up to 9 starts 2 * owner + min(owner, 1)\ncall lock\n  x[me] := owner this is enter\n  done\ncall unlock\n  x[me] := 0 this is leave\n  done\n--\nread\n\
== a shared word\nalgorithm a for 2 processes\npromises exclusion\nshared starts up to 3 starts 2\ncall lock\n  v := starts\n  starts := 1 this is enter\n  done\ncall unlock\n  starts := 0 this is leave\n  done\n--\nread\n\
== a constant\nalgorithm a for 2 processes\npromises exclusion\nconstant starts = limit\nshared w[procs] starts starts\nprivate kept\ncall lock\n  w[me] := starts + kept this is enter\n  done\ncall unlock\n  w[me] := 0 this is leave\n  done\n--\nread\n\
== a private name\nalgorithm a for 2 processes\npromises exclusion\nshared w\ncall lock\n  starts := w\n  w := starts this is enter\n  done\ncall unlock\n  w := 0 this is leave\n  done\n--\nread\n\
";

/// A word of the first declaration.
fn word(world: &AlgorithmWorld, index: usize) -> Option<u64> {
    world.words().first()?.get(index).copied()
}

#[test]
fn a_world_begins_anew_with_its_first_values(rt: HostRuntime) -> Result<(), Fail> {
    let algorithm = read_algorithm(rt.alloc(), swaps::SEATS)?;
    let mut world = AlgorithmWorld::new(rt.alloc(), algorithm, 2, 1)?;
    let address = Address {
        declaration: 0,
        index: 1,
    };
    world.seam_set_word(address, 0);
    let changed = word(&world, 1);
    let other = world.beside(rt.alloc())?;
    let beside = (word(&other, 0), word(&other, 1), word(&other, 2));
    drop(other);
    world.restart();
    let anew = (word(&world, 0), word(&world, 1), word(&world, 2));
    drop(world);
    assert!(rt; changed == Some(0));
    assert!(rt; beside == (Some(2), Some(2), Some(0)));
    assert!(rt; anew == (Some(2), Some(2), Some(0)));
    Ok(())
}
