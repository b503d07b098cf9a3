//! Models of algorithms, and sizes of which there is none.

use crate::models::{BAKERY, CLH, MCS, ModelParts, PETERSON, whole_model};
use crate::support::text_named;
use algorithm_texts::read_algorithm;
use algorithms::{AlgorithmCall, AlgorithmRefusal};
use promela::{PromelaFault, write_promela};
use std::alloc::Global;
use std::process::Abort;
use std::test::Fail;

/// A text in which three names are multiplied.
const WIDE: &[u8] = b"algorithm wide for 2 processes
promises exclusion
shared x
call lock
  v := x
  x := v * v * v
  this is enter
  done
call unlock
  x := 0 this is leave
  done
";

/// A text in which more may be inside than a model can count.
const CROWD: &[u8] = b"algorithm crowd for 2 processes
promises exclusion of 2147483648
shared x
call lock
  x := 1
  this is enter
  done
call unlock
  x := 0 this is leave
  done
";

/// A semaphore for two: both may be inside.
const SEMAPHORE_2: ModelParts = [
    r#"/* The algorithm semaphore_2, written by rmelab export. */
#define PROCS 2
#define LIMIT 4
#define CRASHES 1
#define LINES 6
#define MOST_INSIDE 2
#define REENTRY 0
#define ORDER 0
#define EXIT_BOUND 1
#define RECOVERY_BOUND NO_BOUND
#define DOORWAY_BOUND NO_BOUND
#define LOCK 0
#define UNLOCK 3
#define RECOVER LINES
#define WITHDRAW LINES
#define MAY_WITHDRAW (false)
"#,
    r#"#define SIZE_0 1
int w_taken_0[1];
hidden int n_t_0;
inline take_names() {
  TAKE(t_0); has_store = 0
}

inline forget() {
  FORGET(t_0); skip
}

inline access() {
  if
  :: at_line == 0 -> TRY(true, word_index = 0; n_t_0 = w_taken_0[word_index]; TRY(true, if :: (n_t_0 < 2) -> TRY((n_t_0 + 1) <= 2 && true, SET(new_value, (n_t_0 + 1)); has_store = 1; TRY(true, if :: (n_t_0 < 2) -> at_line = 1 :: else -> at_line = BLOCKED fi)) :: else -> TRY(true, if :: (n_t_0 < 2) -> at_line = 1 :: else -> at_line = BLOCKED fi) fi))
  :: at_line == 3 -> TRY(true, word_index = 0; n_t_0 = w_taken_0[word_index]; TRY(n_t_0 >= 1 && (n_t_0 - 1) <= 2 && true, SET(new_value, (n_t_0 - 1)); has_store = 1; at_line = 4))
  :: else -> skip
  fi
}

inline local_lines() {
  do
  :: at_line == 0 -> FORGET(t_0); place = 0; at_line = ARRIVED
  :: at_line == 1 -> note(ENTER_DEED)
  :: at_line == 2 -> FORGET(t_0); place = REST; at_line = ARRIVED
  :: at_line == 3 -> FORGET(t_0); place = 3; at_line = ARRIVED
  :: at_line == 4 -> note(LEAVE_DEED)
  :: at_line == 5 -> FORGET(t_0); place = REST; at_line = ARRIVED
  :: else -> break
  od;
  skip
}

inline store() {
  if
  :: at_line != LEFT_OUT && has_store && from_line == 0 -> w_taken_0[word_index] = new_value
  :: at_line != LEFT_OUT && has_store && from_line == 3 -> w_taken_0[word_index] = new_value
  :: else -> skip
  fi
}

"#,
    r#"  int p_t_0;
"#,
    r#"  :: d_step { IS_IDLE && phase[_pid] != INSIDE -> START(LOCK) }
  :: d_step { IS_IDLE && phase[_pid] == INSIDE -> START(UNLOCK) }
"#,
];

/// The calls of a text without recovery.
const CALLS: [AlgorithmCall; 2] = [AlgorithmCall::Lock, AlgorithmCall::Unlock];

/// All calls.
const ALL: [AlgorithmCall; 4] = [
    AlgorithmCall::Lock,
    AlgorithmCall::Unlock,
    AlgorithmCall::Recover,
    AlgorithmCall::Withdraw,
];

/// Fails unless the model of the algorithm with this name is that of these parts.
fn model_is<R: Abort>(
    rt: &R,
    alloc: Global,
    name: &str,
    limit: u64,
    crashes: u64,
    calls: &[AlgorithmCall],
    parts: &ModelParts,
) -> Result<(), Fail> {
    let algorithm = read_algorithm(alloc, text_named(name))?;
    let whole = whole_model(alloc, parts)?;
    let model = write_promela(alloc, algorithm, 2, limit, crashes, calls)?;
    assert!(rt; model.as_slice() == whole.as_bytes());
    Ok(())
}

/// The fault of a model of this text, for these numbers of processes, numbers and crashes.
fn fault_of(
    alloc: Global,
    text: &[u8],
    procs: u64,
    limit: u64,
    crashes: u64,
) -> Result<Option<PromelaFault>, Fail> {
    let algorithm = read_algorithm(alloc, text)?;
    Ok(write_promela(alloc, algorithm, procs, limit, crashes, &CALLS).err())
}

#[test]
fn models_of_algorithms(rt: HostRuntime) -> Result<(), Fail> {
    let alloc = rt.alloc();
    model_is(&rt, alloc, "peterson", 1, 1, &CALLS, &PETERSON)?;
    model_is(&rt, alloc, "mcs", 4, 0, &CALLS, &MCS)?;
    model_is(&rt, alloc, "bakery", 4, 0, &ALL, &BAKERY)?;
    model_is(&rt, alloc, "clh", 4, 0, &CALLS, &CLH)?;
    model_is(&rt, alloc, "semaphore_2", 4, 1, &CALLS, &SEMAPHORE_2)
}

#[test]
fn models_that_are_refused(rt: HostRuntime) -> Result<(), Fail> {
    let peterson = text_named("peterson");
    let refused = fault_of(rt.alloc(), peterson, 3, 1, 0)?;
    let great = fault_of(rt.alloc(), peterson, 2, 32768, 0)?;
    let crashes = fault_of(rt.alloc(), peterson, 2, 1, 32768)?;
    let products = fault_of(rt.alloc(), WIDE, 2, 1, 0)?;
    let crowd = fault_of(rt.alloc(), CROWD, 2, 1, 0)?;
    let squared = text_named("squared");
    let ranged = fault_of(rt.alloc(), squared, 1, 1, 0)?;
    let bounded = fault_of(rt.alloc(), squared, 2, 32767, 0)?;
    assert!(rt; refused == Some(PromelaFault::Refused(AlgorithmRefusal::BadProcs)));
    assert!(rt; great == Some(PromelaFault::TooGreat));
    assert!(rt; crashes == Some(PromelaFault::TooGreat));
    assert!(rt; products == Some(PromelaFault::TooGreat));
    assert!(rt; crowd == Some(PromelaFault::TooGreat));
    assert!(rt; ranged == Some(PromelaFault::Refused(AlgorithmRefusal::BadProcs)));
    assert!(rt; bounded.is_none());
    Ok(())
}
