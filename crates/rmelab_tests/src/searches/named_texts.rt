//! The texts of algorithms that the rows name.

use algorithms_tests::texts::{bakeries, others, promises};

/// A text with a fault in line 6; and what is printed for words without a lock.
pub const SHARED: &str = "
@text HIDDEN
algorithm hidden for 2 processes
promises exclusion
shared flag[procs]
call lock
  flag[me] := 1
  if flag[1 - me] = 0 then goto in_now
in_now:
  this is enter
  done
call unlock
  flag[me] := 0 this is leave
  done
@text NO_LOCK
error: there is neither '--variant <V>' nor '--algorithm <FILE>'

For more information, try '--help'.
";

const ALGORITHMS: [(&str, &[u8]); 9] = [
    ("PETERSON", others::PETERSON),
    ("ONE_WORD", others::ONE_WORD),
    ("NO_LOOK", bakeries::NO_LOOK),
    ("BAKERY_RUIN", bakeries::BAKERY_RUIN),
    ("BAKERY_1974", others::BAKERY_1974),
    ("BURNS", others::BURNS),
    ("FREE_TEST_AND_SET", promises::FREE_TEST_AND_SET),
    ("FAIR_TEST_AND_SET", promises::FAIR_TEST_AND_SET),
    ("MCS_NO_WAIT", promises::MCS_NO_WAIT),
];

/// The text of the algorithm with this name.
pub fn algorithm_named(name: &str) -> Option<&'static str> {
    for (known, text) in ALGORITHMS {
        if known == name {
            return str::from_utf8(text).ok();
        }
    }
    None
}
