//! The rules of the lock over plain parts: numbers, indexes and stages. The machine here, the fast paths of threads and the
//! machine for C all call these.

ghost use Rattle.std.specs.Prelude.{◌≡◌, ◌<◌, ◌==◌, ◌||◌, IfSome, None, is_none};
ghost use Rattle.rmecore.specs.Place.{above, is_before as is_before_of};
ghost use Rattle.rmecore.specs.Machine.{access, first, place_of};
ghost use Rattle.rmecore.specs.Refused.{is_idle};

use crate::access::Access;
use crate::kind::Kind;
use crate::stage::Stage;
use crate::word::Word;

/// Whether process `p` with this number goes before process `j` with the other: by number, then by process (Lamport's Bakery).
// Inline: each scan step, the hottest.
#[inline(always)]
pub fn is_before(number: u64, p: u64, other: u64, j: u64) -> bool
    ensures { result ≡ is_before_of number p other j }
{
    (number, p) < (other, j)
}

/// Whether waiter `own` with this number passes process `j`, whose number was read: it does if that is 0 or its own pair is
/// smaller.
// Inline: each scan step, the hottest.
#[inline(always)]
pub fn passes(number: u64, own: u64, value: u64, j: u64) -> bool
    ensures { result ≡ ((value == 0) || is_before_of number own value j) }
{
    value == 0 || is_before(number, own, value, j)
}

/// The first process from an index on, the own one left out.
// Inline: each scan step, the hottest.
#[inline(always)]
pub fn first_other(procs: u64, own: u64, from: u64) -> Option<u64>
    requires { own < procs }
    ensures first { result ≡ first (above procs own from) }
    ensures within { IfSome result (λ j. j < procs) }
    ensures left { IfSome result (λ j. above procs own j ≡ above procs own from) }
    ensures none { result ≡ None → above procs own procs ≡ above procs own from }
{
    let j = if from == own { from + 1 } else { from };
    if j < procs { Some(j) } else { None }
}

/// The next access of process `own` at a stage. None: no call is under way.
// Inline: once in each step.
#[inline(always)]
pub fn access_at(procs: u64, limit: u64, own: u64, stage: Stage) -> Option<Access>
    requires { own < procs }
    ensures next { result ≡ access limit own (place_of procs own stage) }
    ensures idle { is_none result ≡ is_idle (place_of procs own stage) }
{
    match stage {
        Stage::Rest | Stage::Dead | Stage::Inside => None,
        Stage::ReadingChoosing { .. } => Some(Access::Load(Kind::Reread, Word::Choosing(own))),
        Stage::ReadingNumber { .. } => Some(Access::Load(Kind::Reread, Word::Number(own))),
        Stage::ReadingInside { .. } => Some(Access::Load(Kind::Reread, Word::Inside(own))),
        Stage::Opening => Some(Access::Store(Kind::Open, Word::Choosing(own), 1)),
        Stage::Door { next, greatest } => match first_other(procs, own, next) {
            Some(j) => Some(Access::Load(Kind::Peek, Word::Number(j))),
            None if greatest < limit => {
                Some(Access::Store(Kind::Take, Word::Number(own), greatest + 1))
            }
            None => Some(Access::Store(Kind::Shut, Word::Choosing(own), 0)),
        },
        Stage::Shutting { .. } => Some(Access::Store(Kind::Shut, Word::Choosing(own), 0)),
        Stage::Wait { next, looked, .. } => match first_other(procs, own, next) {
            Some(j) if looked => Some(Access::Load(Kind::Weigh, Word::Number(j))),
            Some(j) => Some(Access::Load(Kind::Look, Word::Choosing(j))),
            None => Some(Access::Store(Kind::Mark, Word::Inside(own), 1)),
        },
        Stage::Leaving | Stage::Withdrawing => {
            Some(Access::Store(Kind::Drop, Word::Number(own), 0))
        }
        Stage::Unmarking { .. } => Some(Access::Store(Kind::Mark, Word::Inside(own), 0)),
    }
}
