//! Gives the judge of a hunt the deed of a move.

ghost use Rattle.std.specs.Prelude.{◌≡◌, ◌∷◌, List, Some, length};
ghost use Rattle.redomail.specs.Layout.{IsLayout, words_of, size};
ghost use Rattle.redomail.specs.declared.deed.Deed.{Deed as DeedOf};
ghost use Rattle.judge.specs.Table.{empty_state};
ghost use Rattle.judge.specs.Stands.{StandsAfter};
ghost use Rattle.rmeworld.specs.Replayed.{list_of, mail_by, or_else, the_deed};
ghost use Rattle.crashlab.specs.variants.JudgeFeeds.{IsDeedGiven};

use judge::Judge;
use redomail::{Deed, Layout};
use rmecore::{Access, Outer};
use rmeworld::memory::deed_of;

/// What a move of a round ends in.
#[derive(Clone, Copy)]
pub enum MoveOutcome {
    /// The round goes on: the move has no deed, or the judge allows it.
    On,
    /// The judge refuses the deed of the move.
    Caught,
}

/// Gives the judge a deed. `Caught` where it refuses the deed.
// Inline: one call a deed.
#[inline(always)]
pub fn tell(judge: &mut Judge, deed: &Deed) -> MoveOutcome
    ensures { (history : List DeedOf) → StandsAfter (empty_state 3 64) history judge.old
        → IsDeedGiven history (Some deed.now) judge.new result }
{
    if judge.feed_from(deed).is_err() {
        return MoveOutcome::Caught;
    }
    MoveOutcome::On
}

/// Gives the judge the deed of a step of process p, if it has one. Most steps are loads, and few loads have a deed.
// Inline: one call a step.
#[inline(always)]
pub fn tell_step(
    judge: &mut Judge,
    layout: &Layout,
    p: u64,
    cells: &[u64],
    access: &Access,
    outer: &Option<Outer>,
) -> MoveOutcome
    requires size { IsLayout layout.now }
    requires filled { length cells.now ≡ size layout.now }
    ensures reports { (history : List DeedOf) → StandsAfter (empty_state 3 64) history judge.old
        → IsDeedGiven history (the_deed (or_else outer.now (mail_by layout.now p (words_of cells.now) access.now)))
        judge.new result }
    ensures one { list_of (the_deed (or_else outer.now (mail_by layout.now p (words_of cells.now) access.now)))
        ≡ or_else outer.now (mail_by layout.now p (words_of cells.now) access.now) }
{
    match (outer, access) {
        (None, Access::Load(..)) => MoveOutcome::On,
        (Some(outer), _) => tell(judge, &Deed::Outer(*outer)),
        _ => tell_deed(judge, layout, p, cells, access, outer),
    }
}

/// As `tell_step`, for a step that may have a deed.
// Apart: most steps have none.
#[inline(never)]
fn tell_deed(
    judge: &mut Judge,
    layout: &Layout,
    p: u64,
    cells: &[u64],
    access: &Access,
    outer: &Option<Outer>,
) -> MoveOutcome
    requires size { IsLayout layout.now }
    requires filled { length cells.now ≡ size layout.now }
    ensures reports { (history : List DeedOf) → StandsAfter (empty_state 3 64) history judge.old
        → IsDeedGiven history (the_deed (or_else outer.now (mail_by layout.now p (words_of cells.now) access.now)))
        judge.new result }
    ensures one { list_of (the_deed (or_else outer.now (mail_by layout.now p (words_of cells.now) access.now)))
        ≡ or_else outer.now (mail_by layout.now p (words_of cells.now) access.now) }
{
    match deed_of(*layout, p, cells, *access, *outer) {
        Some(deed) => tell(judge, &deed),
        None => MoveOutcome::On,
    }
}
