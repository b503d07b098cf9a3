//! A machine with the four methods that its trait requires. The fifth has a default body.

use judge::{Deed, Judge};
use rmecore::Refusal;
use rmeworld::{Call, Image, Machine, Stepped, World};
use schedule::{Page, Text, Verdict, read_schedule, replay, replay_on};
use std::marker::Model;
use std::test::Fail;

/// A world that takes each of its steps by `advance`.
#[derive(Drop)]
pub struct SteppedWorld {
    world: World,
}

impl Model for SteppedWorld {
    ghost use Rattle.rmeworld.specs.WorldState.{WorldState};

    ghost Value = { WorldState };

    ghost view = { λ w. w.world };
}

impl Machine for SteppedWorld {
    ghost use Rattle.rmeworld.specs.Replayed.{world_behaviour};

    ghost behaviour = { world_behaviour };

    fn start(&mut self, p: u64, call: Call) -> Result<(), Refusal> {
        self.world.start(p, call)
    }

    fn advance(&mut self, p: u64) -> Result<Stepped, Refusal> {
        self.world.advance(p)
    }

    fn crash(&mut self, p: u64) -> Result<Deed, Refusal> {
        self.world.crash(p)
    }

    fn image(&self) -> Result<Image, Refusal> {
        self.world.image()
    }
}

const SCHEDULE: &[u8] = b"rme 1 procs 2 limit 10 cap 1
lock 0
step 0 20
append 0 1 5
step 0 8
crash 0
recover 0
step 0 20
consistent 0
step 0 30
unlock 0
step 0 20
";

#[test]
fn a_machine_with_four_methods_gives_the_same_report(rt: HostRuntime) -> Result<(), Fail> {
    let mut report = Page::new(rt.alloc());
    let verdict = replay(rt.alloc(), &mut Text::new(SCHEDULE, 64), &mut report);
    assert!(&rt; verdict == Ok(Verdict::Fine));

    let schedule = read_schedule(rt.alloc(), SCHEDULE)
        .ok()
        .ok_or("a schedule")?;
    let mut machine = SteppedWorld {
        world: World::new(rt.alloc(), 2, 10, 1, 1)?,
    };
    let mut judge = Judge::new(rt.alloc(), 2, 1)?;
    let mut page = Page::new(rt.alloc());
    let verdict = replay_on(rt.alloc(), &mut machine, &mut judge, &schedule, &mut page);
    assert!(&rt; verdict == Ok(Verdict::Fine));
    assert!(&rt; !machine.step_silently(0));
    assert!(&rt; page.as_slice() == report.as_slice());
    Ok(())
}
