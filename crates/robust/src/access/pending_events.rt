//! The pending events of a process: what its next step carries. Only proofs read them; they take no bytes at run time.
ghost use Rattle.std.specs.Prelude.{◌≡◌, true, Some, None};
ghost use Rattle.robust.specs.PendingEvents.{has_crashed, AwaitsNothing, started_call};

use histories::Log;
use rmeworld::Call;

/// Whether the process has crashed since its last step, and the call that it has started since then: no item, or one.
#[derive(Drop)]
pub struct PendingEvents {
    pub crashed: Log<bool>,
    pub start: Log<Call>,
}

impl PendingEvents {
    /// Nothing is pending: the next step carries neither a crash nor a start.
    pub fn nothing() -> PendingEvents
        ensures { AwaitsNothing result }
    {
        PendingEvents {
            crashed: Log::new(),
            start: Log::new(),
        }
    }

    /// The pending events right after a crash.
    pub fn crash() -> PendingEvents
        ensures { (has_crashed result ≡ true) × (started_call result ≡ None) }
    {
        PendingEvents {
            crashed: Log::new().and(&true),
            start: Log::new(),
        }
    }

    /// The process starts a call.
    pub fn begin(&mut self, call: &Call)
        ensures { (has_crashed self.new ≡ has_crashed self.old) × (started_call self.new ≡ Some call.now) }
    {
        self.start = Log::new().and(call);
    }
}
