ghost use Rattle.std.specs.Prelude.{◌≡◌};
ghost use Rattle.fj_tally.specs.Counting.{HasRoom, CountsMore};

use fj_rules::{Event, Owner, Status};

/// How many events of each kind there were so far: the fields of these names in a `Tally`.
#[derive(Clone, Copy, Drop)]
pub struct Counts {
    pub submitted: usize,
    pub forked: usize,
    pub triggers: usize,
    pub begun: usize,
    pub skipped: usize,
    pub failed: usize,
    pub cancelled: usize,
    pub released: usize,
}

impl Counts {
    /// All zero: before the first event.
    pub fn none() -> Counts
        ensures { result ≡ record { submitted = 0; forked = 0; triggers = 0; begun = 0; skipped = 0; failed = 0; cancelled = 0; released = 0 } }
    {
        Counts {
            submitted: 0,
            forked: 0,
            triggers: 0,
            begun: 0,
            skipped: 0,
            failed: 0,
            cancelled: 0,
            released: 0,
        }
    }

    /// Counts one more event. Precondition: no count overflows by one more.
    pub fn count(&mut self, event: &Event)
        requires { HasRoom self.old }
        ensures { CountsMore self.old self.new event.now }
    {
        match event {
            Event::Acc(_, Owner::Sub(_), _) => self.submitted += 1,
            Event::Acc(_, Owner::Work(_), _) => self.forked += 1,
            Event::Make(_, _) => self.triggers += 1,
            Event::Out(_, _) => self.begun += 1,
            Event::Skip(_, _) => self.skipped += 1,
            Event::Settle(_, Status::Exceptional(_)) => self.failed += 1,
            Event::Settle(_, Status::Cancelled) => self.cancelled += 1,
            Event::Rel(_) => self.released += 1,
            _ => {}
        }
    }
}
