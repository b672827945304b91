ghost use Rattle.std.specs.Prelude.{◌≡◌, ◌≤◌, ◌*◌, IfSome};
ghost use Rattle.std.specs.Duration.{as_nanos};
ghost use Rattle.fj_sleep.specs.declared.idle.TheConstants.{LONGEST_SLEEP};

use crate::sleeps::Sleeps;
use std::time::Duration;

/// How often a worker yields between looks for work, before it sleeps instead.
const YIELDS: u32 = 16;

/// The first sleep, in microseconds.
const FIRST_SLEEP: u64 = 16;

/// The longest sleep, in microseconds.
const LONGEST_SLEEP: u64 = 800;

/// The back-off of a worker that finds nothing to do: it yields, and after some rounds it sleeps, the lookout longer and longer. The lookout
/// looks again by itself, since a push into a lane wakes nobody.
#[derive(Drop)]
pub struct Idle {
    rounds: u32,
    sleeps: Sleeps,
    ghost longest: { sleeps.longest ≡ LONGEST_SLEEP },
}

impl Idle {
    /// The worker has just done something.
    pub fn new() -> Idle {
        Idle {
            rounds: 0,
            sleeps: Sleeps::new(FIRST_SLEEP, LONGEST_SLEEP),
        }
    }

    /// How long to sleep before the next look, at most 0.8 milliseconds; none if a yield is enough.
    pub fn next_sleep(&mut self) -> Option<Duration>
        ensures { IfSome result (λ sleep. as_nanos sleep ≤ LONGEST_SLEEP * 1_000) }
    {
        if self.rounds < YIELDS {
            self.rounds += 1;
            return None;
        }
        Some(self.sleeps.next_sleep())
    }
}
