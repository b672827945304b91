ghost use Rattle.std.specs.Prelude.{◌≡◌, ◌≤◌, ◌*◌, min};
ghost use Rattle.std.specs.Duration.{as_nanos};

use std::time::Duration;

/// How long a thread that polls sleeps: each time twice as long as before, up to a maximum.
#[derive(Clone, Copy)]
pub struct Sleeps {
    /// The next one, in microseconds.
    next: u64,
    /// The longest one, in microseconds.
    longest: u64,
    ghost bounded: { next ≤ longest },
}

impl Sleeps {
    /// With the first and the longest sleep, in microseconds. Precondition: the first is at most the longest.
    pub fn new(first: u64, longest: u64) -> Sleeps
        requires { first ≤ longest }
        ensures { (result.next ≡ first) × (result.longest ≡ longest) }
    {
        Sleeps {
            next: first,
            longest,
        }
    }

    /// The next sleep. The one after it is twice as long, but at most the longest.
    pub fn next_sleep(&mut self) -> Duration
        ensures sleep { as_nanos result ≡ self.old.next * 1_000 }
        ensures next { self.new.next ≡ min (self.old.next * 2) self.old.longest }
        ensures longest { self.new.longest ≡ self.old.longest }
    {
        let sleep = self.next;
        self.next = sleep.saturating_mul(2).min(self.longest);
        Duration::from_micros(sleep)
    }
}
