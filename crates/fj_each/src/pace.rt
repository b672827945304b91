use std::time::{Clock, Instant};

/// How long a loop runs on the calling thread at least, in nanoseconds: before that its pace is unknown.
const SAMPLE: u64 = 50_000;

/// How long what is left has to take for a pool to be made, in nanoseconds: a pool of four workers costs a third of that.
const WORTH: u64 = 500_000;

/// How fast a loop runs, to decide whether a pool is worth making.
#[derive(Drop)]
pub struct Pace<'r, R> {
    clock: &'r R,
    /// When it began. None where the clock cannot be read.
    start: Option<Instant>,
}

impl<'r, R: Clock> Pace<'r, R> {
    /// Starts now.
    pub fn start(clock: &'r R) -> Pace<'r, R> {
        Pace {
            clock,
            start: Instant::now(clock).ok(),
        }
    }

    /// Whether a pool should do what is left, after `done` items, with `left` to go. True where the clock cannot be read.
    pub fn is_worth_a_pool(&self, done: usize, left: usize) -> bool {
        let Some(start) = self.start else {
            return true;
        };
        let Ok(elapsed) = start.elapsed(self.clock) else {
            return true;
        };
        let nanos = u64::try_from(elapsed.as_nanos()).unwrap_or(u64::MAX);
        nanos >= SAMPLE && nanos.saturating_mul(left as u64) >= WORTH.saturating_mul(done as u64)
    }
}
