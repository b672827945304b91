ghost use Rattle.std.specs.Prelude.{◌≡◌};

use fj_rules::WorkerId;
use fj_sleep::Places;

/// Who is to be woken once the lock is free. Java has no counterpart: there each waiting thread is signalled where its task ends.
#[derive(Drop)]
pub struct ToWake {
    /// Workers, by their numbers.
    pub workers: Option<Places>,
    /// Callers that await outcomes, by their seats.
    pub seats: Option<Places>,
    /// All callers that await an outcome without a seat.
    pub crowd: bool,
}

impl ToWake {
    /// Nobody.
    pub fn nobody() -> ToWake {
        ToWake {
            workers: None,
            seats: None,
            crowd: false,
        }
    }

    /// Whether that is nobody.
    #[inline(always)]
    pub fn is_nobody(&self) -> bool {
        self.workers.is_none() && self.seats.is_none() && !self.crowd
    }
}

/// The place of a worker.
#[inline(always)]
pub fn place_of(worker: WorkerId) -> usize
    ensures { result ≡ worker }
{
    worker.0 as usize
}
