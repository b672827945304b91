ghost use Rattle.std.specs.Prelude.{◌≡◌, IfOk, vec_len};

use fj_calls::ToWake;
use fj_sleep::{MAX_PLACES, Places};
use std::alloc::{AllocError, Global};
use std::sync::Condvar;

/// The condition variables on which the threads of a pool sleep.
#[derive(Drop)]
pub struct Condvars {
    /// Of the workers, by number.
    pub workers: Vec<Condvar>,
    /// Of callers that await an outcome, by seat.
    pub seats: Vec<Condvar>,
    /// Of those without a seat.
    pub crowd: Condvar,
}

impl Condvars {
    /// Those of a pool with `workers` workers. An error only if out of memory.
    pub fn new(alloc: Global, workers: usize) -> Result<Condvars, AllocError>
        ensures { IfOk result (λ c. vec_len c.workers ≡ workers) }
    {
        let workers = several(alloc, workers)?;
        Ok(Condvars {
            workers,
            seats: several(alloc, MAX_PLACES)?,
            crowd: Condvar::new(),
        })
    }

    /// That of a thread with this seat, or without one.
    pub fn seat(&self, seat: Option<usize>) -> &Condvar {
        match seat.and_then(|place| self.seats.get(place)) {
            Some(condvar) => condvar,
            None => &self.crowd,
        }
    }

    /// Notifies these threads.
    pub fn wake(&self, due: &ToWake) {
        if let Some(places) = &due.workers {
            notify(&self.workers, places);
        }
        if let Some(places) = &due.seats {
            notify(&self.seats, places);
        }
        if due.crowd {
            self.crowd.notify_all();
        }
    }
}

/// `count` condition variables.
fn several(alloc: Global, count: usize) -> Result<Vec<Condvar>, AllocError>
    ensures { IfOk result (λ v. vec_len v ≡ count) }
{
    let mut condvars = Vec::with_capacity(alloc, count)?;
    for _place in 0..count {
        condvars.push(Condvar::new())?;
    }
    Ok(condvars)
}

/// Notifies the threads at these places.
fn notify(condvars: &[Condvar], places: &Places) {
    for (place, condvar) in condvars.iter().enumerate() {
        if places.has(place) {
            condvar.notify_one();
        }
    }
}
