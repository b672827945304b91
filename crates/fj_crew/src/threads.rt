ghost use Rattle.std.specs.Prelude.{IsSome};

use crate::crew::{Caller, Crew};
use std::alloc::{AllocError, Global};
use std::sync::{Mutex, Wait};
use std::thread;
use std::thread::{Builder, Scope, Threads};

/// What the threads of a crew share.
#[derive(Drop)]
pub struct Shared<'c, 'r, C, R> {
    /// The crew.
    pub crew: &'c C,
    /// The runtime, for threads and waits.
    pub rt: &'r R,
}

impl<C, R: Wait> Shared<'_, '_, C, R> {
    /// What one worker does, with its hand.
    fn work_as<H: Drop>(&self, worker: usize, hands: &Mutex<Vec<H>>)
    where
        C: Crew<H>,
    {
        let taken = self.take_hand(worker, hands);
        if let Some(mut hand) = taken {
            self.crew.work(&mut hand);
        }
    }

    /// The hand of this worker, if no thread has it yet.
    fn take_hand<H: Drop>(&self, worker: usize, hands: &Mutex<Vec<H>>) -> Option<H>
    where
        C: Crew<H>,
    {
        let mut guard = hands.lock(self.rt);
        let all = &mut *guard;
        let place = all
            .iter()
            .position(|hand| self.crew.number_of(hand) == worker)?;
        Some(all.swap_remove(place))
    }
}

/// The builder of a worker's thread, with a name that tools such as `top -H` show, as `fj-worker-3`; without one if out of memory.
fn thread_of(alloc: Global, worker: usize) -> Builder {
    let name: Result<String, AllocError> = format!(in alloc; "fj-worker-{worker}");
    match name {
        Ok(name) => Builder::new().name(name),
        Err(_) => Builder::new(),
    }
}

/// Runs the caller while a thread works with each hand. If a thread cannot be started, no further one is. Precondition: the hands are those
/// of the workers from 0 on; one of another worker stays unused.
pub fn run_all<H: Drop + Send, C: Crew<H> + Sync, M: Caller + Drop, R: Threads + Wait + Sync>(
    alloc: Global,
    shared: &Shared<C, R>,
    hands: Vec<H>,
    caller: M,
) -> M::Out {
    let workers = hands.len();
    run_beside(alloc, shared, &Mutex::new(hands), workers, caller)
}

/// The same, with the hands of so many workers under a lock.
fn run_beside<H: Drop + Send, C: Crew<H> + Sync, M: Caller + Drop, R: Threads + Wait + Sync>(
    alloc: Global,
    shared: &Shared<C, R>,
    hands: &Mutex<Vec<H>>,
    workers: usize,
    caller: M,
) -> M::Out {
    let mut given = Some(caller);
    thread::scope(
        thread::scope_env(),
        shared.rt,
        |scope|
            requires { IsSome given }
        {
            let all = start_all(scope, alloc, shared, hands, workers);
            match given.take() {
                Some(caller) => caller.run(all),
                None => unreachable!(),
            }
        },
    )
}

/// Starts a thread for each worker. False if one cannot be started; then no further one is.
fn start_all<'s, E, H: Drop + Send, C: Crew<H> + Sync, R: Threads + Wait + Sync>(
    scope: &Scope<'s, E>,
    alloc: Global,
    shared: &'s Shared<'_, '_, C, R>,
    hands: &'s Mutex<Vec<H>>,
    workers: usize,
) -> bool {
    for worker in 0..workers {
        let started = thread_of(alloc, worker).spawn_scoped(
            scope,
            move || shared.work_as(worker, hands),
        );
        if started.is_err() {
            return false;
        }
    }
    true
}
