ghost use Rattle.std.specs.Prelude.{◌≡◌, IfOk, length, vec_len};
ghost use Rattle.fj_submitter.specs.Lanes.{lanes_of};
ghost use Rattle.fj_submitter.specs.Seats.{AreAll};

mod ending;
mod lock;
mod outcomes;
mod outside;
mod work;

use crate::condvars::Condvars;
use fj_body::Body;
use fj_calls::{CoreQueries, CoreView, ToWake};
use fj_guarded::{Log, Naming};
use fj_parts::{Closer, Hand, Locked, Named, Parts, Submitter};
use fj_rules::OutOfMemory;
use std::alloc::Global;
use std::marker::PhantomData;
use std::sync::Mutex;

/// A pool: its core under one lock, and the condition variables. Threads share it; each worker brings its own hand. It follows
/// `ForkJoinPool`.
#[derive(Drop)]
pub struct Pool<B: Body, N: Naming, C: CoreView<B>> {
    pub(crate) alloc: Global,
    pub(crate) core: Mutex<Locked<B, N, C>>,
    pub(crate) shell: Shell<N>,
    pub(crate) log: Log<B, N>,
}

/// What is around the lock: the number of lanes, and where threads wait.
#[derive(Drop)]
pub(crate) struct Shell<N: Naming> {
    pub(crate) lanes: usize,
    ghost counted: { lanes ≡ length N.lanes },
    pub(crate) condvars: Condvars,
    ghost as_many: { vec_len condvars.workers ≡ length N.hands },
    pub(crate) of: PhantomData<N>,
}

/// An opened pool with its handles: a hand for each worker, a submitter for each submitter, and the closer.
pub type Opened<B, N, C> = (
    Pool<B, N, C>,
    Vec<Hand<B, N>>,
    Vec<Submitter<B, N>>,
    Closer<N>,
);

impl<B: Body, N: Naming, C: CoreQueries<B> + Drop> Pool<B, N, C> {
    /// Opens a pool under a name, with a hand for each worker and a submitter for each submitter, in order, and the closer.
    ///
    /// `OutOfMemory` if an allocation fails. Precondition: the name is that of these parts.
    pub fn open(alloc: Global, parts: Parts<B, C>) -> Result<Opened<B, N, C>, OutOfMemory>
        requires gate { N.gate ≡ parts.closer.gate }
        requires lanes { N.lanes ≡ lanes_of parts.core.lanes }
        requires pool { N.pool ≡ parts.core.store.past.pool }
        requires hands { N.hands ≡ parts.pairs }
        requires log { N.log ≡ parts.log }
        ensures hands { IfOk result (λ r. r.1.items ≡ parts.hands) }
        ensures submitters { IfOk result (λ r. r.2.items ≡ parts.seats) }
        ensures closer { IfOk result (λ r. r.3 ≡ parts.closer) }
        ensures all { IfOk result (λ r. AreAll (length N.lanes) r.2.items) }
    {
        let named = parts.named::<N>(alloc)?;
        let Ok(condvars) = Condvars::new(alloc, named.hands.len()) else {
            // Explicit drops are proved faster.
            drop(named);
            return Err(OutOfMemory);
        };
        let Named {
            locked,
            log,
            hands,
            submitters,
            closer,
        } = named;
        let pool = Pool {
            alloc,
            core: Mutex::new(locked),
            shell: Shell {
                lanes: submitters.len(),
                condvars,
                of: PhantomData,
            },
            log,
        };
        Ok((pool, hands, submitters, closer))
    }
}

impl<B: Body, N: Naming, C: CoreView<B>> Pool<B, N, C> {
    /// Notifies these threads, if there are any, and clears `due`.
    #[inline(always)]
    fn wake_due(&self, due: &mut ToWake) {
        if !due.is_nobody() {
            self.shell.condvars.wake(due);
            *due = ToWake::nobody();
        }
    }
}
