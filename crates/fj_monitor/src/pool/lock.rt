//! How the lock is taken and released.
use crate::pool::Pool;
use fj_body::Body;
use fj_calls::{CoreView, CoreWaking, ToWake};
use fj_guarded::Naming;
use fj_parts::Locked;
use fj_sleep::Contention;
use std::sync::{MutexGuard, Wait};
use std::{hint, thread};

/// How often a thread tries the lock before it blocks.
const LOOKS: u32 = 64;

/// A wait of this many pauses of the processor, or more, also yields.
const LONG_WAIT: u32 = 1_024;

impl<B: Body, N: Naming, C: CoreView<B>> Pool<B, N, C> {
    /// Takes the lock. A thread that mostly finds it held backs off longer between tries.
    pub(crate) fn lock_for_work<R: Wait>(
        &self,
        rt: &R,
        contention: &mut Contention,
    ) -> MutexGuard<'_, Locked<B, N, C>> {
        for before in 0..LOOKS {
            if let Some(guard) = self.core.try_lock() {
                contention.find_free();
                return guard;
            }
            wait_for(contention.find_held(before));
        }
        self.core.lock(rt)
    }

    /// Takes the lock for a caller from outside, without a memory of contention.
    pub(crate) fn lock<R: Wait>(&self, rt: &R) -> MutexGuard<'_, Locked<B, N, C>> {
        self.lock_for_work(rt, &mut Contention::new())
    }
}

impl<B: Body, N: Naming, C: CoreWaking<B>> Pool<B, N, C> {
    /// Releases the lock, and notifies the threads that are due.
    pub(crate) fn release(&self, mut guard: MutexGuard<'_, Locked<B, N, C>>) {
        let mut due = ToWake::nobody();
        let core = &mut *guard;
        core.take_due(&mut due);
        unlock(guard);
        self.wake_due(&mut due);
    }
}

/// Lets the lock go: a drop of a guard is expensive to verify, so there is only this one.
#[inline(always)]
pub(crate) fn unlock<B: Body, N: Naming, C: CoreView<B>>(guard: MutexGuard<'_, Locked<B, N, C>>) {
    drop(guard);
}

/// Waits for `pauses` pauses of the processor.
fn wait_for(pauses: u32) {
    for _pause in 0..pauses {
        hint::spin_loop();
    }
    if pauses >= LONG_WAIT {
        thread::yield_now();
    }
}
