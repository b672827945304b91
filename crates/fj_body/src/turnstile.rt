ghost use Rattle.std.specs.Prelude.{ℕ};

use fj_rules::{Serial, WorkerId};

/// Observes the workers of a pool, outside the lock: it may block the worker that calls it, for any time. Java has no counterpart;
/// `ForkJoinWorkerThread.onStart` is called once for each thread.
pub trait Turnstile {
    /// That it was called for this worker and this task: only `before` shows it. By default it says nothing.
    ghost passed: { Self → ℕ → ℕ → Type 0 } = { λ _ _ _. Unit {0} };

    /// Worker `w` is about to begin the body of task `t`.
    fn before(&self, w: WorkerId, t: Serial)
        ensures passed { passed self.now w t };

    /// The body of task `t` has taken a turn, by worker `w`, in which it asks for its ending. If that is refused the body goes on, and this is
    /// called again.
    fn after(&self, _w: WorkerId, _t: Serial) {}

    /// Worker `w` has found nothing to do, and is about to rest or to wait in a join. Called each time the worker has looked in vain. If
    /// a task is queued meanwhile, the worker looks again before it sleeps; of what is submitted into a lane only the lookout learns.
    fn idle(&self, _w: WorkerId) {}
}

/// Blocks nobody.
#[derive(Drop)]
pub struct Open;

impl Turnstile for Open {
    fn before(&self, _w: WorkerId, _t: Serial) {}
}
