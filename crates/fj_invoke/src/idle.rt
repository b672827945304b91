use fj_lazy::Signals;
use fj_rules::{Serial, WorkerId};
use fj_run::Turnstile;

/// A turnstile that signals to the bodies of a job which workers are idle, and passes each call on.
#[derive(Drop)]
pub struct IdleWorkers<'s, 't, T> {
    /// What the bodies of the job share.
    pub signals: &'s Signals,
    /// The other observer of the workers.
    pub turnstile: &'t T,
}

impl<T: Turnstile> Turnstile for IdleWorkers<'_, '_, T> {
    ghost passed = { λ i w t. T.passed i.turnstile.now w t };

    fn before(&self, w: WorkerId, t: Serial) {
        self.signals.withdraw(w);
        self.turnstile.before(w, t);
    }

    fn after(&self, w: WorkerId, t: Serial) {
        self.turnstile.after(w, t);
    }

    fn idle(&self, w: WorkerId) {
        self.signals.ask(w);
        self.turnstile.idle(w);
    }
}
