ghost use Rattle.std.specs.Prelude.{◌≡◌, ◌↔◌, IsTrue};
ghost use Rattle.fj_body.specs.Fitting.{Fits};

use crate::store::Store;
use fj_body::Body;
use fj_rules::Serial;
use fj_slots::Hand;

impl<B: Body> Store<B> {
    /// Whether the bodies and the hook of a hand have the task numbers that the machine has for its worker.
    pub fn fits(&self, hand: &Hand<B>) -> bool
        ensures { IsTrue result ↔ Fits self.now.past hand.now }
    {
        let w = hand.worker();
        let limits = self.machine.limits();
        w.0 < limits.workers()
            && hand.holds(self.machine.stack(w))
            && is_same(hand.hooked(), self.machine.hook(w))
    }
}

/// Whether both are the same, or both are none.
fn is_same(held: Option<Serial>, known: Option<Serial>) -> bool
    ensures { IsTrue result ↔ (held ≡ known) }
{
    match (held, known) {
        (Some(t), Some(u)) => t == u,
        (None, None) => true,
        _ => false,
    }
}
