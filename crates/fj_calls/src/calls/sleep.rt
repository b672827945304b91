ghost use Rattle.std.specs.Prelude.{◌≡◌};

use crate::calls::view::CoreView;
use fj_body::Body;
use fj_rules::WorkerId;

/// Which workers of a core sleep.
pub trait CoreSleep<B: Body>: CoreView<B> {
    /// A worker is back from its sleep.
    fn come_back(&mut self, worker: WorkerId)
        ensures { Self.state self.new ≡ Self.state self.old };

    /// A worker has something to do after a sleep. If it was the lookout, another one that rests is from now on, and is to be woken.
    fn begin(&mut self, worker: WorkerId)
        ensures { Self.state self.new ≡ Self.state self.old };

    /// A worker found nothing to do, and rests: until a task is queued, or, if it is the lookout, until it looks again.
    fn rest(&mut self, worker: WorkerId)
        ensures { Self.state self.new ≡ Self.state self.old };

    /// Whether this worker, which has nothing to do, looks for work now and then.
    fn is_lookout(&self, worker: WorkerId) -> bool;
}
