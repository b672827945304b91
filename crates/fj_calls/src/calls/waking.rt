ghost use Rattle.std.specs.Prelude.{◌≡◌};

use crate::calls::view::CoreView;
use crate::to_wake::ToWake;
use fj_body::Body;

/// Who is to be woken at a core.
pub trait CoreWaking<B: Body>: CoreView<B> {
    /// Puts into `due` who is to be woken by all that was done since the last call, if anybody is.
    fn take_due(&mut self, due: &mut ToWake)
        ensures { Self.state self.new ≡ Self.state self.old };

    /// A task was queued that no worker is awake for: one is to be woken, one that rests where any does.
    fn wake_one(&mut self)
        ensures { Self.state self.new ≡ Self.state self.old };

    /// Several tasks were queued: all workers are to be woken.
    fn wake_workers(&mut self)
        ensures { Self.state self.new ≡ Self.state self.old };

    /// The pool has terminated: everybody is to be woken.
    fn wake_all(&mut self)
        ensures { Self.state self.new ≡ Self.state self.old };
}
