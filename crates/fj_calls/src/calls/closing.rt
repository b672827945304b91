ghost use Rattle.std.specs.Prelude.{◌≡◌};
ghost use Rattle.fj_calls.specs.Closes.{ShutsAt, closed_at, stopped_at};

use crate::calls::view::CoreView;
use fj_body::Body;

/// How a core is closed. Each call marks everybody as to be woken.
pub trait CoreClosing<B: Body>: CoreView<B> {
    /// Sets the closing number, at which the Shutdown is made.
    fn close_at(&mut self, number: u64)
        ensures shuts { ShutsAt (Self.state self.old) (closed_at (Self.state self.old).closing number) (Self.state self.new) }
        ensures pool { (Self.state self.new).store.past.pool ≡ (Self.state self.old).store.past.pool };

    /// Sets the closing number, at which the Stop is made.
    fn stop_at(&mut self, number: u64)
        ensures shuts { ShutsAt (Self.state self.old) (stopped_at (Self.state self.old).closing number) (Self.state self.new) }
        ensures pool { (Self.state self.new).store.past.pool ≡ (Self.state self.old).store.past.pool };
}
