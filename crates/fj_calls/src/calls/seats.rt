ghost use Rattle.std.specs.Prelude.{◌≡◌, true};
ghost use Rattle.fj_calls.specs.Cores.{is_awaited};

use crate::calls::view::CoreView;
use fj_body::Body;
use fj_gate::Ticket;

/// Which callers wait at a core.
pub trait CoreSeats<B: Body>: CoreView<B> {
    /// A caller awaits this outcome: at which seat, or at none where all are taken. Precondition: it is still to come.
    fn sit(&mut self, ticket: Ticket) -> Option<usize>
        requires { is_awaited (Self.state self.old) ticket ≡ true }
        ensures { Self.state self.new ≡ Self.state self.old };

    /// A caller awaits the first of several outcomes, without a seat.
    fn sit_for_any(&mut self)
        ensures { Self.state self.new ≡ Self.state self.old };

    /// The caller that sat there is back.
    fn stand_up(&mut self, seat: Option<usize>)
        ensures { Self.state self.new ≡ Self.state self.old };
}
