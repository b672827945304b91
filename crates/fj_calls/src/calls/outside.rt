ghost use Rattle.std.specs.Prelude.{◌≡◌, IfNone, true};
ghost use Rattle.fj_body.specs.Stores.{StaysInside};
ghost use Rattle.fj_calls.specs.Cancels.{CancelsTicket};
ghost use Rattle.fj_calls.specs.Cores.{CollectsTicket, is_awaited};

use crate::calls::view::CoreView;
use fj_body::{Body, Outcome};
use fj_gate::Ticket;
use fj_rules::Refusal;

/// What callers from outside ask of a core, under a ticket. Each call marks who is to be woken by it.
pub trait CoreOutside<B: Body>: CoreView<B> {
    /// The outcome under a ticket, if there is one to return, which ends its task; a stuck core returns a refusal.
    fn collect(&mut self, ticket: Ticket) -> Option<Result<Outcome<B>, Refusal>>
        ensures collects { CollectsTicket (Self.state self.old) ticket result (Self.state self.new) }
        ensures stays { StaysInside (Self.state self.old).store (Self.state self.new).store }
        ensures awaited { IfNone result (is_awaited (Self.state self.new) ticket ≡ true) };

    /// Cancels the task under a ticket.
    fn cancel(&mut self, ticket: Ticket) -> Result<bool, Refusal>
        ensures cancels { CancelsTicket (Self.state self.old) ticket result (Self.state self.new) }
        ensures stays { StaysInside (Self.state self.old).store (Self.state self.new).store };
}
