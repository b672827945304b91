ghost use Rattle.std.specs.Prelude.{◌≡◌, ◌<◌};
ghost use Rattle.fj_calls.specs.Intakes.{Intakes};
ghost use Rattle.fj_calls.specs.Sealing.{SealsCore, holds_back, may_be_sealed};

use crate::calls::view::CoreView;
use crate::taken_in::Intake;
use fj_body::Body;
use fj_rules::{Refusal, SubId};
use std::alloc::Global;

/// What a look at the lanes does to a core. Each call marks who is to be woken by it.
pub trait CoreLanes<B: Body>: CoreView<B> {
    /// Takes the next parcel of a submitter in. No worker is woken for its task: that is the caller's, who may run it itself. Precondition: the
    /// submitter exists.
    fn intake(&mut self, s: SubId) -> Intake
        requires { s < (Self.state self.old).store.past.pool.limits.submitters }
        ensures intakes { Intakes B.rooted_as (Self.state self.old) s result (Self.state self.new) }
        ensures pool { (Self.state self.new).store.past.pool ≡ (Self.state self.old).store.past.pool };

    /// Seals the history. Nobody waits for that.
    fn seal(&mut self, alloc: Global) -> Result<(), Refusal>
        ensures seals { SealsCore (Self.state self.old) result (Self.state self.new) }
        ensures pool { (Self.state self.new).store.past.pool ≡ (Self.state self.old).store.past.pool };

    /// Whether a worker that looks for work seals first.
    fn is_seal_due(&self) -> bool
        ensures { result ≡ may_be_sealed (Self.state self.now).store.past };

    /// Whether nothing is to be taken in before the next seal.
    fn holds_back(&self) -> bool
        ensures { result ≡ holds_back (Self.state self.now) };
}
