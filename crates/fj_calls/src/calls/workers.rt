ghost use Rattle.std.specs.Prelude.{◌≡◌, [], None, IfSome, IsSome, true};
ghost use Rattle.fj_slots.specs.Hands.{asker};
ghost use Rattle.fj_body.specs.Acting.{Acts};
ghost use Rattle.fj_body.specs.Choosing.{Polls};
ghost use Rattle.fj_body.specs.Fitting.{Fits};
ghost use Rattle.fj_body.specs.Stores.{StaysInside};
ghost use Rattle.fj_body.specs.Turns.{AskRight, ToldRight};
ghost use Rattle.fj_calls.specs.Cores.{ChangesStore};
ghost use Rattle.fj_calls.specs.Joins.{is_joinable};

use crate::calls::view::CoreView;
use fj_body::{Ask, Body, Told};
use fj_rules::{Serial, WorkerId};
use fj_slots::Hand;

/// What workers ask of a core. Each call marks who is to be woken by it.
pub trait CoreWorkers<B: Body>: CoreView<B> {
    /// What the running body or the hook asks. Preconditions: the hand fits and has a body or a hook, and a result that is given is right for
    /// the key of the body that asks.
    fn act(&mut self, hand: &mut Hand<B>, ask: Ask<B>) -> Told<B>
        requires fits { Fits (Self.state self.old).store.past hand.old }
        requires busy { IsSome (asker hand.old) }
        requires right { IfSome (asker hand.old) (λ b. AskRight B.right (B.key_of b.1) ask) }
        ensures acts { Acts B.key_of (Self.state self.old).store hand.old ask result (Self.state self.new).store hand.new }
        ensures others { ChangesStore (Self.state self.old) (Self.state self.new) }
        ensures stays { StaysInside (Self.state self.old).store (Self.state self.new).store }
        ensures right { ToldRight B.right result }
        ensures fits { Fits (Self.state self.new).store.past hand.new };

    /// An idle worker asks for its next task. `Stuck` if the core is stuck, or gets stuck since the history is full.
    /// Preconditions: the hand fits, and has no body and no hook.
    fn poll(&mut self, hand: &mut Hand<B>) -> Told<B>
        requires fits { Fits (Self.state self.old).store.past hand.old }
        requires idle { (hand.old.stack ≡ []) × (hand.old.hook ≡ None) }
        ensures polls { Polls (Self.state self.old).store hand.old result (Self.state self.new).store hand.new }
        ensures others { ChangesStore (Self.state self.old) (Self.state self.new) }
        ensures stays { StaysInside (Self.state self.old).store (Self.state self.new).store }
        ensures fits { Fits (Self.state self.new).store.past hand.new };

    /// Whether a worker may wait for this task: it is kept and undone, and the core is not stuck.
    fn is_joinable(&self, t: Serial) -> bool
        ensures { result ≡ is_joinable (Self.state self.now) t };

    /// A worker waits until this task is done, or another one is queued. Precondition: it may wait for it.
    fn wait_for(&mut self, worker: WorkerId, t: Serial)
        requires { is_joinable (Self.state self.old) t ≡ true }
        ensures { Self.state self.new ≡ Self.state self.old };
}
