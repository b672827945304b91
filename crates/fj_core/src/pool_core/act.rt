//! Requests of a running body or a hook.
ghost use Rattle.std.specs.Prelude.{◌↔◌, IfSome, IsSome, IsTrue};
ghost use Rattle.fj_slots.specs.Hands.{asker};
ghost use Rattle.fj_body.specs.Acting.{Acts};
ghost use Rattle.fj_body.specs.Fitting.{Fits};
ghost use Rattle.fj_body.specs.Stores.{StaysInside};
ghost use Rattle.fj_body.specs.Turns.{AskRight, ToldRight};
ghost use Rattle.fj_calls.specs.Cores.{ChangesStore};

use crate::pool_core::Core;
use fj_body::{Ask, Body, Told};
use fj_slots::Hand;

impl<B: Body> Core<B> {
    /// Serves what the running body or the hook asks: at most one step of the machine, and the releases that follow, which also move bodies.
    ///
    /// A stuck core answers `Stuck`, returns a body that came, and changes nothing. In a hook only `Take` and `HookDone` are served; any
    /// other ask hears `NotIdle`, gets its body back, and changes nothing. `HookDone` without a hook is refused by the machine.
    /// Preconditions: the hand fits and has a body or a hook, and a result that is given is right for the key of the body that asks.
    #[inline(always)]
    pub fn act(&mut self, hand: &mut Hand<B>, ask: Ask<B>) -> Told<B>
        requires fits { Fits self.old.store.past hand.old }
        requires busy { IsSome (asker hand.old) }
        requires right { IfSome (asker hand.old) (λ b. AskRight B.right (B.key_of b.1) ask) }
        ensures acts { Acts B.key_of self.old.store hand.old ask result self.new.store hand.new }
        ensures others { ChangesStore self.old self.new }
        ensures stays { StaysInside self.old.store self.new.store }
        ensures right { ToldRight B.right result }
        ensures fits { Fits self.new.store.past hand.new }
    {
        self.store.act(hand, ask)
    }

    /// Whether the bodies and the hook of a hand have the task numbers that the machine has for its worker.
    pub fn fits(&self, hand: &Hand<B>) -> bool
        ensures { IsTrue result ↔ Fits self.now.store.past hand.now }
    {
        self.store.fits(hand)
    }
}
