ghost use Rattle.std.specs.Prelude.{◌≡◌, IfSome, false};
ghost use Rattle.fj_slots.specs.Hands.{asker};
ghost use Rattle.fj_body.specs.Fitting.{Fits};
ghost use Rattle.fj_body.specs.Endings.{EndsBody, EndsOk, ending_in};
ghost use Rattle.fj_body.specs.HookEndings.{EndsHook};

use crate::due::Due;
use crate::keep::keep_unless_taken;
use crate::moves::{make, sweep_since, take_begun};
use crate::places::is_gone_now;
use crate::release::release_due;
use crate::store::Store;
use fj_body::{BareEnding, Body, KeptResult, Told, as_ending};
use fj_rules::{Ending, Said, Step};
use fj_slots::Hand;

impl<B: Body> Store<B> {
    /// The body of the running plain task ends, with its result. Preconditions: the hand fits, and the result is right for its body's key.
    ///
    /// The body of a completer hears `NotCompleter`. If the history has no room the store gets stuck, here and in the next two.
    #[inline(always)]
    pub(crate) fn ok(&mut self, hand: &mut Hand<B>, out: B::Out) -> Told<B>
        requires free { self.old.stuck ≡ false }
        requires fits { Fits self.old.past hand.old }
        requires right { IfSome (asker hand.old) (λ b. ∥ B.right (B.key_of b.1) out ∥₁) }
        ensures ends { EndsOk B.key_of self.old hand.old out result self.new hand.new }
        ensures fits { Fits self.new.past hand.new }
    {
        match self.machine.step(&Step::End {
            w: hand.worker(),
            ending: Ending::Ok,
        }) {
            Said::Done => {
                let (t, body) = hand.pop();
                let kept = KeptResult::new(body.into_key(), out);
                keep_unless_taken(&mut self.results, &self.taken, t, kept);
                let due = Due::One(t);
                release_due(&mut self.machine, &mut self.taken, &mut self.stuck, due);
                Told::Over(None)
            }
            Said::Refused(refusal) => self.refused(refusal),
            _ => unreachable!(),
        }
    }

    /// The running body ends without a result: `Quiet`, `Try`, `Pass`, `Complete` or `Fail`. Precondition: the hand fits.
    ///
    /// If the hook of its own task begins, the body stays in the hand to run it. If not, the body is returned if its task is gone, and stored
    /// if that is open. The body of a plain task hears `NotCompleter`, except for `Fail`.
    pub(crate) fn end(&mut self, hand: &mut Hand<B>, bare: BareEnding) -> Told<B>
        requires free { self.old.stuck ≡ false }
        requires fits { Fits self.old.past hand.old }
        ensures ends { EndsBody self.old hand.old (ending_in bare) result self.new hand.new }
        ensures fits { Fits self.new.past hand.new }
    {
        let asked = Step::End {
            w: hand.worker(),
            ending: as_ending(bare),
        };
        let said = make(&mut self.machine, &mut self.bodies, &asked);
        if let Said::Refused(refusal) = said {
            return self.refused(refusal);
        }
        let (t, body) = hand.pop();
        let told = if let Said::Hook(c) = said {
            hand.give_hook(t, body);
            Told::Hook(c, c)
        } else if is_gone_now(&self.machine, t) {
            Told::Over(Some(body))
        } else {
            self.bodies.put(t, body);
            Told::Over(None)
        };
        let due = Due::One(t);
        release_due(&mut self.machine, &mut self.taken, &mut self.stuck, due);
        told
    }

    /// The hook in the hand ends, with its result: `CountedCompleter.onCompletion` has returned. Preconditions: the hand fits, and the result
    /// is right for the key of the hook's body.
    ///
    /// If the hook of its parent begins, the parent's body moves into the hand to run it. A hand without a hook hears `NotRunning`.
    pub(crate) fn hook_done(&mut self, hand: &mut Hand<B>, out: B::Out) -> Told<B>
        requires free { self.old.stuck ≡ false }
        requires fits { Fits self.old.past hand.old }
        requires right { IfSome hand.old.hook (λ b. ∥ B.right (B.key_of b.1) out ∥₁) }
        ensures ends { EndsHook B.key_of self.old hand.old out result self.new hand.new }
        ensures fits { Fits self.new.past hand.new }
    {
        let w = hand.worker();
        // For the proof: no hand has two hooks.
        let _hook = self.machine.hook(w);
        let before = self.machine.gone().len();
        let said = self.machine.step(&Step::HookDone { w });
        if let Said::Refused(refusal) = said {
            return self.refused(refusal);
        }
        let begun = take_begun(&mut self.bodies, said);
        sweep_since(&mut self.bodies, &self.machine, before);
        let (c, body) = hand.take_hook();
        let kept = KeptResult::new(body.into_key(), out);
        keep_unless_taken(&mut self.results, &self.taken, c, kept);
        let due = Due::One(c);
        release_due(&mut self.machine, &mut self.taken, &mut self.stuck, due);
        match begun {
            Some((p, above)) => {
                hand.give_hook(p, above);
                Told::Hook(p, c)
            }
            None => Told::Over(None),
        }
    }
}
