//! Requests of a running body or a hook.
ghost use Rattle.std.specs.Prelude.{◌≡◌, IfSome, IsSome, None, false};
ghost use Rattle.fj_slots.specs.Hands.{asker};
ghost use Rattle.fj_body.specs.Acting.{Acts, ActsInBody, ActsInHook, body_with, handed_back};
ghost use Rattle.fj_body.specs.Fitting.{Fits};
ghost use Rattle.fj_body.specs.Turns.{AskRight, ToldRight};

use crate::store::Store;
use fj_body::{Ask, BareEnding, Body, Heard, Told};
use fj_rules::Refusal;
use fj_slots::Hand;

impl<B: Body> Store<B> {
    /// Serves what the running body or the hook asks: at most one step of the machine, and the releases that follow, which also move bodies.
    ///
    /// A stuck store answers `Stuck`, returns a body that came, and changes nothing. In a hook only `Take` and `HookDone` are served; any
    /// other ask hears `NotIdle`, gets its body back, and changes nothing. `HookDone` without a hook is refused by the machine.
    /// Preconditions: the hand fits and has a body or a hook, and a result that is given is right for the key of the body that asks.
    #[inline(always)]
    pub fn act(&mut self, hand: &mut Hand<B>, ask: Ask<B>) -> Told<B>
        requires fits { Fits self.old.past hand.old }
        requires busy { IsSome (asker hand.old) }
        requires right { IfSome (asker hand.old) (λ b. AskRight B.right (B.key_of b.1) ask) }
        ensures acts { Acts B.key_of self.old hand.old ask result self.new hand.new }
        ensures right { ToldRight B.right result }
        ensures fits { Fits self.new.past hand.new }
    {
        if self.is_stuck() {
            return Told::Stuck(body_of(ask));
        }
        if hand.hooked().is_some() {
            self.serve_hook(hand, ask)
        } else {
            self.serve_body(hand, ask)
        }
    }

    /// Serves what a hook asks.
    fn serve_hook(&mut self, hand: &mut Hand<B>, ask: Ask<B>) -> Told<B>
        requires free { self.old.stuck ≡ false }
        requires fits { Fits self.old.past hand.old }
        requires right { IfSome hand.old.hook (λ b. AskRight B.right (B.key_of b.1) ask) }
        ensures acts { ActsInHook B.key_of self.old hand.old ask result self.new hand.new }
        ensures right { ToldRight B.right result }
        ensures fits { Fits self.new.past hand.new }
    {
        match ask {
            Ask::Take(t) => self.take(t),
            Ask::HookDone(out) => self.hook_done(hand, out),
            other => hand_back(body_of(other)),
        }
    }

    /// Serves what a running body asks.
    #[inline(always)]
    fn serve_body(&mut self, hand: &mut Hand<B>, ask: Ask<B>) -> Told<B>
        requires free { self.old.stuck ≡ false }
        requires fits { Fits self.old.past hand.old }
        requires bare { hand.old.hook ≡ None }
        requires right { IfSome (asker hand.old) (λ b. AskRight B.right (B.key_of b.1) ask) }
        ensures acts { ActsInBody B.key_of self.old hand.old ask result self.new hand.new }
        ensures right { ToldRight B.right result }
        ensures fits { Fits self.new.past hand.new }
    {
        let w = hand.worker();
        match ask {
            Ask::Fork(body, kind) => self.fork(w, &kind, body),
            Ask::Trigger(body, count) => self.trigger(w, count, body),
            Ask::Join(t) => self.join(hand, t),
            Ask::Help => self.help(hand),
            Ask::Take(t) => self.take(t),
            Ask::Release(t) => self.release(t),
            Ask::Add(c, n) => self.add(w, c, n),
            Ask::QuietRoot(t) => self.quiet_root(w, t),
            Ask::Cancel(t) => self.cancel(t),
            Ask::Fault(t, code) => self.fault(t, code),
            Ask::State(t) => self.state(t),
            Ask::Ok(out) => self.ok(hand, out),
            Ask::Quiet => self.end(hand, BareEnding::Quiet),
            Ask::Try => self.end(hand, BareEnding::Try),
            Ask::Pass => self.end(hand, BareEnding::Pass),
            Ask::Complete => self.end(hand, BareEnding::Complete),
            Ask::Fail(code) => self.end(hand, BareEnding::Fail(code)),
            Ask::HookDone(out) => self.hook_done(hand, out),
        }
    }
}

/// The body that comes with an ask.
fn body_of<B: Body>(ask: Ask<B>) -> Option<B>
    ensures { result ≡ body_with ask }
{
    match ask {
        Ask::Fork(body, _) => Some(body),
        Ask::Trigger(body, _) => Some(body),
        _ => None,
    }
}

/// The answer to an ask that is not served, with the body that came.
fn hand_back<B: Body>(body: Option<B>) -> Told<B>
    ensures is { result ≡ handed_back body }
    ensures right { ToldRight B.right result }
{
    match body {
        Some(body) => Told::Hear(Heard::Handed(body, Refusal::NotIdle)),
        None => Told::Hear(Heard::Refused(Refusal::NotIdle)),
    }
}
