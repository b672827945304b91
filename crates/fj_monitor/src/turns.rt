ghost use Rattle.std.specs.Prelude.{IfSome};
ghost use Rattle.fj_body.specs.Turns.{HeardRight};
ghost use Rattle.fj_body.specs.declared.body.Heard.TheVariants.{Start};
ghost use Rattle.fj_guarded.specs.Turning.{AtBegin, FollowsNext, MayAsk, NextRight, TakesTurn};

use fj_body::{Ask, Body, Heard, Turnstile};
use fj_guarded::{Naming, Next};
use fj_parts::Hand;
use fj_rules::Serial;

/// What follows an answer of the core: the turn that hears it, or the first turn of a task, before which the turnstile is called. None if it
/// asks for no turn.
pub fn follow<B: Body, N: Naming, T: Turnstile>(
    next: Next<B>,
    hand: &mut Hand<B, N>,
    turnstile: &T,
) -> Option<Ask<B>>
    requires { NextRight B.right next }
    ensures follows { FollowsNext B.key_of B.moves hand.old next result hand.new }
    ensures passed { AtBegin (T.passed turnstile.now hand.old.worker) next }
    ensures asks { IfSome result (λ ask. MayAsk B.right B.key_of hand.new ask) }
{
    match next {
        Next::Turn(heard) => observed_turn(hand, heard, turnstile),
        Next::Begin(t) => {
            turnstile.before(hand.worker(), t);
            first_turn(hand, t, turnstile)
        }
        Next::Leave(_) | Next::Again | Next::Wait | Next::Rest => None,
    }
}

/// The first turn of a task. Precondition: the turnstile was called for it and its worker.
fn first_turn<B: Body, N: Naming, T: Turnstile>(
    hand: &mut Hand<B, N>,
    t: Serial,
    turnstile: &T,
) -> Option<Ask<B>>
    requires passed { T.passed turnstile.now hand.old.worker t }
    ensures takes { TakesTurn B.key_of B.moves hand.old (Start t) result hand.new }
    ensures asks { IfSome result (λ ask. MayAsk B.right B.key_of hand.new ask) }
{
    observed_turn(hand, Heard::Start(t), turnstile)
}

/// The hook of a hand, or else its running body, takes a turn. If the running body asks for its ending, the turnstile is called after it.
fn observed_turn<B: Body, N: Naming, T: Turnstile>(
    hand: &mut Hand<B, N>,
    heard: Heard<B>,
    turnstile: &T,
) -> Option<Ask<B>>
    requires { HeardRight B.right heard }
    ensures takes { TakesTurn B.key_of B.moves hand.old heard result hand.new }
    ensures asks { IfSome result (λ ask. MayAsk B.right B.key_of hand.new ask) }
{
    let ask = hand.take_turn(heard);
    if let (Some(asked), Some(t)) = (&ask, hand.running()) {
        if is_ending(asked) && hand.hooked().is_none() {
            turnstile.after(hand.worker(), t);
        }
    }
    ask
}

/// Whether a body asks for its ending.
fn is_ending<B: Body>(ask: &Ask<B>) -> bool {
    matches!(
        ask,
        Ask::Ok(_) | Ask::Quiet | Ask::Try | Ask::Pass | Ask::Complete | Ask::Fail(_)
    )
}
