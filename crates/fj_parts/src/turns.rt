ghost use Rattle.std.specs.Prelude.{IfSome};
ghost use Rattle.fj_body.specs.Turns.{HeardRight};
ghost use Rattle.fj_guarded.specs.Turning.{MayAsk, TakesTurn};

use fj_body::{Ask, Body, Heard};
use fj_slots::Hand;

/// The hook of a hand, or else its running body, takes a turn. None if the hand is empty.
#[inline(always)]
pub fn take_turn<B: Body>(hand: &mut Hand<B>, heard: Heard<B>) -> Option<Ask<B>>
    requires { HeardRight B.right heard }
    ensures takes { TakesTurn B.key_of B.moves hand.old heard result hand.new }
    ensures asks { IfSome result (λ ask. MayAsk B.right B.key_of hand.new ask) }
{
    if hand.hooked().is_some() {
        let (c, mut body) = hand.take_hook();
        let ask = body.turn(heard);
        hand.give_hook(c, body);
        return Some(ask);
    }
    if hand.is_empty() {
        return None;
    }
    let (t, mut body) = hand.pop();
    let ask = body.turn(heard);
    hand.push(t, body);
    Some(ask)
}
