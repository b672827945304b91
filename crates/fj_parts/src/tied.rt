//! A worker's hand before it has the name of its pool.
ghost use Rattle.std.specs.Prelude.{◌≡◌, All, IfOk};
ghost use Rattle.fj_parts.specs.Holdings.{AreTied, holding_of, nothing};

use crate::holding::Holding;
use fj_agreement::{End, pair};
use fj_rules::OutOfMemory;
use fj_slots::Hand;
use std::alloc::Global;
use std::marker::Model;

/// A hand with the end that knows what it holds.
#[derive(Drop)]
pub struct Tied<B> {
    pub(crate) held: Hand<B>,
    pub(crate) end: End<Holding>,
}

impl<B> Model for Tied<B> {
    ghost use Rattle.std.specs.Prelude.{◌≡◌};
    ghost use Rattle.fj_parts.specs.Holdings.{TiedState, holding_of};

    ghost Value = { TiedState B };

    ghost view = { λ t. record { hand = t.held; pair = t.end.pair } };

    ghost invariant = { λ t. t.end.value ≡ holding_of t.held };
}

/// Makes a pair of ends for each hand, which gets one of them. Returns the hands, and the other ends in the same order. Precondition: the
/// hands hold nothing.
pub fn tie_all<B: Drop>(
    alloc: Global,
    hands: Vec<Hand<B>>,
) -> Result<(Vec<Tied<B>>, Vec<End<Holding>>), OutOfMemory>
    requires { All (λ h. holding_of h ≡ nothing) hands.items }
    ensures { IfOk result (λ r. AreTied hands.items r.0.items r.1.items) }
{
    let mut tied = Vec::with_capacity(alloc, hands.len())?;
    let mut ends = Vec::with_capacity(alloc, hands.len())?;
    for held in hands {
        let (kept, end) = pair::<Holding>(alloc)?;
        tied.push(Tied { held, end })?;
        ends.push(kept)?;
    }
    Ok((tied, ends))
}
