ghost use Rattle.std.specs.Prelude.{◌≡◌, IfOk};
ghost use Rattle.fj_calls.specs.Cores.{first_hands};

use fj_rules::WorkerId;
use fj_slots::Hand;
use std::alloc::{AllocError, Global};

/// An empty hand for each worker. Worker w begins its scans with the word `start + w`, modulo 2^32.
pub fn new_hands<B: Drop>(
    alloc: Global,
    workers: u32,
    start: u32,
) -> Result<Vec<Hand<B>>, AllocError>
    ensures { IfOk result (λ hands. hands.items ≡ first_hands workers start) }
{
    let mut hands = Vec::with_capacity(alloc, workers as usize)?;
    for w in 0..workers {
        hands.push(Hand::new(alloc, WorkerId(w), start.wrapping_add(w))?)?;
    }
    Ok(hands)
}
