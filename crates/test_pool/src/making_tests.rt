ghost use Rattle.std.specs.Prelude.{◌≡◌};
ghost use Rattle.fj_submitter.specs.Lanes.{lanes_of};

use fj_invoke::{BlockedRange, Limits, Mode, RangeSum, Recursive};
use fj_pool::{Closer, Naming, Parts, Pool, Rest, Submitter};
use std::alloc::{AllocError, Global};
use std::marker::Brand;
use std::test::Fail;

/// The bodies of the pool.
type Sum = Recursive<RangeSum>;

/// Submits three bodies with each submitter.
fn hand_in<N: Naming>(
    alloc: Global,
    submitters: &mut [Submitter<Sum, N>],
) -> Result<(), AllocError> {
    for submitter in submitters {
        for number in 1..=3 {
            let range = BlockedRange::new(number, number, 1);
            let body = Recursive::new(alloc, RangeSum { range })?;
            let _answer = submitter.submit(body);
        }
    }
    Ok(())
}

/// How many bodies are left in the lanes, none of which has more than three.
fn count(lanes: Vec<Rest<Sum>>) -> u64 {
    let mut bodies = 0u64;
    for mut lane in lanes {
        for _ in 0..3 {
            if lane.next().is_some() {
                bodies = bodies.saturating_add(1);
            }
        }
    }
    bodies
}

/// Winds the pool up: how many bodies were admitted, and how many are left in the lanes. None where these are not all its submitters.
fn wound_up<N: Naming>(
    pool: Pool<Sum, N>,
    submitters: Vec<Submitter<Sum, N>>,
    closer: Closer<N>,
) -> Option<(u64, u64)> {
    if pool.are_all(submitters.as_slice()) {
        let record = pool.wind_up(submitters, closer);
        return Some((record.admitted, count(record.lanes)));
    }
    None
}

/// Opens a pool, submits bodies while no worker runs, and winds it up, as `wound_up`.
/// Preconditions: the name is that of the parts.
fn handed_in<N: Naming>(alloc: Global, parts: Parts<Sum>) -> Result<Option<(u64, u64)>, Fail>
    requires gate { N.gate ≡ parts.closer.gate }
    requires lanes { N.lanes ≡ lanes_of parts.core.lanes }
    requires pool { N.pool ≡ parts.core.store.past.pool }
    requires hands { N.hands ≡ parts.pairs }
    requires log { N.log ≡ parts.log }
{
    let (pool, _hands, mut submitters, closer) = Pool::<Sum, N>::open(alloc, parts)?;
    let handed = hand_in(alloc, &mut submitters);
    // The pool is given away before an error ends the function, so that its drop is proved at one place.
    let found = wound_up(pool, submitters, closer);
    handed?;
    Ok(found)
}

/// A pool is made, with lanes of two bodies, and wound up. `tests/refused_memory/makings.sh` makes its allocations fail.
#[test]
fn a_pool_is_made_and_wound_up(rt: HostRuntime) -> Result<(), Fail> {
    let limits = Limits::new(2, 2, 8, 32)?;
    let parts = Parts::new(rt.alloc(), Mode::Async, limits, 2, 0)?;
    assert_eq!(rt; handed_in::<Brand>(rt.alloc(), parts)?, Some((4, 4)));
    Ok(())
}
