ghost use Rattle.std.specs.Prelude.{◌≡◌};

use crate::number::Number;
use fj_agreement::*;
use std::marker::{Brand, Model, PhantomData};
use std::sync::{Mutex, Wait};
use std::test::*;
use std::thread;
use std::thread::Threads;

const ROUNDS: u32 = 2000;

/// Names the pair of which the lock guards one end: so by its type a thread is known to bring the other end.
trait Named {
    ghost use Rattle.atomic_table.specs.Seated.{TableId};

    ghost pair: { TableId };
}

impl Named for Brand {
    ghost use Rattle.std.specs.Prelude.{[]};

    ghost pair = { record { words = 0; slots = 0; views_name = 0; atom = 0; block = 0; offset = 0; slot_names = [] } };
}

/// What one thread at a time has outside the lock: a count, and an end that knows it.
#[derive(Drop)]
struct Hand<N: Named> {
    count: u64,
    end: End<Number>,
    of: PhantomData<N>,
}

impl<N: Named> Model for Hand<N> {
    ghost use Rattle.std.specs.Prelude.{◌≡◌, ℕ};

    ghost Value = { ℕ };

    ghost view = { λ h. h.count };

    ghost invariant = { λ h. (h.end.pair ≡ N.pair) × (h.end.value ≡ h.count) };
}

/// What the lock guards: a count of its own, with the other end, and the hand while no thread has it.
#[derive(Drop)]
struct Kept<N: Named> {
    count: u64,
    end: End<Number>,
    hand: Option<Hand<N>>,
    of: PhantomData<N>,
}

impl<N: Named> Model for Kept<N> {
    ghost use Rattle.std.specs.Prelude.{◌≡◌, ℕ};

    ghost Value = { ℕ };

    ghost view = { λ k. k.count };

    ghost invariant = { λ k. (k.end.pair ≡ N.pair) × (k.end.value ≡ k.count) };
}

/// Increments both counts. They were the same: nobody has counted under the lock without the hand.
fn count<N: Named>(kept: &mut Kept<N>, hand: &mut Hand<N>)
    ensures same { kept.old ≡ hand.old }
    ensures still { kept.new ≡ hand.new }
{
    kept.end.meet(&mut hand.end);
    kept.count = kept.count.wrapping_add(1);
    hand.count = hand.count.wrapping_add(1);
    kept.end.agree_on(&mut hand.end, &hand.count);
}

/// The hand, if no thread has it.
fn take_hand<N: Named>(rt: &impl Wait, kept: &Mutex<Kept<N>>) -> Option<Hand<N>> {
    let mut kept = kept.lock(rt);
    let kept = &mut *kept;
    kept.hand.take()
}

/// Counts with the hand, and gives it back.
fn count_with<N: Named>(rt: &impl Wait, kept: &Mutex<Kept<N>>, mut hand: Hand<N>) {
    let mut kept = kept.lock(rt);
    let kept = &mut *kept;
    count(kept, &mut hand);
    kept.hand = Some(hand);
}

/// Takes the hand, keeps it outside the lock for a while, and counts, again and again. Returns how often it had it.
fn take_turns<N: Named>(rt: &impl Wait, kept: &Mutex<Kept<N>>) -> u64 {
    let mut turns = 0u64;
    for _ in 0..ROUNDS {
        match take_hand(rt, kept) {
            Some(hand) => {
                thread::yield_now();
                count_with(rt, kept, hand);
                turns = turns.wrapping_add(1);
            }
            None => thread::yield_now(),
        }
    }
    turns
}

/// What two threads count that pass one end back and forth: the turns of each, the count under the lock, and that of the hand.
fn race<N: Named + Send + Drop, R: Threads + Wait + Sync>(
    rt: &R,
    one: End<Number>,
    other: End<Number>,
) -> (u64, u64, u64, Option<u64>)
    requires pair { (one.pair ≡ N.pair) × (other.pair ≡ N.pair) }
    requires value { (one.value ≡ 0) × (other.value ≡ 0) }
{
    let hand = Hand::<N> {
        count: 0,
        end: other,
        of: PhantomData,
    };
    let kept = Mutex::new(Kept::<N> {
        count: 0,
        end: one,
        hand: Some(hand),
        of: PhantomData,
    });
    let (first, second) = thread::join(rt, || take_turns(rt, &kept), || take_turns(rt, &kept));
    let kept = kept.into_inner();
    let hand = match &kept.hand {
        Some(hand) => Some(hand.count),
        None => None,
    };
    (first, second, kept.count, hand)
}

#[test]
fn one_end_goes_back_and_forth(rt: HostRuntime) -> Result<(), Fail> {
    let (one, other) = pair(rt.alloc())?;
    let (first, second, count, hand) = race::<Brand, HostRuntime>(&rt, one, other);
    assert_eq!(rt; first.wrapping_add(second), count);
    assert_eq!(rt; hand, Some(count));
    assert!(rt; count > 0);
    Ok(())
}
