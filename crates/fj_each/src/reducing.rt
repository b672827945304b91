ghost use Rattle.std.specs.Prelude.{◌≡◌, ◌≤◌, ◌++◌, List, IfOk, length, slice_range};
ghost use Rattle.fj_results.specs.Results.{RefusesRun};
ghost use Rattle.fj_try.specs.Faults.{IfRefused, NotRefused};

use crate::block::Block;
use crate::items::Items;
use crate::pace::Pace;
use crate::part::Part;
use crate::reduce::Reduce;
use fj_invoke::{Refusal, Settings};
use fj_try::{Fault, try_invoke};
use std::alloc::Global;
use std::marker::{Brand, PhantomData};
use std::sync::Wait;
use std::thread::Threads;
use std::time::Clock;

/// Reduces a slice, by worker threads: each block is mapped, and the values of adjacent blocks are combined, the left one first. Where the
/// blocks end depends on the schedule; what is promised does not: it is what `gives` says of the whole slice.
///
/// It begins on the calling thread, and makes a pool only where about half a millisecond or more is left; one worker needs none, and is never
/// refused. `Failed` with the first failure from the left. `Refused` with `LogFull` where the history is full, and with `OutOfMemory` where
/// an allocation of the pool fails or a thread cannot be started.
pub fn map_reduce<T: Sync, M: Reduce<T> + Sync, R: Threads + Wait + Clock + Sync>(
    rt: &R,
    alloc: Global,
    settings: Settings,
    items: &[T],
    reduce: &M,
) -> Result<M::Out, Fault<M::Error>>
where
    M::Out: Send,
    M::Error: Send,
    ensures ok { IfOk result (λ out. ∥ M.gives items.now out ∥₁) }
    ensures err { IfRefused RefusesRun result }
    ensures alone { settings.limits.workers ≡ 1 → NotRefused result }
{
    let pace = Pace::start(rt);
    let mut done = items.len().min(1);
    let mut out = map_block(alloc, items, 0, done, reduce)?;
    let mut size = 1usize;
    while done < items.len() {
        let left = items.len() - done;
        if settings.limits().workers() > 1 && pace.is_worth_a_pool(done, left) {
            let rest = reduce_rest::<Brand, T, M, R>(rt, alloc, settings, items, done, reduce)?;
            return combined::<T, M>(alloc, out, rest);
        }
        let next = done + size.min(left);
        let more = map_block(alloc, items, done, next, reduce)?;
        out = combined::<T, M>(alloc, out, more)?;
        done = next;
        size = size.saturating_mul(2);
    }
    Ok(out)
}

/// The value of the items between two places. Precondition: there are such places.
fn map_block<T, M: Reduce<T>>(
    alloc: Global,
    items: &[T],
    from: usize,
    to: usize,
    reduce: &M,
) -> Result<M::Out, Fault<M::Error>>
    requires ordered { from ≤ to }
    requires within { to ≤ length items.now }
    ensures ok { IfOk result (λ out. ∥ M.gives (slice_range items.now from to) out ∥₁) }
    ensures err { IfRefused RefusesRun result }
    ensures own { NotRefused result }
{
    match reduce.map(alloc, &items[from..to]) {
        Ok(out) => Ok(out),
        Err(error) => Err(Fault::Failed(error)),
    }
}

/// The value of two adjacent blocks, from those of the left and the right one.
fn combined<T, M: Reduce<T>>(
    alloc: Global,
    left: M::Out,
    right: M::Out,
) -> Result<M::Out, Fault<M::Error>>
    ensures ok { (xs ys : List T) → ∥ M.gives xs left ∥₁ → ∥ M.gives ys right ∥₁ → IfOk result (λ out. ∥ M.gives (xs ++ ys) out ∥₁) }
    ensures err { IfRefused RefusesRun result }
    ensures own { NotRefused result }
{
    match M::combine(alloc, left, right) {
        Ok(out) => Ok(out),
        Err(error) => Err(Fault::Failed(error)),
    }
}

/// The value of the items from a place on, by a pool. Preconditions: there is that place, and the type names these items.
fn reduce_rest<N: Items<T> + Send, T: Sync, M: Reduce<T> + Sync, R: Threads + Wait + Sync>(
    rt: &R,
    alloc: Global,
    settings: Settings,
    items: &[T],
    from: usize,
    reduce: &M,
) -> Result<M::Out, Fault<M::Error>>
where
    M::Out: Send,
    M::Error: Send,
    requires named { items.now ≡ N.items }
    requires within { from ≤ length items.now }
    ensures ok { IfOk result (λ out. ∥ M.gives (slice_range N.items from (length N.items)) out ∥₁) }
    ensures err { IfRefused RefusesRun result }
{
    let block = Block {
        from,
        to: items.len(),
    };
    let part: Part<'_, '_, T, M, N> = Part {
        items,
        block,
        grain: block.grain(),
        reduce,
        of: PhantomData,
    };
    match try_invoke(rt, alloc, settings, part) {
        Ok(out) => Ok(out),
        Err(Fault::Refused(refusal)) => Err(Fault::Refused(refusal)),
        Err(Fault::Failed(Some(error))) => Err(Fault::Failed(error)),
        Err(Fault::Failed(None)) => Err(Fault::Refused(Refusal::OutOfMemory)),
    }
}
