ghost use Rattle.std.specs.Prelude.{◌≡◌, ◌≤◌, IfOk, IfErr, IsOk, length};
ghost use Rattle.std.specs.List.{position};
ghost use Rattle.fj_results.specs.Results.{RefusesRun};
ghost use Rattle.fj_each.specs.Firsts.{first_in};

use crate::block::Block;
use crate::find::{Find, first_in};
use crate::pace::Pace;
use crate::search::Search;
use crate::wanted::Wanted;
use fj_invoke::{Refusal, Settings, invoke_lazily};
use std::alloc::Global;
use std::marker::{Brand, PhantomData};
use std::sync::Wait;
use std::thread::Threads;
use std::time::Clock;

/// The place of the first wanted item of a slice, by worker threads; None where no item is wanted. Blocks right of the best place so far
/// are not begun, and a worker there stops after its present block.
///
/// It begins on the calling thread, and makes a pool only where about half a millisecond or more is left; one worker needs none, and is never
/// refused. `LogFull` where the history is full, `OutOfMemory` where an allocation fails or a thread cannot be started.
pub fn find_first<T: Sync, P: Wanted<T> + Sync, R: Threads + Wait + Clock + Sync>(
    rt: &R,
    alloc: Global,
    settings: Settings,
    items: &[T],
    wanted: &P,
) -> Result<Option<usize>, Refusal>
    ensures ok { IfOk result (λ first. first ≡ position (P.wants wanted.now) items.now) }
    ensures err { IfErr result RefusesRun }
    ensures alone { settings.limits.workers ≡ 1 → IsOk result }
{
    let pace = Pace::start(rt);
    let mut done = 0;
    let mut size = 1usize;
    while done < items.len() {
        let left = items.len() - done;
        if settings.limits().workers() > 1 && pace.is_worth_a_pool(done, left) {
            return find_rest::<Brand, T, P, R>(rt, alloc, settings, items, done, wanted);
        }
        let block = Block {
            from: done,
            to: done + size.min(left),
        };
        let first = first_in(items, block, wanted);
        if first.is_some() {
            return Ok(first);
        }
        done = block.to;
        size = size.saturating_mul(2);
    }
    Ok(None)
}

/// The place of the first wanted item from a place on, by a pool. Preconditions: there is that place, and the type names these items and
/// what is wanted.
fn find_rest<N: Search<T> + Send, T: Sync, P: Wanted<T> + Sync, R: Threads + Wait + Sync>(
    rt: &R,
    alloc: Global,
    settings: Settings,
    items: &[T],
    from: usize,
    wanted: &P,
) -> Result<Option<usize>, Refusal>
    requires named { items.now ≡ N.items }
    requires asked { (x : T) → P.wants wanted.now x ≡ N.wants x }
    requires within { from ≤ length items.now }
    ensures ok { IfOk result (λ first. first ≡ first_in N.wants N.items from (length N.items)) }
    ensures err { IfErr result RefusesRun }
{
    let block = Block {
        from,
        to: items.len(),
    };
    let find: Find<'_, '_, T, P, N> = Find {
        items,
        block,
        grain: block.grain(),
        wanted,
        of: PhantomData,
    };
    invoke_lazily(rt, alloc, settings, find)
}
