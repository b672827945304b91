ghost use Rattle.std.specs.Prelude.{◌≡◌, ◌≤◌, IfErr, IsOk};
ghost use Rattle.fj_results.specs.Results.{RefusesRun};

use crate::block::Block;
use crate::each::Each;
use crate::every::Every;
use crate::pace::Pace;
use fj_invoke::{Refusal, Settings, invoke_lazily};
use std::alloc::Global;
use std::ops::Range;
use std::sync::Wait;
use std::thread::Threads;
use std::time::Clock;

/// Does something with each block of a range, by worker threads: `IntStream.range(..).parallel().forEach`. The blocks are disjoint, and
/// together the range; they are done in no particular order. Precondition: the range ends at most at the limit.
///
/// It begins on the calling thread, and makes a pool only where about half a millisecond or more is left; one worker needs none, and is never
/// refused. `LogFull` where the history is full, `OutOfMemory` where an allocation of the pool fails or a thread cannot be started; what was
/// done by then stays done.
pub fn for_each<E: Each + Sync, R: Threads + Wait + Clock + Sync>(
    rt: &R,
    alloc: Global,
    settings: Settings,
    range: Range<usize>,
    each: &E,
) -> Result<(), Refusal>
    requires { range.end ≤ E.limit each.now }
    ensures err { IfErr result RefusesRun }
    ensures alone { settings.limits.workers ≡ 1 → IsOk result }
{
    let pace = Pace::start(rt);
    let Range { start, end } = range;
    let mut from = start;
    let mut size = 1usize;
    while from < end {
        if settings.limits().workers() > 1 && pace.is_worth_a_pool(from - start, end - from) {
            let block = Block { from, to: end };
            let grain = block.grain();
            return invoke_lazily(rt, alloc, settings, Every { block, grain, each });
        }
        let next = from + size.min(end - from);
        each.each(from..next);
        from = next;
        size = size.saturating_mul(2);
    }
    Ok(())
}
