ghost use Rattle.std.specs.Prelude.{◌≡◌, ◌≤◌, ◌<◌};
ghost use Rattle.fj_parts.specs.Glances.{IsGlance, busy_below, is_busy};

use fj_machine::Machine;
use fj_rules::WorkerId;

/// A consistent snapshot of what a pool does. Java has single queries (`ForkJoinPool.getQueuedTaskCount`, `getActiveThreadCount` and
/// others), each of another moment.
#[derive(Clone, Copy, Debug, PartialEq, Eq)]
pub struct Glance {
    /// How many tasks are queued. Those in the lanes do not count.
    pub queued: usize,
    /// How many workers have a task, or a completion action.
    pub running: usize,
    /// How many workers have nothing to do.
    pub resting: usize,
    /// How many completers wait for arrivals.
    pub open: usize,
    /// How many tasks are kept: taken in or forked, and not released.
    pub live: usize,
    /// How many events the history has since the last seal.
    pub events: usize,
}

impl Glance {
    /// What a machine shows.
    pub(crate) fn of(machine: &Machine) -> Glance
        ensures { IsGlance machine.now result }
    {
        let workers = machine.limits().workers();
        let running = running_of(machine, workers);
        Glance {
            queued: machine.queued(),
            running,
            resting: workers as usize - running,
            open: machine.open().len(),
            live: machine.live(),
            events: machine.history().len(),
        }
    }
}

/// How many of the first `workers` workers have something to do. Precondition: the pool has at least as many.
fn running_of(machine: &Machine, workers: u32) -> usize
    requires { workers ≤ machine.now.pool.limits.workers }
    ensures running { result ≡ busy_below machine.now.events workers }
    ensures within { result ≤ workers }
{
    let mut running = 0;
    for w in 0..workers {
        if is_busy(machine, WorkerId(w)) {
            running += 1;
        }
    }
    running
}

/// Whether a worker has a task, or a completion action. Precondition: the worker exists.
fn is_busy(machine: &Machine, w: WorkerId) -> bool
    requires { w < machine.now.pool.limits.workers }
    ensures { result ≡ is_busy machine.now.events w }
{
    !machine.stack(w).is_empty() || machine.hook(w).is_some()
}
