ghost use Rattle.std.specs.Prelude.{◌≡◌, ◌<◌, ◌≤◌, ◌++◌, IfErr, IfOk, length};
ghost use Rattle.fj_calls.specs.Cores.{AreParts};
ghost use Rattle.fj_rules.specs.declared.limits.TheConstants.{MAX_EVENTS, MAX_TASKS, MAX_WORKERS};
ghost use Rattle.fj_rules.specs.Bounds.{bounds};
ghost use Rattle.fj_rules.specs.Epochs.{IsPast};
ghost use Rattle.fj_trees.specs.TreeValues.{node_value};
ghost use Rattle.fj_results.specs.Results.{RefusesRun};

use fj_rules::{Limits, MAX_EVENTS, MAX_TASKS, Mode, Refusal};
use fj_run::{Record, Recorded, RecordedValue, Settings, Turnstile, record_alone};
use fj_trees::{Family, NamedTree, Nodes, TreeFold};
use std::alloc::{AllocError, Global};
use std::marker::Brand;
use std::sync::Wait;
use std::thread::Threads;

/// The value of the root of a tree, folded by so many workers, a thread for each: `ForkJoinPool.invoke` of a `CountedCompleter`. The
/// turnstile is called before the first turn of each node's body. Precondition: 1 to 32 workers.
///
/// `LogFull` where the history is full, or the root failed with that refusal's number. `OutOfMemory` where an allocation fails or a thread
/// cannot be started, and where the root has no result for any other reason.
pub fn fold_tree<R: Threads + Wait + Sync, T: Turnstile + Sync>(
    rt: &R,
    alloc: Global,
    workers: u32,
    nodes: &Nodes,
    turnstile: &T,
) -> Result<u64, Refusal>
    requires some { 0 < workers }
    requires few { workers ≤ MAX_WORKERS }
    ensures ok { IfOk result (λ value. value ≡ node_value nodes.now 0) }
    ensures err { IfErr result RefusesRun }
{
    let RecordedValue {
        value,
        machine,
        archive,
    } = record_fold(rt, alloc, workers, nodes, turnstile)?;
    // Explicit drops are proved faster.
    drop(machine);
    drop(archive);
    value
}

/// Folds a tree as [`fold_tree`], and hands out the history of the run: in async mode, with one submitter and the largest limits. Precondition:
/// 1 to 32 workers.
///
/// `OutOfMemory` where an allocation fails or a thread cannot be started before the root is submitted. The value is refused as by `fold_tree`.
pub fn record_fold<R: Threads + Wait + Sync, T: Turnstile + Sync>(
    rt: &R,
    alloc: Global,
    workers: u32,
    nodes: &Nodes,
    turnstile: &T,
) -> Result<RecordedValue<u64>, Refusal>
    requires some { 0 < workers }
    requires few { workers ≤ MAX_WORKERS }
    ensures ok { IfOk result (λ r. IfOk r.value (λ value. value ≡ node_value nodes.now 0)) }
    ensures refused { IfOk result (λ r. IfErr r.value RefusesRun) }
    ensures run { IfOk result (λ r. IsPast r.machine) }
    ensures pool { IfOk result (λ r. r.machine.pool ≡ record { mode = Mode.Async; limits = bounds workers 1 MAX_TASKS MAX_EVENTS }) }
    // The parts that were handed out, and then those of the archive, are the history up to the last seal.
    ensures history { IfOk result (λ r. AreParts (r.archive.handed ++ r.archive.kept) r.machine) }
    ensures err { IfErr result (λ refusal. refusal ≡ Refusal.OutOfMemory) }
{
    // For the proof: a tree has a root.
    let _nodes = nodes.as_slice();
    match Family::new(alloc, nodes) {
        Ok(family) => record_in::<Brand, R, T>(rt, alloc, workers, &family, turnstile),
        Err(_) => Err(Refusal::OutOfMemory),
    }
}

/// The same for the family of a tree. Preconditions: it is that of the tree that the type names, which has a root; 1 to 32 workers.
fn record_in<F: NamedTree + Send, R: Threads + Wait + Sync, T: Turnstile + Sync>(
    rt: &R,
    alloc: Global,
    workers: u32,
    family: &Family,
    turnstile: &T,
) -> Result<RecordedValue<u64>, Refusal>
    requires same { family.now ≡ F.nodes }
    requires there { 0 < length F.nodes }
    requires some { 0 < workers }
    requires few { workers ≤ MAX_WORKERS }
    ensures ok { IfOk result (λ r. IfOk r.value (λ value. value ≡ node_value F.nodes 0)) }
    ensures refused { IfOk result (λ r. IfErr r.value RefusesRun) }
    ensures run { IfOk result (λ r. IsPast r.machine) }
    ensures pool { IfOk result (λ r. r.machine.pool ≡ record { mode = Mode.Async; limits = bounds workers 1 MAX_TASKS MAX_EVENTS }) }
    ensures history { IfOk result (λ r. AreParts (r.archive.handed ++ r.archive.kept) r.machine) }
    ensures err { IfErr result (λ refusal. refusal ≡ Refusal.OutOfMemory) }
{
    let made: Result<TreeFold<F>, AllocError> = TreeFold::new(alloc, family, 0);
    let Ok(body) = made else {
        return Err(Refusal::OutOfMemory);
    };
    let settings = settings_of(workers);
    let Recorded { answer, record } = record_alone(rt, alloc, settings, body, turnstile)?;
    let Record {
        machine,
        archive,
        ..
    } = record;
    Ok(RecordedValue {
        value: TreeFold::value_in(answer, 0),
        machine,
        archive,
    })
}

/// The settings of a pool with so many workers, and otherwise as large as possible. Precondition: 1 to 32 workers.
fn settings_of(workers: u32) -> Settings
    requires some { 0 < workers }
    requires few { workers ≤ MAX_WORKERS }
    ensures mode { result.mode ≡ Mode.Async }
    ensures limits { result.limits ≡ bounds workers 1 MAX_TASKS MAX_EVENTS }
{
    let Ok(limits) = Limits::new(workers, 1, MAX_TASKS, MAX_EVENTS) else {
        unreachable!()
    };
    Settings::with_limits(limits).in_mode(Mode::Async)
}
