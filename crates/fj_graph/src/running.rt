ghost use Rattle.std.specs.Prelude.{◌≡◌, IfErr, IfOk, OnOk};
ghost use Rattle.fj_results.specs.Results.{RefusesRun};
ghost use Rattle.fj_nodes.specs.Courses.{AreFates, IsCourse};
ghost use Rattle.fj_nodes.specs.Graphs.{IsAcyclic};
ghost use Rattle.fj_graph.specs.Refusals.{RefusesGraph};

use crate::calls::Calls;
use crate::player::Player;
use crate::policy::Policy;
use crate::refused::GraphRefused;
use crate::stop_flag::StopFlag;
use crate::work::Work;
use fj_nodes::{Fate, Graph, GraphStep, NamedGraph};
use fj_run::{Open, Refusal, Settings, with_pool};
use std::alloc::Global;
use std::marker::Brand;
use std::sync::Wait;
use std::thread::Threads;

/// The most bodies under way at a time: 32 workers, the most that a pool has, each run one while another waits. More would not begin
/// sooner, and each outcome is looked for among all of them.
const WINDOW: u32 = 64;

/// A graph that was run to its end.
#[derive(Drop)]
pub struct Ran {
    /// The fate of each node, by its number.
    pub fates: Vec<Fate>,
    /// The beginnings and ends, in the order in which they were noted.
    pub course: Vec<GraphStep>,
    /// Whether a node was left out since a flag was set: its work was not called, though that of all its inputs is done.
    pub stopped: bool,
}

/// Calls the work of each node at most once, after that of all its inputs is done, by the workers of a pool with these settings. It returns
/// once each node has its fate. The flags are checked before each call; work already running is run to its end.
///
/// It takes at most 64 places of the pool, however large the graph is. Once all lanes of a pool are spent, it goes on in a new pool.
///
/// `Cycle` where the graph has a cycle: nothing is called. `Refused` with `OutOfMemory` where an allocation fails or a thread cannot be
/// started, with `LogFull` where the pool got stuck.
pub fn run_graph<'a, W: Work + Sync, R: Threads + Wait + Sync>(
    rt: &R,
    alloc: Global,
    settings: Settings,
    policy: Policy,
    graph: Graph,
    work: &'a W,
    stop: &'a StopFlag,
) -> Result<Ran, GraphRefused>
    ensures course { IfOk result (λ ran. IsCourse graph ran.course.items) }
    ensures fates { IfOk result (λ ran. AreFates graph ran.stopped ran.course.items ran.fates.items) }
    ensures ordered { OnOk result (IsAcyclic graph) }
    ensures err { IfErr result (RefusesGraph graph) }
{
    match graph.cycle(alloc) {
        Ok(None) => {}
        Ok(Some(node)) => return Err(GraphRefused::Cycle(node)),
        Err(_) => return Err(GraphRefused::Refused(Refusal::OutOfMemory)),
    }
    let own = StopFlag::new();
    let calls = Calls {
        work,
        stop,
        own: &own,
        policy,
    };
    match run_in::<Brand, W, R>(rt, alloc, settings, &graph, calls) {
        Ok(ran) => Ok(ran),
        Err(refusal) => Err(GraphRefused::Refused(refusal)),
    }
}

/// The same for a graph without a cycle. Precondition: it is the one that the type names.
fn run_in<'a, G: NamedGraph, W: Work + Sync, R: Threads + Wait + Sync>(
    rt: &R,
    alloc: Global,
    settings: Settings,
    graph: &'a Graph,
    calls: Calls<'a, W>,
) -> Result<Ran, Refusal>
    requires same { graph.now ≡ G.graph }
    ensures course { IfOk result (λ ran. IsCourse G.graph ran.course.items) }
    ensures fates { IfOk result (λ ran. AreFates G.graph ran.stopped ran.course.items ran.fates.items) }
    ensures err { IfErr result RefusesRun }
{
    let window = settings.limits().tasks().min(WINDOW) as usize;
    let Ok(first) = Player::<W, G>::new(alloc, graph, calls, window) else {
        return Err(Refusal::OutOfMemory);
    };
    let mut player = first;
    for _ in rt.forever() {
        player = play_on(rt, alloc, settings, player)?;
        if let Some(stopped) = player.conclude() {
            return Ok(player.into_ran(stopped));
        }
    }
    unreachable!()
}

/// Goes on in a new pool, as long as that has lanes. An error where the run cannot go on. It is a function of its own, so that no other holds
/// the record of the pool.
fn play_on<'a, G: NamedGraph, W: Work + Sync, R: Threads + Wait + Sync>(
    rt: &R,
    alloc: Global,
    settings: Settings,
    player: Player<'a, W, G>,
) -> Result<Player<'a, W, G>, Refusal>
    ensures { IfErr result RefusesRun }
{
    match with_pool(rt, alloc, settings, player, &Open) {
        Ok(played) => {
            drop(played.record);
            let player = played.player;
            if let Some(refusal) = player.refusal {
                drop(player);
                return Err(told(refusal));
            }
            Ok(player)
        }
        Err((_, player)) => {
            drop(player);
            Err(Refusal::OutOfMemory)
        }
    }
}

/// The refusal of a run: `LogFull` stays, any other becomes `OutOfMemory`.
fn told(refusal: Refusal) -> Refusal
    ensures { RefusesRun result }
{
    match refusal {
        Refusal::LogFull => Refusal::LogFull,
        _ => Refusal::OutOfMemory,
    }
}
