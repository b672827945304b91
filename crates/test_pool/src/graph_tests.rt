use fj_graph::*;
use std::sync::atomic::{AtomicU64, Ordering};
use std::test::Fail;

/// Counts the calls of nodes.
#[derive(Drop)]
struct Counter {
    calls: AtomicU64,
}

impl Work for Counter {
    fn run(&self, _node: NodeId) -> Result<(), u32> {
        self.calls.fetch_add(1, Ordering::SeqCst);
        Ok(())
    }
}

/// 70,000 nodes are more than a lane takes, so they are called in two pools.
#[test]
fn a_graph_may_be_larger_than_a_lane(rt: HostRuntime) -> Result<(), Fail> {
    let mut graph = Graph::new(rt.alloc());
    for _node in 0..70_000 {
        graph.node()?;
    }
    let settings = Settings::with_limits(Limits::new(2, 1, 64, 1_048_576)?);
    let counter = Counter {
        calls: AtomicU64::new(0),
    };
    let ran = run_graph(
        &rt,
        rt.alloc(),
        settings,
        Policy::KeepGoing,
        graph,
        &counter,
        &StopFlag::new(),
    )?;
    let calls = counter.calls.load(Ordering::SeqCst);
    let done = ran.fates.iter().all(|fate| *fate == Fate::Done);
    assert_eq!(rt; (ran.fates.len(), done, calls), (70_000, true, 70_000));
    Ok(())
}
