ghost use Rattle.std.specs.Prelude.{◌≡◌, IfSome};
ghost use Rattle.fj_nodes.specs.Courses.{AreFates, IsCourse, MayBegin};

use crate::calls::Calls;
use crate::node_call::NodeCall;
use crate::running::Ran;
use crate::under_way::UnderWay;
use crate::work::Work;
use fj_nodes::{Fate, Frontier, Graph, NamedGraph, NodeId, Progress};
use fj_run::{Naming, Outcome, Play, Refusal, Running, SubId, Ticket, result_in};
use std::alloc::{AllocError, Global};
use std::sync::Wait;

/// Runs a graph: it alone keeps how far each node has come. The workers only call the work.
#[derive(Drop)]
pub(crate) struct Player<'a, W, G: NamedGraph> {
    graph: &'a Graph,
    calls: Calls<'a, W>,
    pub(crate) progress: Progress<G>,
    pub(crate) frontier: Frontier,
    under_way: UnderWay,
    /// The most bodies under way.
    window: usize,
    /// The submitter whose lane is filled at present.
    lane: SubId,
    /// Whether something was not called since a flag was set.
    pub(crate) stopped: bool,
    /// Why the run cannot go on, if it cannot.
    pub(crate) refusal: Option<Refusal>,
    ghost same: { graph.now ≡ G.graph },
}

impl<'a, W, G: NamedGraph> Player<'a, W, G> {
    /// A run before its first step. `AllocError` where out of memory. Precondition: the graph is the one that the type names.
    pub(crate) fn new(
        alloc: Global,
        graph: &'a Graph,
        calls: Calls<'a, W>,
        window: usize,
    ) -> Result<Player<'a, W, G>, AllocError>
        requires same { graph.now ≡ G.graph }
    {
        Ok(Player {
            graph,
            calls,
            progress: Progress::new(alloc, graph)?,
            frontier: Frontier::new(alloc, graph)?,
            under_way: UnderWay::new(alloc, window)?,
            window,
            lane: SubId(0),
            stopped: false,
            refusal: None,
        })
    }

    /// Keeps an error, which ends the run.
    fn note(&mut self, done: Result<(), AllocError>) {
        if done.is_err() {
            self.refusal = Some(Refusal::OutOfMemory);
        }
    }

    /// A node begins, under this ticket. Precondition: it may.
    fn begin(&mut self, node: NodeId, ticket: Ticket)
        requires { MayBegin G.graph self.old.progress.course.items node.0 }
    {
        let begun = self.progress.begin(node);
        self.note(begun);
        let pushed = self.under_way.push(ticket, node);
        self.note(pushed);
    }

    /// This became of a node.
    fn end(&mut self, node: NodeId, fate: Fate) {
        let ended = self.progress.end(node, fate);
        self.note(ended);
        if fate == Fate::Done {
            let found = self.frontier.done(self.graph, node);
            self.note(found);
        }
    }

    /// Concludes the run, if nothing is left to run: sets each fate, and returns whether the run was stopped.
    pub(crate) fn conclude(&mut self) -> Option<bool>
        ensures { IfSome result (λ stopped. AreFates G.graph stopped self.new.progress.course.items self.new.progress.fates.items) }
    {
        if !self.stopped && self.frontier.has_next() {
            return None;
        }
        match self.progress.tell(self.graph, self.stopped) {
            Ok(stopped) => Some(stopped),
            Err(node) => {
                let back = self.frontier.put_back(node);
                self.note(back);
                None
            }
        }
    }

    /// The graph that was run. Precondition: these are its fates.
    pub(crate) fn into_ran(self, stopped: bool) -> Ran
        requires { AreFates G.graph stopped self.progress.course.items self.progress.fates.items }
        ensures course { IsCourse G.graph result.course.items }
        ensures fates { AreFates G.graph result.stopped result.course.items result.fates.items }
    {
        let (course, fates) = self.progress.into_lists();
        Ran {
            fates,
            course,
            stopped,
        }
    }

    /// Goes on with the next of so many lanes. False where there is none.
    fn change_lane(&mut self, lanes: usize) -> bool {
        match self.lane.0.checked_add(1) {
            Some(next) if (next as usize) < lanes => {
                self.lane = SubId(next);
                true
            }
            _ => false,
        }
    }
}

impl<'a, W: Work, G: NamedGraph> Player<'a, W, G> {
    /// Checks the next node, and submits its body if it may begin. False where there is nothing more to submit.
    fn feed<N: Naming, R: Wait>(
        &mut self,
        pool: &mut Running<'_, '_, NodeCall<'a, W>, N, R>,
    ) -> bool {
        let Some(node) = self.frontier.take() else {
            return false;
        };
        if !self.progress.may_begin(self.graph, node) {
            return true;
        }
        if self.calls.is_stopped() {
            self.stopped = true;
            return false;
        }
        match pool.submit(self.lane, self.calls.call(node)) {
            Ok(ticket) => {
                self.begin(node, ticket);
                true
            }
            Err((Refusal::LaneSpent, _)) => {
                let back = self.frontier.put_back(node);
                self.note(back);
                self.change_lane(pool.submitters())
            }
            Err((refusal, _)) => {
                self.refusal = Some(refusal);
                false
            }
        }
    }

    /// Fills the window, unless the run cannot go on.
    fn fill<N: Naming, R: Wait>(&mut self, pool: &mut Running<'_, '_, NodeCall<'a, W>, N, R>) {
        for _body in 0..u64::MAX {
            let has_room = self.under_way.len() < self.window;
            if self.stopped || self.refusal.is_some() || !has_room || !self.feed(pool) {
                return;
            }
        }
    }

    /// Waits for an outcome, and keeps it. False where nothing is under way.
    fn hear<N: Naming, R: Wait>(
        &mut self,
        pool: &mut Running<'_, '_, NodeCall<'a, W>, N, R>,
    ) -> bool {
        let Some((node, outcome)) = self.under_way.wait(pool) else {
            return false;
        };
        match fate_in(outcome) {
            Ok(fate) => self.end(node, fate),
            Err(refusal) => self.refusal = Some(refusal),
        }
        true
    }
}

/// The fate of a node, from the outcome of its body.
fn fate_in<'a, W: Work>(
    outcome: Result<Outcome<NodeCall<'a, W>>, Refusal>,
) -> Result<Fate, Refusal> {
    match result_in(outcome?) {
        Ok((_, fate)) => Ok(fate),
        Err(none) => Err(none.refusal()),
    }
}

impl<'a, W: Work, G: NamedGraph> Play<NodeCall<'a, W>> for Player<'a, W, G> {
    type Out = ();

    fn play<N: Naming, R: Wait>(&mut self, pool: &mut Running<'_, '_, NodeCall<'a, W>, N, R>) {
        self.lane = SubId(0);
        for _round in 0..u64::MAX {
            self.fill(pool);
            if !self.hear(pool) {
                return;
            }
        }
    }
}
