ghost use Rattle.std.specs.Prelude.{◌≡◌, ◌&&◌, ◌||◌, IfOk, IfSome, length, not, true, vec_len};
ghost use Rattle.std.specs.List.{list_all};
ghost use Rattle.std.proofs.Props.{props};
ghost use Rattle.fj_nodes.specs.Courses.{AreFates, AreStates, IsCourse, IsFate, MayBegin, are_done, is_done, state_at};
ghost use Rattle.fj_nodes.specs.Fates.{was_called};
ghost use Rattle.fj_nodes.specs.Graphs.{inputs_at};

use crate::fate::Fate;
use crate::graph::Graph;
use crate::graph_step::GraphStep;
use crate::named_graph::NamedGraph;
use crate::node::NodeId;
use crate::node_state::NodeState;
use std::alloc::{AllocError, Global};
use std::marker::PhantomData;

/// The steps of a run so far, and how far each node has come by them.
#[derive(Drop)]
pub struct Progress<G: NamedGraph> {
    /// The steps, in order.
    pub course: Vec<GraphStep>,
    states: Vec<NodeState>,
    /// The fate of each node, once the run is over.
    pub fates: Vec<Fate>,
    of: PhantomData<G>,
    ghost all: { (vec_len states ≡ length G.graph) × (vec_len fates ≡ length G.graph) },
    ghost right: { IsCourse G.graph course.items } by { Prim.hlevel props },
    ghost tied: { AreStates course.items states.items } by { Prim.hlevel props },
}

impl<G: NamedGraph> Progress<G> {
    /// No steps yet, with room for all. `AllocError` where out of memory. Precondition: the graph is the one that the type names.
    pub fn new(alloc: Global, graph: &Graph) -> Result<Progress<G>, AllocError>
        requires same { graph.now ≡ G.graph }
    {
        let nodes = graph.len();
        let course = Vec::with_capacity(alloc, nodes.saturating_mul(2))?;
        let states = vec![in alloc; NodeState::Waiting; nodes]?;
        let fates = vec![in alloc; Fate::Skipped; nodes]?;
        Ok(Progress {
            course,
            states,
            fates,
            of: PhantomData,
        })
    }

    /// The steps, and the fate of each node.
    pub fn into_lists(self) -> (Vec<GraphStep>, Vec<Fate>)
        ensures course { result.0 ≡ self.course }
        ensures fates { result.1 ≡ self.fates }
    {
        let Progress {
            course,
            states: _,
            fates,
            of: _,
        } = self;
        (course, fates)
    }

    /// How far a node has come.
    fn state(&self, node: NodeId) -> NodeState
        ensures { result ≡ state_at self.now.states.items node.0 }
    {
        match self.states.get(node.0 as usize) {
            Some(state) => *state,
            None => NodeState::Waiting,
        }
    }

    /// Whether the work of a node is done.
    fn is_done(&self, node: NodeId) -> bool
        ensures { result ≡ is_done self.now.course.items node.0 }
    {
        self.state(node) == NodeState::Ended(Fate::Done)
    }

    /// Whether the work of all these is done.
    fn are_done(&self, nodes: &[NodeId]) -> bool
        ensures { result ≡ list_all (λ node. is_done self.now.course.items node.0) nodes.now }
    {
        nodes.iter().all(|node| self.is_done(*node))
    }

    /// Whether the work of all inputs of a node is done. Precondition: the graph is the one that the type names.
    fn inputs_are_done(&self, graph: &Graph, node: NodeId) -> bool
        requires same { graph.now ≡ G.graph }
        ensures { result ≡ are_done self.now.course.items (inputs_at G.graph node.0) }
    {
        self.are_done(graph.inputs(node))
    }

    /// Whether a node may begin: it waits, and all its inputs are done. Precondition: the graph is the one that the type names.
    pub fn may_begin(&self, graph: &Graph, node: NodeId) -> bool
        requires same { graph.now ≡ G.graph }
        ensures { result ≡ true → MayBegin G.graph self.now.course.items node.0 }
    {
        if node.0 as usize >= self.states.len() {
            return false;
        }
        let NodeState::Waiting = self.state(node) else {
            return false;
        };
        self.inputs_are_done(graph, node)
    }

    /// A node begins. `AllocError` where out of memory, and then it does not. Precondition: it may.
    pub fn begin(&mut self, node: NodeId) -> Result<(), AllocError>
        requires { MayBegin G.graph self.old.course.items node.0 }
    {
        if self.course.push(GraphStep::Begun(node)).is_err() {
            return Err(AllocError);
        }
        self.states[node.0 as usize] = NodeState::UnderWay;
        Ok(())
    }

    /// A node ends with this fate. `AllocError` where it was not under way, or where out of memory.
    pub fn end(&mut self, node: NodeId, fate: Fate) -> Result<(), AllocError> {
        let NodeState::UnderWay = self.state(node) else {
            return Err(AllocError);
        };
        if self.course.push(GraphStep::Ended(node, fate)).is_err() {
            return Err(AllocError);
        }
        self.states[node.0 as usize] = NodeState::Ended(fate);
        Ok(())
    }

    /// Sets the fate of each node: whether one was left out, though all its inputs are done. `Err` is a node that is under way, or that could
    /// begin now in a run that was not stopped. Precondition: the graph is the one that the type names.
    pub fn tell(&mut self, graph: &Graph, was_stopped: bool) -> Result<bool, NodeId>
        requires same { graph.now ≡ G.graph }
        ensures { IfOk result (λ stopped. AreFates G.graph stopped self.new.course.items self.new.fates.items) }
    {
        let mut stopped = false;
        for number in 0..graph.count() {
            let node = NodeId(number);
            if !was_stopped && self.may_begin(graph, node) {
                return Err(node);
            }
            let Some(fate) = self.fate(node) else {
                return Err(node);
            };
            stopped = self.sees_stop(graph, stopped, node, fate);
            self.fates[number as usize] = fate;
        }
        Ok(stopped)
    }

    /// The fate of a node. None where it is under way.
    fn fate(&self, node: NodeId) -> Option<Fate>
        ensures { IfSome result (IsFate G.graph true self.now.course.items node.0) }
    {
        match self.state(node) {
            NodeState::Waiting => Some(Fate::Skipped),
            NodeState::UnderWay => None,
            NodeState::Ended(fate) => Some(fate),
        }
    }

    /// Whether a node was left out, or one before it. Precondition: the graph is the one that the type names.
    fn sees_stop(&self, graph: &Graph, stopped: bool, node: NodeId, fate: Fate) -> bool
        requires same { graph.now ≡ G.graph }
        ensures { result ≡ (stopped || not (was_called fate) && are_done self.now.course.items (inputs_at G.graph node.0)) }
    {
        stopped || (!fate.was_called() && self.inputs_are_done(graph, node))
    }
}
