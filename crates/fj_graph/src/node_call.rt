ghost use Rattle.std.specs.Prelude.{◌≡◌, ℕ, ⊤, Option, None};
ghost use Rattle.fj_graph.specs.Turns.{FailsLater};
ghost use Rattle.fj_body.specs.Turns.{AskRight, HeardRight, Nearer};

use crate::calls::Calls;
use crate::policy::Policy;
use crate::work::Work;
use fj_nodes::{Fate, NodeId};
use fj_run::{Ask, Body, Heard};

/// The body of a node: it checks the flags, and calls the work.
#[derive(Drop)]
pub struct NodeCall<'a, W> {
    pub(crate) node: NodeId,
    pub(crate) calls: Calls<'a, W>,
    /// Always None. The toolchain generates no proof for the turn of a body that owns nothing.
    pub(crate) owned: Option<Box<u8>>,
}

impl<W: Work> NodeCall<'_, W> {
    /// Calls the work, unless a flag is set: the fate of the node.
    fn run(&self) -> Fate {
        if self.calls.is_stopped() {
            return Fate::Skipped;
        }
        match self.calls.work.run(self.node) {
            Ok(()) => Fate::Done,
            Err(code) => {
                if self.calls.policy == Policy::StopAtFirstFailure {
                    self.calls.own.stop();
                }
                Fate::Failed(code)
            }
        }
    }
}

impl<'a, W: Work> Body for NodeCall<'a, W> {
    type Key = NodeId;

    type Out = Fate;

    ghost key_of = { λ b. b.node };

    ghost rooted_as = { λ b. None };

    ghost right = { λ k o. ⊤ };

    ghost turns = { λ b. 0 };

    fn key(&self) -> &NodeId {
        &self.node
    }

    fn into_key(self) -> NodeId {
        self.node
    }

    fn rooted(&self) -> Option<u16> {
        None
    }

    fn turn(&mut self, heard: Heard<NodeCall<'a, W>>) -> Ask<NodeCall<'a, W>>
        requires { HeardRight (λ k o. ⊤) heard }
        ensures key { self.new.node ≡ self.old.node }
        ensures rooted { ◌≡◌ {A = Option ℕ} None None }
        ensures right { AskRight (λ k o. ⊤) self.old.node result }
        ensures nearer { Nearer 0 0 result }
        ensures once { FailsLater heard.entry result }
    {
        match &heard {
            Heard::Start(_) => Ask::Ok(self.run()),
            _ => Ask::Fail(0),
        }
    }
}
