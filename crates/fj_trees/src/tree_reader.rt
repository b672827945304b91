ghost use Rattle.std.specs.Prelude.{◌≡◌, ◌≢◌, ℕ, ◌+◌, ◌<◌, ◌++◌, [], length, List, OnOk, IfOk, IfErr};
ghost use Rattle.fj_trees.specs.Trees.{IsTree, FaultOf, tree_text};
ghost use Rattle.fj_trees.specs.TreeReaders.{Kept, Goes, FaultAt, IsAt, nothing_kept};

use crate::node::Node;
use crate::node_line::read_node;
use crate::nodes::Nodes;
use crate::tree_fault::TreeFault;
use std::alloc::{AllocError, Global};
use std::marker::Model;

/// What is kept of the bytes of a tree so far: the nodes of the whole lines, and at most 64 bytes of the unfinished line.
#[derive(Drop)]
pub(crate) struct TreeReader {
    nodes: Vec<Node>,
    line: Vec<u8>,
}

impl Model for TreeReader {
    ghost use Rattle.std.specs.Prelude.{◌≤◌, vec_capacity, vec_len};
    ghost use Rattle.fj_trees.specs.TreeReaders.{Kept};
    ghost use Rattle.fj_trees.specs.Trees.{AreNodes};

    ghost Value = { Kept };

    ghost view = { λ r. record { nodes = r.nodes.items; line = r.line.items } };

    ghost invariant = { λ r. record {
      line_fits : 64 ≤ vec_capacity r.line;
      line_within : vec_len r.line ≤ 64;
      few : vec_len r.nodes ≤ 4000;
      nodes : AreNodes 0 r.nodes.items;
    } };
}

impl TreeReader {
    /// A reader that has read nothing. `AllocError` where out of memory.
    pub(crate) fn new(alloc: Global) -> Result<TreeReader, AllocError>
        ensures { IfOk result (λ r. r ≡ nothing_kept) }
    {
        let line = Vec::with_capacity(alloc, 64)?;
        Ok(TreeReader {
            nodes: Vec::new(alloc),
            line,
        })
    }

    /// The fault of the unfinished line.
    fn fault(&self) -> TreeFault
        ensures { result ≡ TreeFault.Line (length self.now.nodes + 1) }
    {
        TreeFault::Line(self.nodes.len() as u64 + 1)
    }

    /// Ends the line and keeps its node. Precondition: fewer than 4,000 nodes are kept.
    #[tactic(auto, using(crate::proofs::TreeBytes::nodes_more))]
    fn end_line(&mut self) -> Result<(), TreeFault>
        requires { length self.old.nodes < 4000 }
        ensures goes { OnOk result (Goes self.old 10 self.new) }
        ensures err { IfErr result (λ fault. FaultAt fault self.old 10) }
    {
        let Some(node) = read_node(self.line.as_slice(), self.nodes.len()) else {
            return Err(self.fault());
        };
        match self.nodes.push(node) {
            Ok(()) => {
                self.line.clear();
                Ok(())
            }
            Err(_) => Err(TreeFault::Memory),
        }
    }

    /// Takes one byte. `Line` where no tree can go on so, `Memory` where out of memory.
    fn feed(&mut self, byte: u8) -> Result<(), TreeFault>
        ensures goes { OnOk result (Goes self.old byte self.new) }
        ensures err { IfErr result (λ fault. FaultAt fault self.old byte) }
    {
        if self.nodes.len() == 4000 {
            return Err(self.fault());
        }
        if byte == b'\n' {
            return self.end_line();
        }
        if self.line.len() == 64 {
            return Err(self.fault());
        }
        self.line.push_reserved(byte);
        Ok(())
    }

    /// Takes bytes, up to the first fault.
    pub(crate) fn feed_all(&mut self, bytes: &[u8]) -> Result<(), TreeFault>
        ensures ok { OnOk result ((b : List ℕ) → IsAt b self.old → IsAt (b ++ bytes.now) self.new) }
        ensures err { IfErr result (λ fault. (b after : List ℕ) → IsAt b self.old → FaultOf fault (b ++ bytes.now ++ after)) }
        ensures no_read { IfErr result (λ fault. fault ≢ TreeFault.Read) }
    {
        for byte in bytes {
            match self.feed(*byte) {
                Ok(()) => (),
                Err(fault) => return Err(fault),
            }
        }
        Ok(())
    }

    /// The tree, where the input ends here; `Line` where it ends within a line, or before the first.
    pub(crate) fn finish(self) -> Result<Nodes, TreeFault>
        ensures ok { IfOk result (λ nodes. (b : List ℕ) → IsAt b self → b ≡ tree_text nodes) }
        ensures err { IfErr result (λ fault. (b : List ℕ) → IsAt b self → FaultOf fault b) }
        ensures no_read { IfErr result (λ fault. fault ≢ TreeFault.Read) }
    {
        if !self.line.is_empty() {
            return Err(self.fault());
        }
        if self.nodes.is_empty() {
            return Err(self.fault());
        }
        let TreeReader { nodes, line: _ } = self;
        Ok(Nodes::new(nodes))
    }
}
