ghost use Rattle.std.specs.Prelude.{◌≡◌, ℕ, List, Some, OnOk, IfOk, IfErr};
ghost use Rattle.std.specs.Io.KnownBytes.{IsAtEnd};
ghost use Rattle.fj_streams.specs.Calls.{IsFine};
ghost use Rattle.fj_trees.specs.Reads.{ReaderTells};
ghost use Rattle.fj_trees.specs.Trees.{FaultOf, tree_text};

use crate::nodes::Nodes;
use crate::tree_fault::TreeFault;
use crate::tree_reader::TreeReader;
use fj_streams::Source;
use std::alloc::Global;
use std::io::ErrorKind;

/// Reads a tree to the end of the input: a line for each node, node 0 first. A line is the number of the node's parent, or `-` for node 0,
/// a space, the node's value and a line feed; numbers are decimal, without a sign and without leading zeros.
///
/// `Line` for the first line that may not be there or lacks its line feed; it is reported as soon as no tree can go on so: at most 64 bytes
/// of a line are kept, and 4,000 lines. `Memory` where an allocation fails. `Read` where a read fails, or 2^64 - 1 reads find no end; an
/// interrupted read is retried.
pub fn read_tree<R: Source>(alloc: Global, r: &mut R) -> Result<Nodes, TreeFault>
    // The whole input is the text of the tree.
    ensures text { IfOk result (λ nodes. (input : List ℕ) → R.remaining r.old ≡ Some input → input ≡ tree_text nodes) }
    ensures end { OnOk result (IsAtEnd (R.remaining r.new)) }
    ensures fine { OnOk result (IsFine (R.calls r.old) (R.calls r.new)) }
    ensures err { IfErr result (λ fault. (input : List ℕ) → R.remaining r.old ≡ Some input → FaultOf fault input) }
    ensures told { IfErr result (λ fault. ReaderTells fault (R.calls r.old) (R.calls r.new)) }
{
    let Ok(mut reader) = TreeReader::new(alloc) else {
        return Err(TreeFault::Memory);
    };
    let mut chunk = [0u8; 4096];
    for _reads in 0..u64::MAX {
        match r.pull(&mut chunk) {
            Ok(0) => return reader.finish(),
            Ok(n) => match reader.feed_all(&chunk[..n]) {
                Ok(()) => (),
                Err(fault) => return Err(fault),
            },
            Err(e) => {
                if e.kind() != ErrorKind::Interrupted {
                    return Err(TreeFault::Read);
                }
            }
        }
    }
    Err(TreeFault::Read)
}
