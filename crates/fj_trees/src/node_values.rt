ghost use Rattle.std.specs.Prelude.{◌≡◌, ◌+◌, ◌%◌, ◌<◌, length, slice_index, IfOk};
ghost use Rattle.fj_trees.specs.TreeSums.{with_more};
ghost use Rattle.fj_trees.specs.TreeValues.{AreValues};

use crate::nodes::Nodes;
use fj_rules::OutOfMemory;
use std::alloc::Global;

/// The modulus of all values.
const MODULUS: u64 = 1_000_000_007;

/// The values of the nodes of a tree, by their numbers: a node's own value and k times that of its k-th child, children by rising number
/// and k from 1, modulo 1,000,000,007. `OutOfMemory` where an allocation fails.
pub fn tree_values(alloc: Global, nodes: &Nodes) -> Result<Vec<u64>, OutOfMemory>
    ensures { IfOk result (λ values. AreValues nodes.now values.items) }
{
    let count = nodes.as_slice().len();
    let mut values = vec![in alloc; 0u64; count]?;
    let mut plain = vec![in alloc; 0u64; count]?;
    let mut weighted = vec![in alloc; 0u64; count]?;
    for done in 0..count {
        let i = count - 1 - done;
        let node = nodes.node(i);
        let value = sum_modulo(u64::from(node.value), weighted[i]);
        values[i] = value;
        if let Some(parent) = node.parent {
            add_child(&mut plain, &mut weighted, parent, value);
        }
    }
    Ok(values)
}

/// Adds a child before the children so far; the weight of each of these rises by one. Precondition: the parent is a node.
fn add_child(plain: &mut [u64], weighted: &mut [u64], parent: u32, value: u64)
    requires plain { parent < length plain.old }
    requires weighted { parent < length weighted.old }
    ensures plain { plain.new ≡ with_more plain.old parent value }
    ensures weighted { weighted.new ≡ with_more weighted.old parent ((slice_index plain.old parent + value) % 1000000007) }
{
    let parent = parent as usize;
    let sum = sum_modulo(plain[parent], value);
    plain[parent] = sum;
    weighted[parent] = sum_modulo(weighted[parent], sum);
}

fn sum_modulo(a: u64, b: u64) -> u64
    ensures { result ≡ (a + b) % 1000000007 }
{
    (a % MODULUS + b % MODULUS) % MODULUS
}
