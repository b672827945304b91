//! Links the nodes of a tree to their children.
ghost use Rattle.std.specs.Prelude.{◌≡◌, ◌<◌, length, map, IfOk};
ghost use Rattle.fj_trees.specs.Trees.{IsTree};
ghost use Rattle.fj_trees.specs.Families.{IsFamily, IsJoined, alone, member_at, nodes_of, with_joined};

use crate::member::Member;
use crate::node::Node;
use fj_rules::OutOfMemory;
use std::alloc::Global;

/// The nodes, without links. `OutOfMemory` where an allocation fails.
pub(crate) fn each_alone(alloc: Global, nodes: &[Node]) -> Result<Vec<Member>, OutOfMemory>
    ensures { IfOk result (λ members. members.items ≡ map alone nodes.now) }
{
    let members = nodes
        .iter()
        .map(|node| Member::alone(*node))
        .collect(alloc)?;
    Ok(members)
}

/// Links each node of a tree to its children, the last child first. Preconditions: they are a tree, without links.
pub(crate) fn join(members: &mut [Member])
    requires tree { IsTree (nodes_of members.old) }
    requires alone { members.old ≡ map alone (nodes_of members.old) }
    ensures nodes { nodes_of members.new ≡ nodes_of members.old }
    ensures family { IsFamily members.new }
{
    let count = members.len();
    for done in 0..count {
        let child = count - 1 - done;
        if let Some(parent) = members[child].node.parent {
            join_child(members, parent as usize, child);
        }
    }
}

/// Links a child to its parent, before the other children. Preconditions: `child` is a node with a number below 4,000, and `parent` an
/// earlier one with fewer than 4,000 children.
fn join_child(members: &mut [Member], parent: usize, child: usize)
    requires child { child < length members.old }
    requires small { child < 4000 }
    requires parent { parent < child }
    requires few { (member_at members.old parent).children < 4000 }
    ensures { members.new ≡ with_joined members.old parent child }
{
    let above = members[parent];
    members[child] = members[child].before(above.first);
    members[parent] = above.with_child(child as u32);
}
