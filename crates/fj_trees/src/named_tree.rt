use std::marker::Brand;

/// The tree that bodies fold: a type by which a body's type names the nodes, so that the number of a node alone determines its value. Each
/// call that makes such bodies chooses it. Java has no counterpart.
pub trait NamedTree {
    ghost use Rattle.std.specs.Prelude.{List};
    ghost use Rattle.fj_trees.specs.declared.node.Node.{Node};

    ghost nodes: { List Node };
}

impl NamedTree for Brand {
    ghost use Rattle.std.specs.Prelude.{[]};

    ghost nodes = { [] };
}
