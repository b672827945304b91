use std::marker::Brand;

/// The graph that is run: a type that names its inputs, so that the state of a run can be tied to its steps so far.
pub trait NamedGraph {
    ghost use Rattle.std.specs.Prelude.{List, ℕ};

    ghost graph: { List (List ℕ) };
}

impl NamedGraph for Brand {
    ghost use Rattle.std.specs.Prelude.{[]};

    ghost graph = { [] };
}
