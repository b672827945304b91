use std::marker::Brand;

/// Names a pool: its gate, the lane of each submitter, in order, its mode and limits, the pair of ends of each worker, and its log. So by its type a
/// submitter or a hand that comes back from a thread is known to be of its pool, and so is the machine that the lock guards. Each call
/// that opens a pool picks a name. Java has no counterpart.
pub trait Naming {
    ghost use Rattle.std.specs.Prelude.{List};
    ghost use Rattle.atomic_table.specs.Seated.{TableId};
    ghost use Rattle.fj_lane.specs.Ends.{LaneId};
    ghost use Rattle.fj_rules.specs.Bounds.{Pool};

    /// The gate.
    ghost gate: { TableId };

    /// The lane of each submitter, in order.
    ghost lanes: { List LaneId };

    /// The mode and the limits.
    ghost pool: { Pool };

    /// The pair of ends of each worker, in order.
    ghost hands: { List TableId };

    /// The log of the core's states.
    ghost log: { TableId };
}

impl Naming for Brand {
    ghost use Rattle.std.specs.Prelude.{[]};
    ghost use Rattle.fj_submitter.specs.Names.{no_gate, no_pool};

    ghost gate = { no_gate };

    ghost lanes = { [] };

    ghost pool = { no_pool };

    ghost hands = { [] };

    ghost log = { no_gate };
}
