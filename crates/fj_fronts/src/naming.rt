use std::marker::Brand;

/// Names a log: so by its type a keeper or a front is known to be of this log, also after another thread had it. Each call that opens a
/// log picks a name.
pub trait Naming {
    ghost use Rattle.atomic_table.specs.Seated.{TableId};

    /// The log.
    ghost log: { TableId };
}

impl Naming for Brand {
    ghost use Rattle.fj_fronts.specs.Logs.{no_log};

    ghost log = { no_log };
}
