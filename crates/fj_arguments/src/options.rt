//! The parsed options of a command.
ghost use Rattle.std.specs.Prelude.{◌≤◌};
ghost use Rattle.fj_rules.specs.declared.limits.TheConstants.{MAX_WORKERS};

/// The number of workers of a job: 1 to 32.
#[derive(Clone, Copy)]
pub struct Workers {
    pub count: u32,
    ghost some: { 1 ≤ count },
    ghost few: { count ≤ MAX_WORKERS },
}

/// The numbers that a job goes over, from first to last, the size of its blocks, the number of its workers, and how it forks.
#[derive(Clone, Copy)]
pub struct RangeOptions {
    pub from: u32,
    pub to: u32,
    /// How many numbers a block has, at least 1.
    pub grain: u32,
    ghost grained: { 1 ≤ grain },
    pub workers: Workers,
    /// Whether it forks at every split, not only while a worker is idle.
    pub eager: bool,
}

/// The function with the value `(mul * x + add) mod modulus` at x.
#[derive(Clone, Copy)]
pub struct FunctionOptions {
    pub mul: u32,
    pub add: u32,
    /// At least 1.
    pub modulus: u32,
    ghost divisor: { 1 ≤ modulus },
}

/// A view of a history.
#[derive(Clone, Copy)]
pub enum ViewName {
    Tasks,
    Stats,
    Path,
    Chrome,
    Dot,
    Svg,
}

/// Which view, the events that a picture has, and the notes that are shown.
#[derive(Clone, Copy)]
pub struct ViewOptions<'a> {
    /// None if there is no view of the name that is given.
    pub name: Option<ViewName>,
    /// The first event, 1 by default.
    pub from: u32,
    /// The last event, 4294967295 by default.
    pub to: u32,
    /// The file of the notes, if one is named.
    pub notes: Option<&'a str>,
}
