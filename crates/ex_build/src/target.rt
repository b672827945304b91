ghost use Rattle.std.specs.Prelude.{◌≡◌, true};

/// A target's own sources.
#[derive(Clone, Copy, Debug, PartialEq, Eq)]
pub enum Source {
    /// They compile to objects of so many bytes.
    Compiles(u32),
    /// The compiler ends with this code.
    Fails(u32),
}

/// What is to be built: its own sources, and the targets that are linked in, by their numbers in the plan.
#[derive(Clone, Copy, Debug, PartialEq, Eq)]
pub struct Target<'p> {
    /// Its own sources.
    pub source: Source,
    /// The targets that it needs.
    pub inputs: &'p [usize],
}
