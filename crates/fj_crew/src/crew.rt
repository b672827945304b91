/// What the workers of a crew share, and what each does with a hand of its own.
pub trait Crew<H> {
    /// The number of the worker whose hand this is.
    fn number_of(&self, hand: &H) -> usize;

    /// What a worker does, to its end.
    fn work(&self, hand: &mut H);
}

/// What the thread of the caller does while the workers work.
pub trait Caller {
    /// What comes of it.
    type Out;

    /// Does it, and sees to it that the workers end. `all` is whether there is a thread for each worker; else some do not work.
    fn run(self, all: bool) -> Self::Out;
}
