use fj_jobs::Divide;
use fj_rules::Serial;

/// A part of a job, beside the part that is computed.
#[derive(Drop)]
pub enum Inner<J: Divide> {
    /// A right half that nobody has begun.
    Pending(J),
    /// The value of a left half.
    Done(J::Out),
}

/// A part of a job, around all those that may be forked.
#[derive(Drop)]
pub enum Outer<J: Divide> {
    /// A right half that was forked, as this task with this key.
    Forked(Serial, J::Key),
    /// The value of a left half.
    Done(J::Out),
}

/// Where a descent stops.
#[derive(Drop)]
pub enum DescentEnd<J: Divide> {
    /// Before this leaf: a worker asks for work, or the body is not needed.
    Leaf(J),
    /// Before this job, which is too deep for the thread's stack.
    Deep(J),
}

/// What comes next once a value is known.
#[derive(Drop)]
pub enum Climb<J: Divide> {
    /// This job is computed.
    Next(J),
    /// This task, a right half with this key, is joined; everything left of it has this value.
    Join(Serial, J::Key, J::Out),
    /// This task, a right half, is released, since everything left of it has this value, which is final.
    Skip(Serial, J::Out),
    /// It is the value of the whole.
    Whole(J::Out),
}

/// What a lazy body does next, apart from the parts that it has put aside.
#[derive(Drop)]
pub enum LazyStage<J: Divide> {
    /// It goes on with this job.
    Going(J),
    /// It forks a right half with this key, which is between the outer and the inner parts, and goes on with this leaf within these.
    Forking(J::Key, J),
    /// It joins this task, a right half with this key; everything left of it has this value.
    Waiting(Serial, J::Key, J::Out),
    /// It releases a right half; everything left of it has this value, which is final.
    Skipping(J::Out),
    /// It releases what it forked, and then fails with this code.
    Leaving(u32),
    /// It has ended.
    Over,
}
