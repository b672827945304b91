use fj_jobs::Divide;
use fj_rules::Serial;

/// A left half that was forked, as this task with this key, or its value.
#[derive(Drop)]
pub enum Left<J: Divide> {
    Forked(Serial, J::Key),
    Done(J::Out),
}

/// What a recursive body does next, apart from the left halves that it has put aside.
#[derive(Drop)]
pub enum RecursiveStage<J: Divide> {
    /// It goes on with this job.
    Going(J),
    /// It forks a left half with this key, and goes on with this job.
    Forking(J, J::Key),
    /// It joins this task, a left half with this key; everything right of it has this value.
    Waiting(Serial, J::Key, J::Out),
    /// It releases what it forked, and then fails with this code.
    Leaving(u32),
    /// It has ended.
    Over,
}
