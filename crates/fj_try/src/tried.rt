use crate::try_divide::TryDivide;
use std::alloc::Global;
use std::marker::Model;

/// The result of a part of a job: a value that is right for the key beside it, or a failure.
///
/// For the pool all of these count as one value, since which one it is may depend on memory. So a failure is final, and what is right of it
/// is not begun.
#[derive(Drop)]
pub struct Tried<J: TryDivide> {
    end: Result<(J::Key, J::Out), J::Error>,
    alloc: Global,
}

impl<J: TryDivide> Model for Tried<J> {
    ghost use Rattle.std.specs.Prelude.{⊤, IfOk};

    ghost Value = { ⊤ };

    ghost view = { λ t. tt };

    ghost invariant = { λ t. IfOk t.end (λ r. ∥ J.gives r.0 r.1 ∥₁) };
}

impl<J: TryDivide> Tried<J> {
    ghost use Rattle.std.specs.Prelude.{IfOk};

    /// The result of a leaf.
    pub fn at(job: &J, alloc: Global) -> Tried<J> {
        let end = match job.leaf(alloc) {
            Ok(out) => Ok((job.key(), out)),
            Err(error) => Err(error),
        };
        Tried { end, alloc }
    }

    /// The result of two halves: the failure of the left one, or else of the right one, or else their values combined.
    pub fn then(self, right: Tried<J>) -> Tried<J> {
        let Tried { end: left, alloc } = self;
        let left = match left {
            Ok(left) => left,
            Err(error) => return Tried {
                end: Err(error),
                alloc,
            },
        };
        let Tried {
            end: right,
            alloc: _,
        } = right;
        let right = match right {
            Ok(right) => right,
            Err(error) => return Tried {
                end: Err(error),
                alloc,
            },
        };
        Tried {
            end: J::combine(alloc, left, right),
            alloc,
        }
    }

    /// Whether it is a failure.
    pub fn is_failure(&self) -> bool {
        self.end.is_err()
    }

    /// The value with its key, or the failure.
    pub fn into_end(self) -> Result<(J::Key, J::Out), J::Error>
        ensures { IfOk result (λ r. ∥ J.gives r.0 r.1 ∥₁) }
    {
        let Tried { end, alloc: _ } = self;
        end
    }
}
