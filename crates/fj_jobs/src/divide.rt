ghost use Rattle.std.specs.Prelude.{◌≡◌, ℕ, ◌<◌, IfOk, IfErr, true};
ghost use Rattle.fj_jobs.specs.Finals.{IsFinal};

/// A job that is a leaf, or is done by two smaller jobs: the usual `RecursiveTask`.
///
/// Its laws: splitting lowers `size`; the value of a job that splits is the combination of its halves' values, the left one first; the
/// value of a leaf is its `leaf`; jobs with equal keys have equal values. So each job has one value, however it is computed.
pub trait Divide: Drop {
    /// What a value depends on.
    type Key: Eq + Drop;

    /// The type of the value.
    type Out: Drop;

    /// The key of a job.
    ghost key_of: { Self → Self.Key };

    /// The value of the jobs with this key.
    ghost value: { Self.Key → Self.Out };

    /// The value of a job that does not split.
    ghost leaf_of: { Self → Self.Out };

    /// The value of a job from the values of its halves, the left one first.
    ghost combined: { Self.Out → Self.Out → Self.Out };

    /// How large a job is: each half is smaller.
    ghost size: { Self → ℕ };

    /// What the value of the job depends on.
    fn key(&self) -> Self::Key
        ensures { result ≡ key_of self.now };

    /// The left and the right half of the job; the job itself, unchanged, as `Err` where it is a leaf.
    fn split(self) -> Result<(Self, Self), Self>
        ensures halves { IfOk result (λ p. value (key_of self) ≡ combined (value (key_of p.0)) (value (key_of p.1))) }
        ensures smaller { IfOk result (λ p. (size p.0 < size self) × (size p.1 < size self)) }
        ensures leaf { IfErr result (λ j. (j ≡ self) × (value (key_of j) ≡ leaf_of j)) };

    /// The value of the job, if it is a leaf.
    fn leaf(&self) -> Self::Out
        ensures { result ≡ leaf_of self.now };

    /// The value of a job from the values of its halves.
    fn combine(left: Self::Out, right: Self::Out) -> Self::Out
        ensures { result ≡ combined left right };

    /// Whether this value is final: combining it with any value on its right gives it again, and the same holds for each value that ends in
    /// it. Then nothing right of it is begun. `false` unless overridden.
    fn is_final(_value: &Self::Out) -> bool
        ensures { result ≡ true → IsFinal combined _value.now }
    {
        false
    }

    /// Jobs with equal keys have equal values.
    ghost same_value: { (a b : Self.Key) → Self.Key.eq a b ≡ true → value a ≡ value b };
}

/// Computes the value of a job on the calling thread. It takes no memory but the stack, as deep as the job splits, and begins nothing right
/// of a final value.
pub fn compute<J: Divide>(job: J) -> J::Out
    ensures { result ≡ J.value (J.key_of job) }
{
    match job.split() {
        Ok((left, right)) => {
            let left = compute(left);
            if J::is_final(&left) {
                return left;
            }
            J::combine(left, compute(right))
        }
        Err(leaf) => leaf.leaf(),
    }
}
