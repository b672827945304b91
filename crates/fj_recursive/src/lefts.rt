ghost use Rattle.std.specs.Prelude.{◌≡◌, ◌<◌, ◌++◌, ◌∷◌, [], IfOk, IfErr, IfSome, IfNone, map, vec_len};
ghost use Rattle.fj_recursive.specs.Asks.{forked_in};
ghost use Rattle.fj_recursive.specs.Recursions.{left_value, tail_value};

use crate::recursive_stage::Left;
use fj_jobs::Divide;
use fj_rules::Serial;

/// Combines the values of the last left halves with everything right of them, down to the last one that was forked: `Err` is its task, its
/// key, and the value of everything right of it. `Ok` is the value of the whole.
pub fn fold_done<J: Divide>(
    lefts: &mut Vec<Left<J>>,
    tail: J::Out,
) -> Result<J::Out, (Serial, J::Key, J::Out)>
    ensures all { IfOk result (λ v. tail_value J.combined (map (left_value J.value) lefts.old.items) tail ≡ v) }
    ensures one { IfErr result (λ w. tail_value J.combined (map (left_value J.value) lefts.new.items) (J.combined (J.value w.1) w.2) ≡ tail_value J.combined (map (left_value J.value) lefts.old.items) tail) }
    ensures fewer { IfErr result (λ w. vec_len lefts.new < vec_len lefts.old) }
    ensures none { IfOk result (λ v. forked_in lefts.old.items ≡ []) }
    ensures last { IfErr result (λ w. forked_in lefts.old.items ≡ forked_in lefts.new.items ++ w.0 ∷ []) }
{
    let mut value = tail;
    while let Some(left) = lefts.pop() {
        match left {
            Left::Done(out) => value = J::combine(out, value),
            Left::Forked(task, key) => return Err((task, key, value)),
        }
    }
    Ok(value)
}

/// Takes out the left half that was forked last, and those after it. None where there is none.
pub fn last_forked<J: Divide>(lefts: &mut Vec<Left<J>>) -> Option<Serial>
    ensures some { IfSome result (λ t. forked_in lefts.old.items ≡ forked_in lefts.new.items ++ t ∷ []) }
    ensures fewer { IfSome result (λ t. vec_len lefts.new < vec_len lefts.old) }
    ensures none { IfNone result (forked_in lefts.old.items ≡ []) }
{
    while let Some(left) = lefts.pop() {
        match left {
            Left::Forked(task, _) => return Some(task),
            Left::Done(_) => {}
        }
    }
    None
}
