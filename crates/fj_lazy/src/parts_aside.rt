ghost use Rattle.std.specs.Prelude.{◌≡◌, ◌+◌, ◌<◌, ◌≤◌, ◌++◌, ◌∷◌, [], IfOk, IfSome, IfNone, length, vec_len, vec_capacity};
ghost use Rattle.std.specs.VecDeque.{deque_len, deque_capacity};
ghost use Rattle.fj_lazy.specs.PartsAside.{ClimbJoins, Climbs, ClimbsLighter, around, beside, branches, forked_in, inside, outside, weigh, weight, whole};

use crate::descent::{Descent, LEVELS};
use crate::part::{Climb, Inner, Outer};
use fj_jobs::Divide;
use fj_rules::Serial;
use std::alloc::{AllocError, Global};
use std::collections::VecDeque;

/// The parts around the one that is computed, the outermost first.
#[derive(Drop)]
pub struct PartsAside<J: Divide> {
    /// Those around the largest half that nobody has begun.
    pub outer: Vec<Outer<J>>,
    /// The others.
    pub inner: VecDeque<Inner<J>>,
}

impl<J: Divide> PartsAside<J> {
    /// No parts, with room for what a descent may put aside. `AllocError` where out of memory.
    pub fn new(alloc: Global) -> Result<PartsAside<J>, AllocError>
        ensures outer { IfOk result (λ parts. parts.outer.items ≡ []) }
        ensures inner { IfOk result (λ parts. parts.inner.items ≡ []) }
    {
        let mut inner = VecDeque::new(alloc);
        inner.reserve(LEVELS as usize)?;
        Ok(PartsAside {
            outer: Vec::new(alloc),
            inner,
        })
    }

    /// Moves in what a descent has put aside, inside the parts already here. `AllocError` where out of memory.
    pub fn put_in(&mut self, descent: &mut Descent<J>) -> Result<(), AllocError>
        ensures value { IfOk result (λ _. (v : J.Out) → around (beside J.key_of J.value J.combined) self.new.inner.items v ≡ around (beside J.key_of J.value J.combined) self.old.inner.items (inside (beside J.key_of J.value J.combined) descent.old.around.items v)) }
        ensures weight { IfOk result (λ _. weigh (weight J.size) self.new.inner.items ≡ weigh (weight J.size) self.old.inner.items + weigh (weight J.size) descent.old.around.items) }
        ensures outer { self.new.outer.items ≡ self.old.outer.items }
    {
        self.inner.reserve(descent.len())?;
        while let Some(part) = descent.pop() {
            self.inner.push_back_reserved(part);
        }
        Ok(())
    }
}

impl<J: Divide> PartsAside<J> {
    /// Takes out the largest half that nobody has begun, which is the outermost one, and makes room for one more outer part. None where
    /// there is none, or where out of memory.
    pub fn take_largest(&mut self) -> Option<J>
        ensures some { IfSome result (λ half. (v : J.Out) → around (outside J.value J.combined) self.new.outer.items (J.combined (around (beside J.key_of J.value J.combined) self.new.inner.items v) (J.value (J.key_of half))) ≡ whole J.key_of J.value J.combined self.old.outer.items self.old.inner.items v) }
        ensures none { IfNone result ((v : J.Out) → whole J.key_of J.value J.combined self.new.outer.items self.new.inner.items v ≡ whole J.key_of J.value J.combined self.old.outer.items self.old.inner.items v) }
        ensures lighter { IfSome result (λ half. weigh (weight J.size) self.new.inner.items + branches (J.size half) ≤ weigh (weight J.size) self.old.inner.items) }
        ensures same_weight { IfNone result (weigh (weight J.size) self.new.inner.items ≤ weigh (weight J.size) self.old.inner.items) }
        ensures forked { forked_in self.new.outer.items ≡ forked_in self.old.outer.items }
        ensures outer_room { IfSome result (λ half. vec_len self.new.outer < vec_capacity self.new.outer) }
        ensures inner_room { IfSome result (λ half. deque_len self.new.inner < deque_capacity self.new.inner) }
    {
        while self.outer.reserve(1).is_ok() {
            let Some(part) = self.inner.pop_front() else {
                return None;
            };
            match part {
                Inner::Done(left) => self.outer.push_reserved(Outer::Done(left)),
                Inner::Pending(half) => return Some(half),
            }
        }
        None
    }

    /// Puts back a half that was taken out. Precondition: there is room.
    pub fn put_back(&mut self, half: J)
        requires { deque_len self.old.inner < deque_capacity self.old.inner }
        ensures value { (v : J.Out) → around (beside J.key_of J.value J.combined) self.new.inner.items v ≡ J.combined (around (beside J.key_of J.value J.combined) self.old.inner.items v) (J.value (J.key_of half)) }
        ensures weight { weigh (weight J.size) self.new.inner.items ≡ weigh (weight J.size) self.old.inner.items + branches (J.size half) }
        ensures outer { self.new.outer.items ≡ self.old.outer.items }
    {
        self.inner.push_front_reserved(Inner::Pending(half));
    }
}

impl<J: Divide> PartsAside<J> {
    /// Combines a value with those beside it, up to a half that is to be computed, joined or released first. Right of a final value, what
    /// nobody has begun is dropped.
    pub fn climb(&mut self, value: J::Out) -> Climb<J>
        ensures value { Climbs J.key_of J.value J.combined self.new.outer.items self.new.inner.items (whole J.key_of J.value J.combined self.old.outer.items self.old.inner.items value) result }
        ensures lighter { ClimbsLighter J.size self.old.inner.items self.new.inner.items result }
        ensures joins { ClimbJoins (forked_in self.old.outer.items) (forked_in self.new.outer.items) result }
    {
        let mut value = value;
        while let Some(part) = self.inner.pop_back() {
            match part {
                Inner::Pending(right) => {
                    if J::is_final(&value) {
                        continue;
                    }
                    self.inner.push_back_reserved(Inner::Done(value));
                    return Climb::Next(right);
                }
                Inner::Done(left) => value = J::combine(left, value),
            }
        }
        self.climb_outer(value)
    }

    /// The same. Precondition: no inner part is left.
    fn climb_outer(&mut self, value: J::Out) -> Climb<J>
        requires { self.old.inner.items ≡ [] }
        ensures value { Climbs J.key_of J.value J.combined self.new.outer.items self.new.inner.items (around (outside J.value J.combined) self.old.outer.items value) result }
        ensures lighter { ClimbsLighter J.size [] self.new.inner.items result }
        ensures joins { ClimbJoins (forked_in self.old.outer.items) (forked_in self.new.outer.items) result }
    {
        let mut value = value;
        while let Some(part) = self.outer.pop() {
            match part {
                Outer::Forked(task, key) => {
                    if J::is_final(&value) {
                        return Climb::Skip(task, value);
                    }
                    return Climb::Join(task, key, value);
                }
                Outer::Done(left) => value = J::combine(left, value),
            }
        }
        Climb::Whole(value)
    }

    /// Takes out the half that was forked last, with the parts inside it. None where there is none.
    pub fn last_forked(&mut self) -> Option<Serial>
        ensures some { IfSome result (λ t. forked_in self.old.outer.items ≡ forked_in self.new.outer.items ++ t ∷ []) }
        ensures fewer { IfSome result (λ t. length (forked_in self.new.outer.items) < length (forked_in self.old.outer.items)) }
        ensures none { IfNone result (forked_in self.old.outer.items ≡ []) }
    {
        while let Some(part) = self.outer.pop() {
            match part {
                Outer::Forked(task, _) => return Some(task),
                Outer::Done(_) => {}
            }
        }
        None
    }
}
