ghost use Rattle.std.specs.Prelude.{◌≡◌, IfOk};

use crate::number::Number;
use fj_agreement::*;
use fj_rules::OutOfMemory;
use std::alloc::Global;
use std::marker::Brand;
use std::test::*;

impl Agreed<Number> for Brand {
    ghost value = { 0 };
}

/// Both ends know a number of the caller's from now on.
fn agree_as_picked<A: Agreed<Number>>(one: &mut End<Number>, other: &mut End<Number>, _number: u64)
    requires picked { A.value ≡ _number }
    requires pair { one.old.pair ≡ other.old.pair }
    ensures value { (one.new.value ≡ _number) × (other.new.value ≡ _number) }
    ensures stays { (one.new.pair ≡ one.old.pair) × (other.new.pair ≡ other.old.pair) }
{
    one.agree::<A>(other);
}

/// Ends that have agreed on both numbers in turn, and met before, between and after that.
fn agreed(alloc: Global, first: u64, second: u64) -> Result<(End<Number>, End<Number>), OutOfMemory>
    ensures pair { IfOk result (λ r. r.0.pair ≡ r.1.pair) }
    ensures value { IfOk result (λ r. (r.0.value ≡ second) × (r.1.value ≡ second)) }
{
    let (mut one, mut other) = pair(alloc)?;
    one.meet(&mut other);
    one.agree_on(&mut other, &first);
    other.meet(&mut one);
    agree_as_picked::<Brand>(&mut other, &mut one, second);
    one.meet(&mut other);
    Ok((one, other))
}

#[test]
fn ends_agree_again(rt: HostRuntime) -> Result<(), Fail> {
    let _ends = agreed(rt.alloc(), 7, 9)?;
    Ok(())
}

/// An end is dropped after the other one.
#[test]
fn an_end_outlives_the_other(rt: HostRuntime) -> Result<(), Fail> {
    let (one, other) = pair::<Number>(rt.alloc())?;
    drop(one);
    drop(other);
    Ok(())
}
