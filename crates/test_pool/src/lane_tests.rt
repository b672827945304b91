ghost use Rattle.std.specs.Prelude.{◌≡◌, ◌<◌, ◌↔◌, length, IsTrue, IfOk};

use fj_gate::Ticket;
use fj_lane::*;
use fj_rules::OutOfMemory;
use std::alloc::Global;
use std::test::*;

fn numbered(number: u64) -> Parcel<u64> {
    Parcel {
        ticket: Ticket(number),
        body: !number,
    }
}

/// Whether this parcel is the one of this number.
fn is_numbered(parcel: &Parcel<u64>, number: u64) -> bool {
    parcel.ticket == Ticket(number) && parcel.body == !number
}

/// Whether there was room for a parcel, and whether it went in. One that does not comes back as it is.
fn pushed(feed: &mut Feed<u64>, number: u64) -> (bool, Result<(), bool>)
    ensures { feed.new.lane ≡ feed.old.lane }
{
    let had_room = feed.has_room();
    match feed.push(numbered(number)) {
        Ok(()) => (had_room, Ok(())),
        Err((LaneSpent, back)) => (had_room, Err(is_numbered(&back, number))),
    }
}

/// Whether the next parcel is the one of this number. None where nothing is in the lane.
fn taken(drain: &mut Drain<u64>, number: u64) -> Option<bool>
    ensures { drain.new.lane ≡ drain.old.lane }
{
    match drain.take() {
        Some(parcel) => Some(is_numbered(&parcel, number)),
        None => None,
    }
}

/// The capacity counts pushes over the lane's life, so a take makes no room.
#[test]
fn steps_in_figures(rt: HostRuntime) -> Result<(), Fail> {
    let (mut feed, mut drain) = lane::<u64>(rt.alloc(), 2)?;
    let first = pushed(&mut feed, 0);
    let second = pushed(&mut feed, 1);
    let oldest = taken(&mut drain, 0);
    let spent = pushed(&mut feed, 2);
    let newest = taken(&mut drain, 1);
    let none = taken(&mut drain, 2);
    let left = meet(feed, drain).next().is_some();
    assert_eq!(rt;
        [first, second, spent],
        [(true, Ok(())), (true, Ok(())), (false, Err(true))]
    );
    assert_eq!(rt; [oldest, newest, none], [Some(true), Some(true), None]);
    assert!(rt; !left);
    Ok(())
}

/// Whether the next parcel that is left is the one of this number. None where nothing is left.
fn next_left(rest: &mut Rest<u64>, number: u64) -> Option<bool> {
    match rest.next() {
        Some(parcel) => Some(is_numbered(&parcel, number)),
        None => None,
    }
}

/// Three parcels go in. The first is taken before the ends meet, the others after that.
fn three_parcels(alloc: Global) -> Result<[Option<bool>; 5], OutOfMemory> {
    let (mut feed, mut drain) = lane::<u64>(alloc, 3)?;
    let _pushed = [
        pushed(&mut feed, 0),
        pushed(&mut feed, 1),
        pushed(&mut feed, 2),
    ];
    let first = taken(&mut drain, 0);
    let mut rest = meet(feed, drain);
    Ok([
        first,
        next_left(&mut rest, 1),
        next_left(&mut rest, 2),
        next_left(&mut rest, 3),
        next_left(&mut rest, 3),
    ])
}

#[test]
fn what_is_left_comes_oldest_first(rt: HostRuntime) -> Result<(), Fail> {
    let found = three_parcels(rt.alloc())?;
    assert_eq!(rt; found, [Some(true), Some(true), Some(true), None, None]);
    Ok(())
}

/// If there is room, the next push succeeds.
fn push_with_room<B: Drop>(feed: &mut Feed<B>, parcel: Parcel<B>) -> bool
    ensures { IsTrue result ↔ (length feed.old.fed < feed.old.capacity) }
{
    if !feed.has_room() {
        return false;
    }
    match feed.push(parcel) {
        Ok(()) => true,
        Err(_) => unreachable!(),
    }
}

/// A parcel goes through a lane of its own, and comes out: the very same, whatever its body is.
fn through<B: Drop>(alloc: Global, parcel: Parcel<B>) -> Result<Parcel<B>, OutOfMemory>
    ensures { IfOk result (λ p. p ≡ parcel) }
{
    let (mut feed, drain) = lane::<B>(alloc, 1)?;
    let Ok(()) = feed.push(parcel) else {
        unreachable!();
    };
    match meet(feed, drain).next() {
        Some(parcel) => Ok(parcel),
        None => unreachable!(),
    }
}

#[test]
fn a_push_succeeds_where_there_is_room(rt: HostRuntime) -> Result<(), Fail> {
    let (mut feed, _drain) = lane::<u64>(rt.alloc(), 1)?;
    assert!(rt; push_with_room(&mut feed, numbered(0)));
    assert!(rt; !push_with_room(&mut feed, numbered(1)));
    Ok(())
}

/// A text that is lent to a body comes back.
fn lent<'a>(alloc: Global, text: &'a str) -> Result<Option<&'a str>, OutOfMemory> {
    let (mut feed, drain) = lane::<(&'a str, u8)>(alloc, 1)?;
    let _ = feed.push(Parcel {
        ticket: Ticket(0),
        body: (text, 1),
    });
    let Some(parcel) = meet(feed, drain).next() else {
        return Ok(None);
    };
    let Parcel { ticket: _, body } = parcel;
    Ok(Some(body.0))
}

#[test]
fn a_body_may_borrow(rt: HostRuntime) -> Result<(), Fail> {
    let text = format!(in rt.alloc(); "a text")?;
    assert_eq!(rt; lent(rt.alloc(), text.as_str())?, Some("a text"));
    Ok(())
}

#[test]
fn a_body_comes_out_as_it_went_in(rt: HostRuntime) -> Result<(), Fail> {
    let parcel = Parcel {
        ticket: Ticket(7),
        body: format!(in rt.alloc(); "body 7")?,
    };
    let same = through(rt.alloc(), parcel)?;
    assert!(rt; same.ticket == Ticket(7) && same.body.as_str() == "body 7");
    Ok(())
}

/// Whether as many parcels go in.
fn takes_in(feed: &mut Feed<u64>, count: u64) -> bool {
    for number in 0..count {
        if feed.push(numbered(number)).is_err() {
            return false;
        }
    }
    true
}

/// Whether as many come out, in order, and no other.
fn gives(drain: &mut Drain<u64>, count: u64) -> bool {
    for number in 0..count {
        match drain.take() {
            Some(parcel) if is_numbered(&parcel, number) => {}
            _ => return false,
        }
    }
    drain.take().is_none()
}

/// `tests/refused_memory/makings.sh` runs this with failing allocations once the lane is made.
#[test]
fn a_hundred_parcels_in_order(rt: HostRuntime) -> Result<(), Fail> {
    let (mut feed, mut drain) = lane::<u64>(rt.alloc(), 100)?;
    assert!(rt; takes_in(&mut feed, 100));
    assert!(rt; gives(&mut drain, 100));
    Ok(())
}

#[test]
fn the_largest_lane_gives_all_that_it_took(rt: HostRuntime) -> Result<(), Fail> {
    let (mut feed, mut drain) = lane::<u64>(rt.alloc(), 65_536)?;
    assert!(rt; takes_in(&mut feed, 65_536));
    assert!(rt; feed.push(numbered(65_536)).is_err());
    assert!(rt; gives(&mut drain, 65_536));
    Ok(())
}
