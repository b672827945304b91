ghost use Rattle.std.specs.Prelude.{◌<◌, length};

use fj_model::Serial;
use fj_queues::*;
use std::test::*;

fn crosses<T: Send + Drop>(_value: T) {}

#[test]
fn numbers_tell_how_many_there_are(rt: HostRuntime) -> Result<(), Fail> {
    let mut queues = Queues::new(rt.alloc(), 1, 2)?;
    queues.push(0, Serial(3));
    queues.push(0, Serial(4));
    assert_eq!(rt; queues.numbers(0).size_hint(), (2, Some(2)));
    assert!(rt; Numbers::none().next().is_none());
    crosses(queues);
    Ok(())
}

/// How many owners and cells there are, how many numbers queue 1 has and all have; both ends of queue 1.
fn told(queues: &Queues) -> ([usize; 4], [Option<Serial>; 2])
    requires { 1 < length queues.now.lists }
{
    let counts = [
        queues.owners(),
        queues.room(),
        queues.len(1),
        queues.total(),
    ];
    (counts, [queues.oldest(1), queues.newest(1)])
}

#[test]
fn numbers_leave_at_both_ends(rt: HostRuntime) -> Result<(), Fail> {
    let mut queues = Queues::new(rt.alloc(), 2, 3)?;
    queues.push(1, Serial(10));
    queues.push(1, Serial(11));
    queues.push(0, Serial(12));
    let before = told(&queues);
    let taken = [queues.take_old(1), queues.take_new(1), queues.take_old(1)];
    let after = told(&queues);
    assert_eq!(rt;
        before,
        ([2, 3, 2, 3], [Some(Serial(10)), Some(Serial(11))])
    );
    assert_eq!(rt; taken, [Some(Serial(10)), Some(Serial(11)), None]);
    assert_eq!(rt; after, ([2, 3, 0, 1], [None, None]));
    Ok(())
}

/// It allocates only where its queues are made, and `tests/refused_memory/makings.sh` refuses that.
#[test]
fn many_owners_share_two_cells(rt: HostRuntime) -> Result<(), Fail> {
    let mut queues = Queues::new(rt.alloc(), 64, 2)?;
    queues.push(63, Serial(0));
    queues.push(0, Serial(1));
    assert_eq!(rt; queues.take_new(63), Some(Serial(0)));
    queues.push(63, Serial(2));
    assert_eq!(rt; queues.first_from(1), Some(63));
    Ok(())
}
