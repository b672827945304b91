use fj_gate::{Ticket, Tickets, gate, meet};
use std::test::Fail;

/// `tests/refused_memory/makings.sh` runs this with failing allocations once the gate is made.
#[test]
fn an_open_gate_meets_without_a_number(rt: HostRuntime) -> Result<(), Fail> {
    let (mut entrants, closer) = gate(rt.alloc(), 1, 2)?;
    let Some(mut only) = entrants.pop() else {
        panic!(&rt; "one entrant");
    };
    assert_eq!(rt; only.admit(), Ok(Ticket(0)));
    entrants.push(only)?;
    assert_eq!(rt;
        meet(entrants, closer),
        Tickets {
            drawn: 1,
            closed: None
        }
    );
    Ok(())
}
