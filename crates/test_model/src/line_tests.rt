use fj_model::{LineFault, Mode, Serial, Step, WorkerId, read_head, read_step};
use std::test::*;

#[test]
fn a_heading_and_a_step_are_read(rt: HostRuntime) {
    let heading = read_head(b"joining 2 1 8 64");
    assert_eq!(rt; heading, Ok((Mode::Joining, [2, 1, 8, 64])));
    let join = Step::Join {
        w: WorkerId(1),
        t: Serial(7),
        r: 4_294_967_295,
    };
    assert_eq!(rt; read_step(b"join 1 7 4294967295"), Ok(join));
    assert_eq!(rt; read_step(b"join 1 07 0"), Err(LineFault));
}
