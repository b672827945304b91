use crate::one_by_one::OneByOne;
use fj_invoke::{Interval, Settings, invoke_lazily};
use std::test::Fail;

/// A million levels, on either side, by one worker and by four. `tests/refused_memory/deep.sh` refuses each allocation of this test in turn.
#[test]
fn a_job_may_be_a_million_levels_deep(rt: HostRuntime) -> Result<(), Fail> {
    for workers in [1, 4] {
        for right in [false, true] {
            let job = OneByOne {
                numbers: Interval::new(1, 1_000_000),
                right,
            };
            let sum = invoke_lazily(&rt, rt.alloc(), Settings::workers(workers)?, job)?;
            assert_eq!(rt; sum, 500_000_500_000, "{workers} workers, right: {right}");
        }
    }
    Ok(())
}
