use fj_model::*;
use std::alloc::Global;
use std::test::*;

/// The line of a reply, with queue numbers of a pool of two submitters.
fn line_of(alloc: Global, said: Said) -> Result<String, Fail> {
    let limits = Limits::new(32, 2, 8, 16)?;
    let mut text = String::new(alloc);
    Reply::new(said, &limits).push_line(&mut text)?;
    Ok(text)
}

#[test]
fn replies_are_printed(rt: HostRuntime) -> Result<(), Fail> {
    let rows = [
        (Said::Task(Serial(0)), "task 0\n"),
        (
            Said::Task(Serial(18_446_744_073_709_551_615)),
            "task 18446744073709551615\n",
        ),
        (Said::None, "none\n"),
        (Said::Run(Serial(10)), "run 10\n"),
        (Said::Skip(Serial(9)), "skip 9\n"),
        (Said::Done, "done\n"),
        (Said::Counted(Serial(1)), "counted 1\n"),
        (Said::Hook(Serial(2)), "hook 2\n"),
        (Said::Spent(Serial(3)), "spent 3\n"),
        (Said::Early(Serial(4)), "early 4\n"),
        (Said::Root(Serial(5)), "root 5\n"),
        (Said::Count(65_535), "count 65535\n"),
        (Said::Yes, "yes\n"),
        (Said::No, "no\n"),
        (Said::Normal, "normal\n"),
        (Said::Exceptional(4_294_967_295), "exceptional 4294967295\n"),
        (Said::Cancelled, "cancelled\n"),
        (
            Said::State(Place::Queued(Owner::Work(WorkerId(31))), Status::Normal),
            "state queued 33 normal\n",
        ),
    ];
    for (said, line) in rows {
        assert_eq!(rt; line_of(rt.alloc(), said)?.as_str(), line);
    }
    Ok(())
}
