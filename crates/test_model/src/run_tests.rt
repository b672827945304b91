use fj_machine::{Machine, run};
use fj_rules::{Ending, Limits, Mode, Refusal, Said, Serial, Step, SubId, SubmittedKind, WorkerId};
use std::alloc::{AllocError, Global};
use std::test::Fail;

const fn submit(s: u32) -> Step {
    Step::Submit {
        s: SubId(s),
        kind: SubmittedKind::Plain,
    }
}

const fn poll(w: u32, r: u32) -> Step {
    Step::Poll { w: WorkerId(w), r }
}

/// A life has five events, so so many of them leave room for one event in the largest history.
const LIVES: u64 = 209_715;

/// The lives of plain tasks, four steps each, from submission to release; then the first two steps of one more.
fn lives(alloc: Global) -> Result<Vec<Step>, AllocError> {
    let w = WorkerId(0);
    let ending = Ending::Ok;
    let mut steps = Vec::new(alloc);
    for number in 0..LIVES {
        let t = Serial(number);
        let life = [
            submit(0),
            poll(0, 0),
            Step::End { w, ending },
            Step::Release { t },
        ];
        steps.extend_from_slice(life.as_slice())?;
    }
    steps.extend_from_slice([submit(0), poll(0, 0)].as_slice())?;
    Ok(steps)
}

/// Whether these are the replies to such lives.
fn are_lives(replies: &[Said]) -> bool {
    let mut number = 0u64;
    for told in replies.chunks(4) {
        let t = Serial(number);
        let life = [Said::Task(t), Said::Run(t), Said::Done, Said::Done];
        let last = [Said::Task(t), Said::Refused(Refusal::LogFull)];
        if told != life.as_slice() && !(number == LIVES && told == last.as_slice()) {
            return false;
        }
        number = number.saturating_add(1);
    }
    number == LIVES + 1
}

/// How many events these steps make, and the replies.
fn ran(alloc: Global, steps: &[Step]) -> Result<(usize, Vec<Said>), Refusal> {
    let limits = Limits::new(1, 1, 1, 1_048_576)?;
    let (machine, replies) = run(alloc, Mode::Async, limits, steps)?;
    Ok((machine.history().len(), replies))
}

#[test]
fn one_run_fills_the_largest_history(rt: HostRuntime) -> Result<(), Fail> {
    let steps = lives(rt.alloc())?;
    let (events, replies) = ran(rt.alloc(), steps.as_slice())?;
    assert!(rt; events == 1_048_576 && are_lives(replies.as_slice()));
    Ok(())
}

/// The last submitter submits as many tasks as are allowed.
fn fill(machine: &mut Machine) {
    for _ in 0..4096 {
        machine.step(&submit(31));
    }
}

/// The replies once no more tasks can be submitted.
fn last_replies(machine: &mut Machine) -> (Said, Said, Said, Said) {
    let submitted = machine.step(&submit(31));
    let first = machine.step(&poll(31, 63));
    let second = machine.step(&poll(30, u32::MAX));
    let third = machine.step(&poll(31, 0));
    (submitted, first, second, third)
}

/// The same of a machine with the largest limits.
fn last_of_full(alloc: Global) -> Result<(Said, Said, Said, Said), Refusal> {
    let limits = Limits::new(32, 32, 4096, 1_048_576)?;
    let mut machine = Machine::new(alloc, Mode::Joining, limits)?;
    fill(&mut machine);
    Ok(last_replies(&mut machine))
}

/// The largest limits, and a scan word that must not wrap.
#[test]
fn the_largest_limits_hold(rt: HostRuntime) -> Result<(), Fail> {
    let last = last_of_full(rt.alloc())?;
    let full = Said::Refused(Refusal::TooManyTasks);
    let busy = Said::Refused(Refusal::NotIdle);
    assert_eq!(rt;
        last,
        (full, Said::Run(Serial(0)), Said::Run(Serial(1)), busy)
    );
    Ok(())
}
