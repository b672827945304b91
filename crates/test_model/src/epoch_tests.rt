use fj_lines::read_step;
use fj_machine::{Machine, run_epochs};
use fj_rules::{
    Answer, Ending, InnerTypes, Limits, Mode, Move, OutOfMemory, Refusal, Said, Serial, Step,
    SubId, SubmittedKind, WorkerId,
};
use std::alloc::Global;
use std::test::*;

/// A machine with an open completer and a gone task, both kept: 7 events, 1 open, 1 gone.
fn made(rt: &HostRuntime) -> Result<Machine, Fail> {
    let mut machine = Machine::new(rt.alloc(), Mode::Async, Limits::new(1, 1, 4, 7)?)?;
    let w = WorkerId(0);
    let s = SubId(0);
    let completer = SubmittedKind::Completer {
        relay: true,
        count: 1,
    };
    let quiet = Step::End {
        w,
        ending: Ending::Quiet,
    };
    let ok = Step::End {
        w,
        ending: Ending::Ok,
    };
    let poll = Step::Poll { w, r: 0 };
    machine.step(&Step::Submit { s, kind: completer });
    machine.step(&Step::Submit {
        s,
        kind: SubmittedKind::Plain,
    });
    for step in [poll, quiet, poll, ok] {
        machine.step(&step);
    }
    Ok(machine)
}

/// Whether it is as `made` makes it.
fn is_as_made(machine: &Machine) -> bool {
    machine.history().len() == 7
        && machine.gone() == [Serial(1)].as_slice()
        && machine.open() == [Serial(0)].as_slice()
        && machine.epoch() == 0
}

/// Seals a machine as `made` makes it; where there is no memory, once more. Whether all was handed out, and whether there was none.
fn sealed(alloc: Global, machine: &mut Machine) -> Result<(bool, bool), Refusal> {
    let (part, is_refused) = match machine.seal(alloc) {
        Ok(part) => (part, false),
        Err(Refusal::OutOfMemory) if is_as_made(machine) => (machine.seal(alloc)?, true),
        Err(refusal) => return Err(refusal),
    };
    let is_whole = part.events.len() == 7
        && part.gone.as_slice() == [Serial(1)].as_slice()
        && machine.history().is_empty()
        && machine.open() == [Serial(0)].as_slice();
    Ok((is_whole, is_refused))
}

/// `tests/refused_memory/seal.sh` refuses each allocation of this test in turn, and reads what it prints.
#[test]
fn a_seal_without_memory_changes_nothing(rt: HostRuntime) -> Result<(), Fail> {
    let mut machine = made(&rt)?;
    let was_made = is_as_made(&machine);
    let sealed = sealed(rt.alloc(), &mut machine);
    // It is let go at one place, since each proves its drop.
    drop(machine);
    let (is_whole, is_refused) = sealed?;
    assert!(rt; was_made && is_whole);
    if is_refused {
        println!(rt; "a seal was refused")?;
    }
    Ok(())
}

/// The move that a line asks for; a line that is no step is a seal.
fn move_of(line: &str) -> Move {
    // For the proof: see `InnerTypes`.
    let _inside: Option<InnerTypes> = None;
    match read_step(line.as_bytes()) {
        Ok(step) => Move::Step(step),
        Err(_) => Move::Seal,
    }
}

/// Moves that submit another task after the seal.
fn moves(alloc: Global) -> Result<Vec<Move>, OutOfMemory> {
    // For the proof: see `InnerTypes`.
    let _inside: Option<InnerTypes> = None;
    let mut moves = Vec::new(alloc);
    for line in ["submit 0", "poll 0 0", "end 0 ok", "seal", "submit 0"] {
        moves.push(move_of(line))?;
    }
    Ok(moves)
}

/// Whether the seal among these answers was refused. None where they are others, or there are other parts, or events since.
fn is_refused(answers: &[Answer], parts: usize, events: usize) -> Option<bool> {
    if answers.len() != 5 {
        return None;
    }
    let (seal, last) = (&answers[3], &answers[4]);
    let goes_on = matches!(last, Answer::Said(Said::Task(Serial(1))));
    match seal {
        Answer::Sealed if goes_on && parts == 1 && events == 1 => Some(false),
        Answer::Refused(Refusal::OutOfMemory) if goes_on && parts == 0 && events == 5 => Some(true),
        _ => None,
    }
}

/// Whether the seal among these moves is refused.
fn ran(alloc: Global, moves: &[Move]) -> Result<Option<bool>, Refusal> {
    // For the proof: see `InnerTypes`.
    let _inside: Option<InnerTypes> = None;
    let limits = Limits::new(1, 1, 2, 5)?;
    let (machine, parts, answers) = run_epochs(alloc, Mode::Async, limits, moves)?;
    Ok(is_refused(answers.as_slice(), parts.len(), machine.history().len()))
}

/// `tests/refused_memory/seal.sh` does the same with this one.
#[test]
fn a_list_goes_on_behind_a_seal_without_memory(rt: HostRuntime) -> Result<(), Fail> {
    let moves = moves(rt.alloc())?;
    let refused = ran(rt.alloc(), moves.as_slice())?;
    assert!(rt; refused.is_some());
    if refused == Some(true) {
        println!(rt; "a seal was refused")?;
    }
    Ok(())
}
