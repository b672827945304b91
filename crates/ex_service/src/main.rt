//! A service. Each line of standard input is an event; what its handler answers is written in the order of the events.
#![tactic(auto)]

mod answers;
mod event;
mod events;

use crate::answers::Answers;
use crate::events::Events;
use anyhow::{Result, bail};
use fj_serve::{Open, Served, Settings, Window, serve};
use std::alloc::Global;
use std::collections::VecDeque;
use std::sync::Wait;
use std::thread::Threads;

fn main(rt: HostRuntime) -> Result<()> {
    let numbers = read_numbers(&rt)?;
    let served = serve_all(&rt, rt.alloc(), Settings::available(&rt), numbers)?;
    for answer in served.consumer.answers.as_slice() {
        println!(rt; "{answer}")?;
    }
    println!(rt;
        "{} events, {}",
        served.bodies,
        if served.consumer.lost {
            "some lost"
        } else {
            "none lost"
        }
    )?;
    Ok(())
}

/// The numbers on standard input, one on each line.
fn read_numbers(rt: &HostRuntime) -> Result<VecDeque<u32>> {
    let mut numbers = VecDeque::new(rt.alloc());
    for line in rt.lines(rt.alloc()) {
        numbers.push_back(line?.trim().parse()?)?;
    }
    Ok(numbers)
}

/// Handles an event for each number.
fn serve_all<R: Threads + Wait + Sync>(
    rt: &R,
    alloc: Global,
    settings: Settings,
    numbers: VecDeque<u32>,
) -> Result<Served<Events, Answers>> {
    let producer = Events { numbers };
    let consumer = Answers {
        answers: Vec::new(alloc),
        lost: false,
    };
    // The most events under way.
    let window = Window::in_order(100);
    match serve(rt, alloc, settings, window, producer, consumer, &Open) {
        Ok(served) => Ok(served),
        Err(unserved) => bail!("{}", unserved.refusal),
    }
}
