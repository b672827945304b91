//! A job of one's own: the numbers on standard input, one a line, are written in order. A half is sorted by another worker, if one is idle.
#![tactic(auto)]

mod sort;

use crate::sort::Sort;
use anyhow::Result;
use fj_try::{Settings, try_invoke};

fn main(rt: HostRuntime) -> Result<()> {
    let alloc = rt.alloc();
    let mut numbers: Vec<u32> = Vec::new(alloc);
    for line in rt.lines(alloc) {
        numbers.push(line?.trim().parse()?)?;
    }
    let job = Sort {
        numbers: numbers.as_slice(),
    };
    let sorted = try_invoke(&rt, alloc, Settings::available(&rt), job)?;
    for number in sorted {
        println!(rt; "{number}")?;
    }
    Ok(())
}
