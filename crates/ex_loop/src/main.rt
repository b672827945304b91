//! A loop over data: the sum of the numbers on standard input, one a line, and the place of the first one above a hundred.
#![tactic(auto)]

mod above;
mod sum;

use crate::above::Above;
use crate::sum::Sum;
use anyhow::Result;
use fj_each::{Settings, find_first, map_reduce};

fn main(rt: HostRuntime) -> Result<()> {
    let alloc = rt.alloc();
    let mut numbers: Vec<u32> = Vec::new(alloc);
    for line in rt.lines(alloc) {
        numbers.push(line?.trim().parse()?)?;
    }
    let settings = Settings::available(&rt);
    let sum = map_reduce(&rt, alloc, settings, numbers.as_slice(), &Sum)?;
    println!(rt; "sum {sum}")?;
    let above = Above { limit: 100 };
    match find_first(&rt, alloc, settings, numbers.as_slice(), &above)? {
        Some(place) => println!(rt; "first above {}: at {place}", above.limit)?,
        None => println!(rt; "none above {}", above.limit)?,
    }
    Ok(())
}
