//! A body of which nothing is promised: the 90th Fibonacci number, by forks and joins.
#![tactic(auto)]

mod fib;

use crate::fib::Fib;
use anyhow::Result;
use fj_free::{Settings, run_free};

fn main(rt: HostRuntime) -> Result<()> {
    let job = Fib { n: 90, smaller: 0 };
    let number = run_free(&rt, rt.alloc(), Settings::available(&rt), job)?;
    println!(rt; "{number}")?;
    Ok(())
}
