//! Tests of the machine from outside: a program that replays the scripts of text files.
//!
//! `test_machine FILE..` prints how many scripts each file has. A script with another reply than in the file is reported on standard
//! error, with its place; then the exit status is 1.
#![tactic(auto)]

mod answers;
mod report;
mod script;
mod shown;

use crate::report::report_on;
use anyhow::{Result, bail};
use std::alloc::Global;
use std::{env, fs};

/// Replays the scripts of a file, and prints how many it has, and which reply of each is wrong. Whether none is.
fn replay(rt: &HostRuntime, alloc: Global, name: &String) -> Result<bool> {
    let text = fs::read_to_string(rt, name.as_str())?;
    let found = report_on(alloc, name, &text)?;
    println!(rt; "scripts in {name}: {}", found.scripts)?;
    eprint!(rt; "{}", found.mismatches)?;
    Ok(found.mismatches.is_empty())
}

fn main(rt: HostRuntime) -> Result<()> {
    let alloc = rt.alloc();
    let args: Vec<String> = env::args(&rt)?.collect(alloc)?;
    if args.len() < 2 {
        bail!("usage: test_machine FILE..");
    }
    let mut is_well = true;
    for name in args.iter().skip(1) {
        is_well &= replay(&rt, alloc, name)?;
    }
    if !is_well {
        bail!("not each script gave its replies");
    }
    Ok(())
}
