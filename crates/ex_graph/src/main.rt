//! A graph of targets. Each line of standard input is a target: how long its compiler takes, where 0 fails, and the numbers of the targets
//! that it needs. The fate of each is written.
#![tactic(auto)]

mod compiler;

use crate::compiler::Compiler;
use anyhow::{Context, Result};
use fj_graph::{Fate, Graph, NodeId, Policy, Settings, StopFlag, run_graph};

fn main(rt: HostRuntime) -> Result<()> {
    let (graph, compiler) = read_targets(&rt)?;
    let ran = run_graph(
        &rt,
        rt.alloc(),
        Settings::available(&rt),
        Policy::KeepGoing,
        graph,
        &compiler,
        &StopFlag::new(),
    )?;
    for (number, fate) in ran.fates.iter().enumerate() {
        match fate {
            Fate::Done => println!(rt; "{number} done")?,
            Fate::Failed(code) => println!(rt; "{number} failed with code {code}")?,
            Fate::Skipped => println!(rt; "{number} skipped")?,
        }
    }
    Ok(())
}

/// The targets on standard input, and how long each takes.
fn read_targets(rt: &HostRuntime) -> Result<(Graph, Compiler)> {
    let alloc = rt.alloc();
    let mut graph = Graph::new(alloc);
    let mut efforts: Vec<u32> = Vec::new(alloc);
    let mut needed: Vec<(NodeId, NodeId)> = Vec::new(alloc);
    for line in rt.lines(alloc) {
        let line = line?;
        let mut words = line.split_whitespace();
        let effort = words.next().context("an empty line")?;
        efforts.push(effort.parse()?)?;
        let target = graph.node()?;
        for word in words {
            needed.push((target, NodeId(word.parse()?)))?;
        }
    }
    for (target, input) in needed {
        graph.needs(target, input)?;
    }
    Ok((graph, Compiler { efforts }))
}
