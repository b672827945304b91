//! The command that folds a tree.
ghost use Rattle.std.specs.Prelude.{◌≡◌, ◌⊎◌};
ghost use Rattle.fj_streams.specs.Calls.{HasFailed};
ghost use Rattle.fj_trees.specs.Trees.{IsTree};
ghost use Rattle.fj_trees.specs.TreeValues.{node_value};
ghost use Rattle.fj_commands.specs.Answers.{EndsJob, number_line};
ghost use Rattle.fj_cli.specs.Answers.{EndsTree, status_of_fault};
ghost use Rattle.fj_commands.specs.Statuses.{IsOfFailure};

use crate::refused::refused;
use fj_arguments::Workers;
use fj_commands::{answered, told_line};
use fj_fold::{Nodes, Open, TreeFault, fold_tree, read_tree};
use fj_streams::{Sink, Source};
use std::alloc::Global;
use std::sync::Wait;
use std::thread::Threads;

/// Reads a tree to the end of the input, writes its value, and answers the exit status.
pub fn run_tree<H: Threads + Wait + Sync, R: Source, W: Sink, E: Sink>(
    rt: &H,
    alloc: Global,
    workers: Workers,
    input: &mut R,
    out: &mut W,
    err: &mut E,
) -> u8
    ensures ends { EndsTree result (R.remaining input.old) (R.remaining input.new) (W.contents out.old) (W.contents out.new) }
    ensures failed { result ≡ 5 → HasFailed (R.calls input.old) (R.calls input.new) ⊎ HasFailed (W.calls out.old) (W.calls out.new) }
{
    match read_tree(alloc, input) {
        Ok(nodes) => fold(rt, alloc, workers, &nodes, out, err),
        Err(fault) => told_of_fault(fault, err),
    }
}

/// Folds the tree, writes its value, and answers the exit status.
fn fold<H: Threads + Wait + Sync, W: Sink, E: Sink>(
    rt: &H,
    alloc: Global,
    workers: Workers,
    nodes: &Nodes,
    out: &mut W,
    err: &mut E,
) -> u8
    // The nodes are a tree.
    ensures tree { IsTree nodes.now }
    ensures job { EndsJob result (number_line (node_value nodes.now 0)) (W.contents out.old) (W.contents out.new) }
    ensures failed { result ≡ 5 → HasFailed (W.calls out.old) (W.calls out.new) }
{
    let _nodes = nodes.as_slice();
    match fold_tree(rt, alloc, workers.count, nodes, &Open) {
        Ok(value) => answered(format!(in alloc; "{value}\n"), out, err),
        Err(refusal) => refused(refusal, err),
    }
}

/// Writes why no tree was read, and answers the exit status.
pub fn told_of_fault<E: Sink>(fault: TreeFault, err: &mut E) -> u8
    ensures status { result ≡ status_of_fault fault }
    ensures fails { IsOfFailure result }
    ensures failed { result ≡ 5 → fault ≡ TreeFault.Read }
{
    match fault {
        TreeFault::Line(_) => told_line(err, "", fault, 3),
        TreeFault::Memory => told_line(err, "", fault, 4),
        TreeFault::Read => told_line(err, "", fault, 5),
    }
}
