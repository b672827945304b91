//! Tests of steps, replies and limits, of the queues, the tree and the machine.
#![tactic(auto)]

#[cfg(test)]
mod epoch_tests;
#[cfg(test)]
mod line_tests;
#[cfg(test)]
mod queues_tests;
#[cfg(test)]
mod reply_tests;
#[cfg(test)]
mod run_tests;
#[cfg(test)]
mod tree_tests;
