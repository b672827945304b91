//! Tests of the parts of a pool, of pools, jobs and graphs.
#![tactic(auto)]

#[cfg(test)]
mod agreement_tests;
#[cfg(test)]
mod agreement_thread_tests;
#[cfg(test)]
mod deep_tests;
#[cfg(test)]
mod gate_tests;
#[cfg(test)]
mod graph_tests;
#[cfg(test)]
mod lane_tests;
#[cfg(test)]
mod making_tests;
#[cfg(test)]
mod number;
#[cfg(test)]
mod one_by_one;
