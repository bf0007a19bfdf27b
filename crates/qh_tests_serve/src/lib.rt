//! Tests of the public functions of qh_serve, and of the workers in runs of qh_run and qh_serve: the answers for
//! settings and inputs, the parallel work of the workers, and the same text for every distribution of the work.
#![tactic(auto)]

#[cfg(test)]
mod tests;
