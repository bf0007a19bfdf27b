//! Tests of the public functions of qh_board and qh_run: boards with one pass and with passes in parallel, and
//! hulls by one thread and by workers.
#![tactic(auto)]

#[cfg(test)]
mod tests;
