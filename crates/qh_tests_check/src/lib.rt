//! Tests of the public functions of the checker, qh_check, and of hulls by parts, qh_parts_join to qh_parts: verdicts on
//! faces, the guesses and results for a cube in two parts, and hulls of few ids by parts.
#![tactic(auto)]

#[cfg(test)]
mod tests;
