//! Tests of the calls of a trial.
#![tactic(auto)]

#[cfg(test)]
mod tests;
