//! Tests of recordings, in a crate of their own so that nothing is proved twice.
#![tactic(auto)]

#[cfg(test)]
mod tests;
