//! The three pagers, FIFO over a table of frames, DPMIN by looking ahead, and the pager that any ranking makes; and the pager of
//! each policy.
#![tactic(auto)]

pub mod dpmin;
pub mod fifo;
pub mod policy;
pub mod ranked;
#[cfg(test)]
mod tests;
