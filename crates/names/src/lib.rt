//! Names of pages, and lists of different names over provided memory.
#![tactic(auto)]

pub mod list;
pub mod name;
