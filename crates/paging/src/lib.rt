//! What paging means: sets of pages, schedules, pagers, rankings and policies.
#![tactic(auto)]

pub mod frames;
pub mod held;
pub mod policy;
pub mod refusal;
pub mod set;
pub mod string;
pub mod theorems;
