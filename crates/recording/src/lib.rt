//! Recordings: the packed form of a row of names.
#![tactic(auto)]

mod bits;
pub mod decode;
pub mod encode;
pub mod fault;
mod layout;
mod reader;
pub mod theorems;
