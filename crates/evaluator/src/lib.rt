//! The trial: a string of page references, and what the policies, rankings and pagers make of it.
#![tactic(auto)]

ghost use Rattle.std.specs.Prelude.{◌≤◌};

pub mod edges;
pub mod figures;
pub mod pages;
pub mod plans;
pub mod recordings;
pub mod runs;
pub mod string;
pub mod theorems;
pub mod working;

/// A string of 0 to 4,096 page references, by their codes.
#[derive(Drop)]
pub struct Trial {
    // An array and a length, since nothing here is allocated.
    codes: [u8; 4096],
    len: usize,
    ghost few: { len ≤ 4096 },
}
