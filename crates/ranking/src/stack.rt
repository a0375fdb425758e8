//! The stack of pages that stands for all frame counts at once.
ghost use Rattle.std.specs.Prelude.{ℕ, ◌≤◌, List, take};

use std::marker::Model;

mod moves;

/// Pages in the order of the stack, the top first: what f frames hold are the first f of them. Clauses see the list of the pages.
#[derive(Drop)]
pub struct Stack {
    // An array and a depth, since nothing here is allocated.
    pages: [u8; 64],
    depth: usize,
}

impl Model for Stack {
    ghost Value = { List ℕ };

    ghost view = { λ s. take s.depth s.pages };

    ghost invariant = { λ s. s.depth ≤ 64 };
}
