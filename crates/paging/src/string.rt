//! Strings of page references.
ghost use Rattle.std.specs.Prelude.{◌≡◌, ℕ, ◌≤◌, List, length};

use std::marker::Model;

/// A string of at most 4,096 page references, lent from where it lies. Clauses see the row of its codes.
#[derive(Drop)]
pub struct References<'s> {
    codes: &'s [u8],
}

impl<'s> Model for References<'s> {
    ghost Value = { List ℕ };

    ghost view = { λ s. s.codes.now };

    ghost invariant = { λ s. length s.codes.now ≤ 4096 };
}

impl<'s> References<'s> {
    /// The string of some codes.
    pub fn new(codes: &'s [u8]) -> References<'s>
        requires { length codes.now ≤ 4096 }
        ensures { result ≡ codes.now }
    {
        References { codes }
    }

    /// The codes, of which there are at most 4,096.
    pub fn codes(&self) -> &'s [u8]
        ensures codes { result.now ≡ self.now }
        ensures few { length result.now ≤ 4096 }
    {
        self.codes
    }
}
