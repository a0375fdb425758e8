//! Two rankings more: by code, and any ranking turned round.
ghost use Rattle.std.specs.Prelude.{nat_lt};
ghost use Rattle.std.proofs.Common.{rules};

use ranking::Ranking;

/// The lower code is ahead, whatever it is told.
#[derive(Clone, Copy)]
pub struct ByCode {}

impl Ranking for ByCode {
    ghost order = { λ s ts a b. nat_lt a b };

    ghost orders = { Prim.search rules };

    fn tell(&mut self, code: u8, place: u16, next: u16) {}

    fn ahead(&self, a: u8, b: u8) -> bool {
        a < b
    }
}

/// A ranking turned round: what was ahead is behind.
#[derive(Drop)]
pub struct Turned<R> {
    pub inner: R,
}

impl<R: Ranking> Ranking for Turned<R> {
    ghost order = { λ s ts a b. R.order s.inner ts b a };

    ghost orders = { Prim.search rules };

    fn tell(&mut self, code: u8, place: u16, next: u16) {
        self.inner.tell(code, place, next);
    }

    fn ahead(&self, a: u8, b: u8) -> bool {
        self.inner.ahead(b, a)
    }
}
