//! MIN's ranking: the code whose next reference is nearer is ahead.
ghost use Rattle.paging.specs.Rankings.{next_told, untold};
ghost use Rattle.ranking.specs.Tables.{next_order, table};
ghost use Rattle.std.specs.Prelude.{◌≡◌};
ghost use Rattle.paging.proofs.Orders.{next_orders};

use crate::Ranking;

/// For each code the place of its next reference, or 0 for none and for a code never told of.
#[derive(Drop)]
pub struct NextReference {
    // Places as they are told, where 0 is none, and a table by code, since nothing here is allocated.
    places: [u16; 256],
}

impl NextReference {
    /// The ranking before any telling.
    pub fn new() -> NextReference
        ensures { next_order result ≡ next_told untold }
    {
        NextReference { places: [0; 256] }
    }
}

/// The nearer next place is ahead, no next place is behind every one, and of two equal ones the lower code is ahead.
impl Ranking for NextReference {
    ghost order = { next_order };

    ghost orders = { λ s. next_orders (table s.places) };

    fn tell(&mut self, code: u8, place: u16, next: u16) {
        self.places[code as usize] = next;
    }

    fn ahead(&self, a: u8, b: u8) -> bool {
        let x = self.places[a as usize];
        let y = self.places[b as usize];
        (x == 0, x, a) < (y == 0, y, b)
    }
}
