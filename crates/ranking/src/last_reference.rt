//! LRU's ranking: the code whose last reference is later is ahead.
ghost use Rattle.paging.specs.Rankings.{last_told, untold};
ghost use Rattle.ranking.specs.Tables.{last_order, table};
ghost use Rattle.std.specs.Prelude.{◌≡◌};
ghost use Rattle.paging.proofs.Orders.{last_orders};

use crate::Ranking;

/// For each code the place of its last reference, or 0 for a code never told of.
#[derive(Drop)]
pub struct LastReference {
    // Places as they are told, where 0 is none, and a table by code, since nothing here is allocated.
    places: [u16; 256],
}

impl LastReference {
    /// The ranking before any telling.
    pub fn new() -> LastReference
        ensures { last_order result ≡ last_told untold }
    {
        LastReference { places: [0; 256] }
    }
}

/// The later last place is ahead, and of two equal ones the lower code.
impl Ranking for LastReference {
    ghost order = { last_order };

    ghost orders = { λ s. last_orders (table s.places) };

    fn tell(&mut self, code: u8, place: u16, next: u16) {
        self.places[code as usize] = place;
    }

    fn ahead(&self, a: u8, b: u8) -> bool {
        (self.places[b as usize], a) < (self.places[a as usize], b)
    }
}
