//! Edges: the smallest frame count within a ceiling.
ghost use Rattle.std.specs.Prelude.{◌≡◌};
ghost use Rattle.ranking.specs.Edges.{at_count, edge, faults_at};

use crate::Ranking;
use crate::pass::pass;
use paging::string::References;

/// The smallest frame count whose number in the row is at most the ceiling. The row's first number is that of one frame.
pub fn edge_in(row: &[u32; 64], ceiling: u32) -> Option<u32>
    ensures { result ≡ edge (at_count row.now) ceiling }
{
    // Tried with `position`: the check then lacks what the row says of the place.
    for (k, faults) in row.iter().enumerate() {
        if *faults <= ceiling {
            return Some(k as u32 + 1);
        }
    }
    None
}

/// The smallest frame count at which the ranking's own run has at most as many faults as the ceiling says.
pub fn edge_of<R: Ranking + Drop>(mut ranking: R, string: &References, ceiling: u32) -> Option<u32>
    ensures { result ≡ edge (faults_at (R.order ranking) string.now) ceiling }
{
    edge_in(&pass(&mut ranking, string), ceiling)
}
