//! The faults of a ranking's own run at every frame count, from one pass with one stack of pages.
ghost use Rattle.std.specs.Prelude.{◌≡◌, []};
ghost use Rattle.paging.specs.Rankings.{tellings, told_all};
ghost use Rattle.ranking.specs.Places.{NextPlaces};
ghost use Rattle.ranking.specs.Stack.{pass_row};

use crate::Ranking;
use crate::stack::Stack;
use paging::string::References;

/// For each reference the place of the next reference to its code, or 0 for none, from one scan backwards.
// Places as rankings are told them, where 0 is none, and tables, since nothing here is allocated.
fn next_places(string: &References) -> [u16; 4096]
    ensures { NextPlaces string.now 0 result }
{
    let codes = string.codes();
    let mut after = [0; 4096];
    let mut nearest = [0; 256];
    // By place: over `enumerate().rev()` the proof knows the codes that came only as a list of what the iterator gave.
    for t in (0..codes.len()).rev() {
        let code = codes[t] as usize;
        after[t] = nearest[code];
        nearest[code] = t as u16 + 1;
    }
    after
}

/// Whether a has to go before b does.
pub fn is_behind<R: Ranking>(ranking: &R, a: u8, b: u8) -> bool
    ensures { result ≡ R.order ranking.now [] b a }
{
    ranking.ahead(b, a)
}

/// The faults of the ranking's own run at the frame counts 1 to 64. The ranking is told of the whole string.
pub fn pass<R: Ranking>(ranking: &mut R, string: &References) -> [u32; 64]
    ensures faults { result ≡ pass_row (R.order ranking.old) string.now }
    ensures told { R.order ranking.new ≡ told_all (R.order ranking.old) (tellings 0 string.now) }
{
    let codes = string.codes();
    let after = next_places(string);
    let mut row = [0; 64];
    let mut stack = Stack::new();
    for (t, &code) in codes.iter().enumerate() {
        ranking.tell(code, t as u16 + 1, after[t]);
        stack.refer(ranking, code, &mut row);
    }
    row
}
