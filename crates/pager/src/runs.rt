//! Runs of a pager over a string.
ghost use Rattle.std.specs.Prelude.{◌≡◌, length};
ghost use Rattle.paging.specs.Models.{after, instants_on, pulls_on};

use crate::Pager;
use paging::string::References;

/// Serves the string place by place, each with the row from that place to the end. Returns the fault instants and the
/// pulls that the pager makes.
pub fn run<P: Pager>(pager: &mut P, string: &References) -> (u32, u32)
    ensures figures { result ≡ (instants_on (P.holding pager.old) string.now, pulls_on (P.holding pager.old) string.now) }
    ensures moves { P.holding pager.new ≡ after (P.holding pager.old) string.now (length string.now) }
    ensures frames { P.room pager.new ≡ P.room pager.old }
{
    let codes = string.codes();
    let mut faults = 0;
    let mut pulls = 0;
    for (place, &code) in codes.iter().enumerate() {
        if !pager.holds(code) {
            faults += 1;
        }
        pulls += pager.serve(&codes[place..]);
    }
    (faults, pulls)
}
