//! How a ranking's own run takes in a page.
ghost use Rattle.std.specs.Prelude.{◌≡◌, not, ◌&&◌, ◌||◌, []};
ghost use Rattle.paging.specs.Frames.{frames_of};
ghost use Rattle.paging.specs.Pages.{codes};
ghost use Rattle.paging.specs.Rankings.{admit as admitted, hindmost as hind};
ghost use Rattle.paging.specs.Schedules.{pulled};
ghost use Rattle.paging.specs.Sets.{pages};

use paging::held::HeldPages;
use paging::set::PageSet;
use ranking::Ranking;
use ranking::pass::is_behind;

/// Whether the page c takes the place of z, in a search for the held page behind all others.
fn takes<R: Ranking>(ranking: &R, held: &PageSet, z: u8, c: u8) -> bool
    ensures { result ≡ (pages held.now c && (not (pages held.now z) || R.order ranking.now [] z c)) }
{
    held.contains(c) && (!held.contains(z) || is_behind(ranking, c, z))
}

/// The held page behind all others.
fn hindmost<R: Ranking>(ranking: &R, held: &PageSet) -> u8
    ensures { result ≡ hind (R.order ranking.now []) codes (pages held.now) }
{
    // From 0, which is the answer where nothing is held, as its definition has it.
    let mut last = 0;
    for code in 0..=u8::MAX {
        if takes(ranking, held, last, code) {
            last = code;
        }
    }
    last
}

/// Serves a reference. Returns how many pages are pulled.
pub(super) fn admit<R: Ranking>(ranking: &R, held: &mut HeldPages, code: u8) -> u32
    ensures set { pages held.new.set ≡ admitted (frames_of held.old.frames) (hind (R.order ranking.now []) codes (pages held.old.set)) code (pages held.old.set) }
    ensures frames { held.new.frames ≡ held.old.frames }
    ensures answer { result ≡ pulled (pages held.old.set) (pages held.new.set) }
{
    if held.set.contains(code) {
        return 0;
    }
    if held.is_full() {
        let out = hindmost(ranking, &held.set);
        held.remove(out);
    }
    held.insert(code);
    1
}
