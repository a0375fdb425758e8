//! The pages that DPMIN holds after a fault.
ghost use Rattle.std.specs.Prelude.{◌≡◌, ◌<◌, ◌≤◌, length};
ghost use Rattle.pager.specs.Prepaging.{filled, soon};
ghost use Rattle.paging.specs.Frames.{frames_of};
ghost use Rattle.paging.specs.Pages.{nothing, size};
ghost use Rattle.paging.specs.Policies.{foremost};
ghost use Rattle.paging.specs.Schedules.{pulled};
ghost use Rattle.paging.specs.Sets.{pages};

use pager::sets::lacks;
use paging::held::HeldPages;
use paging::set::PageSet;

/// Collects the first different pages of the row, as far as frames are free. Returns where it stopped.
// The promises of this and of `fill` speak of where they stopped; no code asks.
fn collect(row: &[u8], new: &mut HeldPages) -> usize
    requires { pages new.old.set ≡ nothing }
    ensures set { pages new.new.set ≡ soon row.now result }
    ensures frames { new.new.frames ≡ new.old.frames }
    ensures high { result ≤ length row.now }
    ensures full { result < length row.now → frames_of new.old.frames ≤ size (pages new.new.set) }
{
    for (end, &code) in row.iter().enumerate() {
        if new.is_full() {
            return end;
        }
        new.insert(code);
    }
    row.len()
}

/// Fills the free frames with pages that were held, the lowest code first. Returns the code where it stopped.
fn fill(held: &PageSet, new: &mut HeldPages) -> u32
    ensures set { pages new.new.set ≡ filled (pages new.old.set) result (pages held.now) }
    ensures frames { new.new.frames ≡ new.old.frames }
    ensures full { result < 256 → frames_of new.old.frames ≤ size (pages new.new.set) }
    ensures none { frames_of new.old.frames ≤ size (pages new.old.set) → result ≡ 0 }
{
    for code in 0..=u8::MAX {
        if new.is_full() {
            return u32::from(code);
        }
        if held.contains(code) {
            new.insert(code);
        }
    }
    256
}

/// The first pages of the order, as many as there are frames: of those held and those of the row, by next reference.
pub(super) fn prepage(row: &[u8], held: &HeldPages) -> HeldPages
    ensures set { pages result.set ≡ foremost (frames_of held.now.frames) row.now (pages held.now.set) }
    ensures frames { result.frames ≡ held.now.frames }
{
    let mut new = HeldPages::new(held.frames);
    collect(row, &mut new);
    fill(&held.set, &mut new);
    new
}

/// How many pages one set has that the other had not.
pub(super) fn count_new(held: &PageSet, new: &PageSet) -> u32
    ensures { result ≡ pulled (pages held.now) (pages new.now) }
{
    let mut count = 0;
    for code in 0..=u8::MAX {
        if lacks(new, held, code) {
            count += 1;
        }
    }
    count
}
