//! Pagers: the trait, runs and plans.
#![tactic(auto)]

pub mod plans;
pub mod runs;
pub mod sets;

ghost use Rattle.std.specs.Prelude.{◌≡◌, ℕ, []};
ghost use Rattle.paging.specs.Models.{Keeps, PagerModel, served};
ghost use Rattle.paging.specs.Pages.{size};
ghost use Rattle.paging.specs.Schedules.{pulled};

/// A paging rule with its state.
///
/// Its meaning is the set that is held after being served any further rows, and its frame count. At the start and after
/// each row no more pages are held than there are frames. After a row that is not empty its first code is held, and a
/// page was pulled only if that code was not held before. An empty row moves nothing.
pub trait Pager {
    ghost holding: { Self → PagerModel };

    ghost room: { Self → ℕ };

    /// The frame count, from 1 to 64.
    fn frames(&self) -> u32
        ensures { result ≡ room self.now };

    /// How many pages are held.
    fn held_count(&self) -> u32
        ensures { result ≡ size (holding self.now []) };

    /// Whether the page is held.
    fn holds(&self, code: u8) -> bool
        ensures { result ≡ holding self.now [] code };

    /// Serves the first reference of a row, the codes from its place to the end of the string. Returns how many pages
    /// are held now and were not before.
    fn serve(&mut self, row: &[u8]) -> u32
        ensures moves { holding self.new ≡ served (holding self.old) row.now }
        ensures frames { room self.new ≡ room self.old }
        ensures answer { result ≡ pulled (holding self.old []) (holding self.new []) };

    ghost keeps: { (s : Self) → Keeps (room s) (holding s) };
}
