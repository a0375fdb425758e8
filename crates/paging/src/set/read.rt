//! What a set of pages has.
ghost use Rattle.paging.specs.Pages.{size};
ghost use Rattle.paging.specs.Sets.{pages};
ghost use Rattle.std.specs.Prelude.{◌≡◌};

use super::PageSet;

impl PageSet {
    /// How many pages the set has.
    pub fn len(&self) -> u32
        ensures { result ≡ size (pages self.now) }
    {
        self.count
    }

    /// Whether the set has the page.
    pub fn contains(&self, code: u8) -> bool
        ensures { result ≡ pages self.now code }
    {
        self.held[code as usize]
    }
}
