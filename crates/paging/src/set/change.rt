//! How a set of pages is made and changes.
ghost use Rattle.paging.specs.Pages.{nothing, with_page, without};
ghost use Rattle.paging.specs.Sets.{pages};
ghost use Rattle.std.specs.Prelude.{◌≡◌};

use super::PageSet;

impl PageSet {
    /// The set that has no page.
    pub fn new() -> PageSet
        ensures { pages result ≡ nothing }
    {
        PageSet {
            held: [false; 256],
            count: 0,
        }
    }

    /// Puts the page in.
    pub fn insert(&mut self, code: u8)
        ensures { pages self.new ≡ with_page code (pages self.old) }
    {
        if !self.held[code as usize] {
            self.held[code as usize] = true;
            self.count += 1;
        }
    }

    /// Takes the page out.
    pub fn remove(&mut self, code: u8)
        ensures { pages self.new ≡ without code (pages self.old) }
    {
        if self.held[code as usize] {
            self.held[code as usize] = false;
            self.count -= 1;
        }
    }
}
