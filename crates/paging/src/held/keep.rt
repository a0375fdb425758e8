//! How pages come into the frames and leave them.
ghost use Rattle.std.specs.Prelude.{◌≡◌, ◌<◌, ◌≤◌, ◌↔◌, IsTrue};
ghost use Rattle.paging.specs.Frames.{frames_of};
ghost use Rattle.paging.specs.Pages.{nothing, size, with_page, without};
ghost use Rattle.paging.specs.Sets.{pages};

use super::HeldPages;
use crate::frames::FrameCount;
use crate::set::PageSet;

impl HeldPages {
    /// Frames that hold nothing.
    pub fn new(frames: FrameCount) -> HeldPages
        ensures set { pages result.set ≡ nothing }
        ensures frames { result.frames ≡ frames }
    {
        HeldPages {
            set: PageSet::new(),
            frames,
        }
    }

    /// Whether every frame holds a page.
    pub fn is_full(&self) -> bool
        ensures { IsTrue result ↔ (frames_of self.now.frames ≤ size (pages self.now.set)) }
    {
        self.set.len() >= self.frames.get()
    }

    /// Takes a page in, if a frame is free.
    pub fn insert(&mut self, code: u8)
        ensures free { size (pages self.old.set) < frames_of self.old.frames → pages self.new.set ≡ with_page code (pages self.old.set) }
        ensures full { frames_of self.old.frames ≤ size (pages self.old.set) → pages self.new.set ≡ pages self.old.set }
        ensures frames { self.new.frames ≡ self.old.frames }
    {
        if !self.is_full() {
            self.set.insert(code);
        }
    }

    /// Lets a page go.
    pub fn remove(&mut self, code: u8)
        ensures set { pages self.new.set ≡ without code (pages self.old.set) }
        ensures frames { self.new.frames ≡ self.old.frames }
    {
        self.set.remove(code);
    }
}
