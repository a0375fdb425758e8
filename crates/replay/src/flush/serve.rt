//! How it serves.
ghost use Rattle.paging.specs.Frames.{frames_of};
ghost use Rattle.paging.specs.Models.{stepping};
ghost use Rattle.paging.specs.Policies.{itself};
ghost use Rattle.paging.specs.Sets.{pages};
ghost use Rattle.replay.specs.Flush.{flush_step};
ghost use Rattle.replay.specs.Flushes.{flush_keeps};

use super::FlushPager;
use pager::Pager;
use paging::frames::FrameCount;
use paging::held::HeldPages;

impl FlushPager {
    /// The pager that holds nothing.
    pub fn new(frames: FrameCount) -> FlushPager {
        FlushPager {
            held: HeldPages::new(frames),
        }
    }
}

impl Pager for FlushPager {
    ghost holding = { λ s. stepping flush_step itself (pages s.held.set) };

    ghost room = { λ s. frames_of s.held.frames };

    ghost keeps = { λ s. flush_keeps (frames_of s.held.frames) (pages s.held.set) s.held.frames.some s.held.frames.most s.held.within };

    fn frames(&self) -> u32 {
        self.held.frames.get()
    }

    fn held_count(&self) -> u32 {
        self.held.set.len()
    }

    fn holds(&self, code: u8) -> bool {
        self.held.set.contains(code)
    }

    fn serve(&mut self, row: &[u8]) -> u32 {
        let Some(&code) = row.first() else {
            return 0;
        };
        if self.held.set.contains(code) {
            return 0;
        }
        let mut new = HeldPages::new(self.held.frames);
        new.insert(code);
        self.held = new;
        1
    }
}
