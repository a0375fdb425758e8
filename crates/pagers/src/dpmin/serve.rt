//! How DPMIN serves.
ghost use Rattle.pagers.specs.Pagers.{dpmin_model, dpmin_room};
ghost use Rattle.paging.specs.Frames.{frames_of};
ghost use Rattle.paging.specs.Pages.{nothing};
ghost use Rattle.paging.specs.Policies.{dpmin};
ghost use Rattle.std.specs.Prelude.{◌≡◌};
ghost use Rattle.paging.specs.Sets.{pages};
ghost use Rattle.pagers.specs.Laws.{dpmin_law};

use super::DpminPager;
use super::prepage::{count_new, prepage};
use pager::Pager;
use paging::frames::FrameCount;
use paging::held::HeldPages;

impl DpminPager {
    /// The pager that holds nothing.
    pub fn new(frames: FrameCount) -> DpminPager
        ensures holding { dpmin_model result ≡ dpmin (frames_of frames) nothing }
        ensures room { dpmin_room result ≡ frames_of frames }
    {
        let held = HeldPages::new(frames);
        DpminPager { held }
    }
}

impl Pager for DpminPager {
    ghost holding = { dpmin_model };

    ghost room = { dpmin_room };

    ghost keeps = { dpmin_law };

    fn frames(&self) -> u32 {
        self.held.frames.get()
    }

    fn held_count(&self) -> u32 {
        self.held.set.len()
    }

    fn holds(&self, code: u8) -> bool {
        self.held.set.contains(code)
    }

    fn serve(&mut self, row: &[u8]) -> u32 {
        let Some(&code) = row.first() else {
            return 0;
        };
        if self.held.set.contains(code) {
            return 0;
        }
        let new = prepage(row, &self.held);
        let pulls = count_new(&self.held.set, &new.set);
        self.held = new;
        pulls
    }
}
