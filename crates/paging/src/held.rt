//! Pages held in frames.
ghost use Rattle.std.specs.Prelude.{◌≤◌};
ghost use Rattle.paging.specs.Frames.{frames_of};
ghost use Rattle.paging.specs.Pages.{size};
ghost use Rattle.paging.specs.Sets.{pages};

use crate::frames::FrameCount;
use crate::set::PageSet;

mod keep;

/// The pages that are held in so many frames: never more pages than there are frames.
#[derive(Clone, Copy)]
pub struct HeldPages {
    pub set: PageSet,
    pub frames: FrameCount,
    ghost within: { size (pages set) ≤ frames_of frames },
}
