//! The check of a frame count.
ghost use Rattle.std.specs.Prelude.{◌≡◌, ◌≤◌};
ghost use Rattle.paging.specs.Frames.{checked, frames_of};

use super::FrameCount;
use crate::refusal::Refusal;

impl FrameCount {
    // `new` and `get`: `try_from` and `u32::from` would say the same and be no plainer.
    /// Checks that a frame count is from 1 to 64.
    pub fn new(count: u32) -> Result<FrameCount, Refusal>
        ensures { checked count result }
    {
        if count < 1 || count > 64 {
            return Err(Refusal::BadFrameCount);
        }
        Ok(FrameCount { count })
    }

    /// The number of frames.
    pub fn get(self) -> u32
        ensures value { result ≡ frames_of self }
        ensures some { 1 ≤ result }
        ensures most { result ≤ 64 }
    {
        self.count
    }
}
