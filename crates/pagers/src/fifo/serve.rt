//! How FIFO serves.
ghost use Rattle.std.specs.Prelude.{◌≡◌, ◌+◌, ◌<◌, false, [], ◌∷◌, if◌then◌else◌, nat_eq};
ghost use Rattle.pagers.specs.Pagers.{fifo_model, fifo_room, queue_of};
ghost use Rattle.paging.specs.Frames.{frames_of};
ghost use Rattle.paging.specs.Pages.{has};
ghost use Rattle.paging.specs.Policies.{fifo, fifo_step};
ghost use Rattle.pagers.specs.Laws.{fifo_law};

use super::{FifoPager, Frame};
use pager::Pager;
use paging::frames::FrameCount;

impl Frame {
    /// Puts a page into the frame.
    fn load(&mut self, code: u8)
        ensures { self.new.code ≡ code }
    {
        self.code = code;
    }
}

impl FifoPager {
    /// The pager that holds nothing.
    pub fn new(frames: FrameCount) -> FifoPager
        ensures holding { fifo_model result ≡ fifo (frames_of frames) [] }
        ensures room { fifo_room result ≡ frames_of frames }
    {
        FifoPager {
            frames: [Frame { code: 0 }; 64],
            room: frames.get(),
            used: 0,
            hand: 0,
        }
    }

    /// Whether the page is in one of the frames.
    fn has(&self, code: u8) -> bool
        ensures { result ≡ has (queue_of self.now) code }
    {
        for frame in &self.frames[..self.used as usize] {
            if frame.code == code {
                return true;
            }
        }
        false
    }

    /// Puts a page into the frame at the hand, and moves the hand on.
    fn pull(&mut self, code: u8)
        requires { has (queue_of self.old) code ≡ false }
        ensures queue { queue_of self.new ≡ fifo_step self.old.room (code ∷ []) (queue_of self.old) }
        ensures room { self.new.room ≡ self.old.room }
    {
        self.frames[self.hand as usize].load(code);
        self.used = (self.used + 1).min(self.room);
        self.hand = onward(self.hand, self.room);
    }
}

/// The frame after the one at the hand; after the last comes the first.
// A comparison and no remainder, since a division is slow.
fn onward(hand: u32, room: u32) -> u32
    requires { hand < room }
    ensures { result ≡ (if nat_eq (hand + 1) room then 0 else hand + 1) }
{
    if hand + 1 == room { 0 } else { hand + 1 }
}

impl Pager for FifoPager {
    ghost holding = { fifo_model };

    ghost room = { fifo_room };

    ghost keeps = { fifo_law };

    fn frames(&self) -> u32 {
        self.room
    }

    fn held_count(&self) -> u32 {
        self.used
    }

    fn holds(&self, code: u8) -> bool {
        self.has(code)
    }

    fn serve(&mut self, row: &[u8]) -> u32 {
        let Some(&code) = row.first() else {
            return 0;
        };
        if self.has(code) {
            return 0;
        }
        self.pull(code);
        1
    }
}
