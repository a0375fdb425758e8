//! FIFO over a table of frames.
ghost use Rattle.std.specs.Prelude.{◌≡◌, ◌<◌, ◌≤◌, true, length};
ghost use Rattle.pagers.specs.Tables.{codes_of, queue};
ghost use Rattle.paging.specs.Queues.{coded, once};

mod serve;

/// What a frame holds.
#[derive(Clone, Copy)]
pub struct Frame {
    code: u8,
}

/// A pager that releases the page pulled longest ago.
///
/// Frames are filled in order, and the hand is at the frame that the next page comes to: while frames are free the
/// first of them, and then the one with the page pulled longest ago.
#[derive(Drop)]
pub struct FifoPager {
    // A table of frames and how many are in use, since nothing here is allocated.
    frames: [Frame; 64],
    room: u32,
    used: u32,
    hand: u32,
    ghost most: { room ≤ 64 },
    ghost within: { used ≤ room },
    ghost at: { hand < room },
    ghost filling: { used < room → hand ≡ used },
    ghost wide: { length (codes_of frames) ≡ 64 },
    ghost apart: { once (queue used hand (codes_of frames)) ≡ true },
    ghost low: { coded (queue used hand (codes_of frames)) ≡ true },
}
