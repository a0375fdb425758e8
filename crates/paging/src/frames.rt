//! Frame counts.
ghost use Rattle.std.specs.Prelude.{◌≤◌};

mod make;

/// A frame count from 1 to 64: what a pager is made from.
#[derive(Clone, Copy)]
pub struct FrameCount {
    count: u32,
    ghost some: { 1 ≤ count },
    ghost most: { count ≤ 64 },
}
