//! Strings made up by a fixed rule.
ghost use Rattle.std.specs.Prelude.{◌≤◌};

use std::alloc::{AllocError, Global};

/// A row of numbers that looks random: a linear congruential generator of 32 bits.
#[derive(Drop)]
pub struct Random {
    state: u32,
}

impl Random {
    /// The row that the seed begins.
    fn new(seed: u32) -> Random {
        Random { state: seed }
    }

    /// A number below the limit, or 0 where the limit is 0.
    // No Option: each caller has a limit, and would have to say what it does without one.
    pub fn below(&mut self, limit: u32) -> u32 {
        self.state = self.state.wrapping_mul(1664525).wrapping_add(1013904223);
        let high = self.state / 65536;
        high.checked_rem(limit).unwrap_or(0)
    }
}

/// Where a string stands.
#[derive(Clone, Copy)]
pub struct Place {
    /// Over how many pages the string goes.
    pages: u32,
    /// How many references stand before.
    t: u32,
    /// The page of the reference before.
    before: u32,
    ghost some: { 1 ≤ pages },
}

/// Any page at any place.
pub fn scattered(random: &mut Random, at: Place) -> u32 {
    random.below(at.pages)
}

/// The pages in turn, over and over.
pub fn in_turn(_random: &mut Random, at: Place) -> u32 {
    at.t % at.pages
}

/// For a while each, a few neighbouring pages.
pub fn in_phases(random: &mut Random, at: Place) -> u32 {
    (at.t / 40).wrapping_mul(13).wrapping_add(random.below(9)) % at.pages
}

/// Mostly the page before, and pages near it.
pub fn walking(random: &mut Random, at: Place) -> u32 {
    at.before
        .wrapping_add(random.below(5))
        .wrapping_add(random.below(2))
        % at.pages
}

/// The pages up and down again.
pub fn swinging(_random: &mut Random, at: Place) -> u32 {
    if at.t / at.pages % 2 == 0 {
        at.t % at.pages
    } else {
        at.pages - 1 - at.t % at.pages
    }
}

/// A string of a length over so many pages, made reference by reference, whose codes are spread by an odd factor.
pub fn make_string<F: Fn(&mut Random, Place) -> u32>(
    heap: Global,
    len: u32,
    pages: u32,
    shape: F,
) -> Result<Vec<u8>, AllocError>
    requires { F.IsAlwaysCallable shape }
{
    let pages = pages.max(1);
    let mut random = Random::new(len.wrapping_mul(31).wrapping_add(pages));
    let factor = random.below(128).wrapping_mul(2).wrapping_add(1);
    let shift = random.below(256);
    let mut string = Vec::new(heap);
    let mut before = 0;
    for t in 0..len {
        before = shape(&mut random, Place { pages, t, before });
        let code = before.wrapping_mul(factor).wrapping_add(shift);
        string.push((code & 0xff) as u8)?;
    }
    Ok(string)
}
