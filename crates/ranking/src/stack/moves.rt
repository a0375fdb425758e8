//! How the stack moves on by a reference, and which frame counts fault at it.
ghost use Rattle.std.specs.Prelude.{◌≡◌, ℕ, suc, ◌+◌, ◌<◌, ◌≤◌, ◌==◌, length, not, [], ◌∷◌, ◌++◌, take, position, slice_index, MatchOption};
ghost use Rattle.paging.specs.Pages.{bit, has};
ghost use Rattle.ranking.specs.Stack.{restacked, sift as sifted};

use crate::Ranking;
use crate::pass::is_behind;
use crate::stack::Stack;
use std::mem;

impl Stack {
    /// A stack with no pages.
    pub fn new() -> Stack
        ensures { result ≡ [] }
    {
        Stack {
            pages: [0; 64],
            depth: 0,
        }
    }

    /// Whether a code is on top.
    fn is_top(&self, code: u8) -> bool
        ensures top { result ≡ has (take 1 self.now) code }
        ensures few { length self.now ≤ 64 }
    {
        self.depth > 0 && self.pages[0] == code
    }

    /// The stack distance of a code: how many pages lie above it, if it is in the stack.
    fn distance(&self, code: u8) -> Option<usize>
        ensures place { result ≡ position (λ x. x == code) self.now }
        ensures few { length self.now ≤ 64 }
    {
        self.pages[..self.depth]
            .iter()
            .position(|page| *page == code)
    }

    /// Counts one more fault at each frame count at which `code` is not held: at all that do not go beyond its stack distance.
    pub fn charge(&self, code: u8, row: &mut [u32; 64])
        requires { (f : ℕ) → f < 64 → slice_index row.old f < 65536 }
        ensures { (f : ℕ) → f < 64 → slice_index row.new f ≡ slice_index row.old f + bit (not (has (take (suc f) self.now) code)) }
    {
        let faulting = self.distance(code).unwrap_or(64);
        for faults in &mut row[..faulting] {
            *faults += 1;
        }
    }

    /// Moves on by a reference to `code`; a page that leaves the 64 is forgotten.
    pub fn settle<R: Ranking>(&mut self, ranking: &R, code: u8)
        ensures { self.new ≡ take 64 (restacked (R.order ranking.now []) code self.old) }
    {
        let depth = self.depth;
        if let Some(page) = restack(ranking, code, &mut self.pages[..depth]) {
            if depth < 64 {
                self.pages[depth] = page;
                self.depth += 1;
            }
        }
    }

    /// A reference to `code`: charged, and then settled. The page on top faults nowhere and moves nothing, which is asked first.
    pub fn refer<R: Ranking>(&mut self, ranking: &R, code: u8, row: &mut [u32; 64])
        requires { (f : ℕ) → f < 64 → slice_index row.old f < 65536 }
        ensures charged { (f : ℕ) → f < 64 → slice_index row.new f ≡ slice_index row.old f + bit (not (has (take (suc f) self.old) code)) }
        ensures settled { self.new ≡ take 64 (restacked (R.order ranking.now []) code self.old) }
    {
        if self.is_top(code) {
            return;
        }
        self.charge(code, row);
        self.settle(ranking, code);
    }
}

/// Moves the pages of a stack on by a reference to `code`, which comes to the top. Returns the page that is left over, unless
/// `code` was among them.
fn restack<R: Ranking>(ranking: &R, code: u8, pages: &mut [u8]) -> Option<u8>
    ensures { MatchOption result (pages.new ≡ restacked (R.order ranking.now []) code pages.old) (λ page. pages.new ++ page ∷ [] ≡ restacked (R.order ranking.now []) code pages.old) }
{
    let Some((top, below)) = pages.split_first_mut() else {
        return Some(code);
    };
    let carried = mem::replace(top, code);
    if carried == code {
        return None;
    }
    sift(ranking, code, carried, below)
}

/// Carries a page down to where `code` is; at each depth the page that is behind is carried on. Returns the page that is left
/// over, unless `code` was among them.
fn sift<R: Ranking>(ranking: &R, code: u8, mut carried: u8, pages: &mut [u8]) -> Option<u8>
    ensures { MatchOption result (pages.new ≡ sifted (R.order ranking.now []) code carried pages.old) (λ page. pages.new ++ page ∷ [] ≡ sifted (R.order ranking.now []) code carried pages.old) }
{
    for entry in pages.iter_mut() {
        if *entry == code {
            *entry = carried;
            return None;
        }
        if is_behind(ranking, *entry, carried) {
            mem::swap(entry, &mut carried);
        }
    }
    Some(carried)
}
