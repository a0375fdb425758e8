//! Rankings of the codes, and the faults of their own runs at every frame count from one pass.
#![tactic(auto)]

ghost use Rattle.paging.specs.Rankings.{Orders, RankingModel, telling, told};
ghost use Rattle.std.specs.Prelude.{◌≡◌, []};

pub mod edge;
pub mod last_reference;
pub mod next_reference;
pub mod pass;
mod stack;
#[cfg(test)]
mod tests;
pub mod theorems;

/// An order of all 256 codes that moves as it is told of references.
///
/// Its meaning is the order after any further tellings, so it is the order together with all that its own rule needs
/// to move on. At the start and after each telling it is an order: no code is ahead of itself, of two different codes
/// exactly one is ahead, and what is ahead of one that is ahead of a third is ahead of the third.
pub trait Ranking {
    ghost order: { Self → RankingModel };

    /// Tells of a reference: its code, its place, and the place of the next reference to that code, or 0 for none.
    // A number and no Option: every number from 0 to 65,535 may be told as a place, and 0 says none by the rule of rankings.
    // Three numbers and no struct: each ranking keeps one of them and lets the others go.
    fn tell(&mut self, code: u8, place: u16, next: u16)
        ensures { order self.new ≡ told (order self.old) (telling code place next) };

    /// Whether a is ahead of b.
    fn ahead(&self, a: u8, b: u8) -> bool
        ensures { result ≡ order self.now [] a b };

    ghost orders: { (s : Self) → Orders (order s) };
}
