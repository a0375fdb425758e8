//! The pager of each policy.
use crate::dpmin::DpminPager;
use crate::fifo::FifoPager;
use crate::ranked::RankingPager;
use ranking::last_reference::LastReference;
use ranking::next_reference::NextReference;

mod runs;
mod serve;

/// The pager of a policy: what the policy says, moved by its own rule.
// An enum, and a match in each method: the policies are a closed set, and a `dyn Pager` would have to be made in a match too.
#[derive(Drop)]
pub enum PolicyPager {
    /// LRU, the own run of its ranking.
    Lru(RankingPager<LastReference>),
    /// MIN, the own run of its ranking.
    Min(RankingPager<NextReference>),
    /// DPMIN, by looking ahead.
    Dpmin(DpminPager),
    /// FIFO, over a table of frames.
    Fifo(FifoPager),
}
