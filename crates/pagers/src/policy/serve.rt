//! How a policy's pager is made and serves.
ghost use Rattle.std.specs.Prelude.{◌≡◌};
ghost use Rattle.pagers.specs.Policies.{policy_keeps, policy_model, policy_room};
ghost use Rattle.paging.specs.Frames.{frames_of};
ghost use Rattle.paging.specs.Policies.{model};

use super::PolicyPager;
use crate::dpmin::DpminPager;
use crate::fifo::FifoPager;
use crate::ranked::RankingPager;
use pager::Pager;
use paging::frames::FrameCount;
use paging::policy::Policy;
use ranking::last_reference::LastReference;
use ranking::next_reference::NextReference;

impl PolicyPager {
    /// The policy's pager, which holds nothing.
    pub fn new(policy: Policy, frames: FrameCount) -> PolicyPager
        ensures holding { policy_model result ≡ model policy (frames_of frames) }
        ensures room { policy_room result ≡ frames_of frames }
    {
        match policy {
            Policy::Lru => PolicyPager::Lru(RankingPager::new(LastReference::new(), frames)),
            Policy::Min => PolicyPager::Min(RankingPager::new(NextReference::new(), frames)),
            Policy::Dpmin => PolicyPager::Dpmin(DpminPager::new(frames)),
            Policy::Fifo => PolicyPager::Fifo(FifoPager::new(frames)),
        }
    }
}

impl Pager for PolicyPager {
    ghost holding = { policy_model };

    ghost room = { policy_room };

    ghost keeps = { policy_keeps };

    fn frames(&self) -> u32 {
        match self {
            PolicyPager::Lru(pager) => pager.frames(),
            PolicyPager::Min(pager) => pager.frames(),
            PolicyPager::Dpmin(pager) => pager.frames(),
            PolicyPager::Fifo(pager) => pager.frames(),
        }
    }

    fn held_count(&self) -> u32 {
        match self {
            PolicyPager::Lru(pager) => pager.held_count(),
            PolicyPager::Min(pager) => pager.held_count(),
            PolicyPager::Dpmin(pager) => pager.held_count(),
            PolicyPager::Fifo(pager) => pager.held_count(),
        }
    }

    fn holds(&self, code: u8) -> bool {
        match self {
            PolicyPager::Lru(pager) => pager.holds(code),
            PolicyPager::Min(pager) => pager.holds(code),
            PolicyPager::Dpmin(pager) => pager.holds(code),
            PolicyPager::Fifo(pager) => pager.holds(code),
        }
    }

    fn serve(&mut self, row: &[u8]) -> u32 {
        match self {
            PolicyPager::Lru(pager) => pager.serve(row),
            PolicyPager::Min(pager) => pager.serve(row),
            PolicyPager::Dpmin(pager) => pager.serve(row),
            PolicyPager::Fifo(pager) => pager.serve(row),
        }
    }
}
