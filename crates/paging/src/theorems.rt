//! What is proved of all schedules, pagers, rankings and policies, each as the contract of a function.
ghost use Rattle.paging.specs.Theorems.{DpminFaultsLatest, DpminFaultsLeast, DpminHoldsFirstPages, DpminKeeps, DpminMoreFrames, FifoKeeps, FifoReleasesLongestHeld, LruReleasesOldest, MinPullsLeast, MinReleasesFurthest, OwnKeeps, OwnPullsAtFaults, OwnReleasesHindmost, PagersSchedule, PoliciesLeast, PullsBalance};

/// Pagers make schedules; DPMIN and FIFO are pagers, and so is the own run of every ranking.
pub fn pagers_stand() -> u8
    ensures schedule { PagersSchedule }
    ensures dpmin { DpminKeeps }
    ensures own { OwnKeeps }
    ensures fifo { FifoKeeps }
{
    0
}

/// In every schedule pulls and releases balance; MIN pulls least, and DPMIN faults least.
pub fn schedules_stand() -> u8
    ensures balance { PullsBalance }
    ensures pulls { MinPullsLeast }
    ensures faults { DpminFaultsLeast }
    ensures latest { DpminFaultsLatest }
{
    0
}

/// Which page goes in every ranking's own run, under MIN, LRU and FIFO; which pages DPMIN holds after a fault; and that such a run pulls one page at each fault.
pub fn releases_stand() -> u8
    ensures own { OwnReleasesHindmost }
    ensures min { MinReleasesFurthest }
    ensures lru { LruReleasesOldest }
    ensures fifo { FifoReleasesLongestHeld }
    ensures dpmin { DpminHoldsFirstPages }
    ensures pulls { OwnPullsAtFaults }
{
    0
}

/// At each frame count from 1 to 64 no schedule pulls less than MIN, and no pager faults less than DPMIN.
pub fn policies_stand() -> u8
    ensures least { PoliciesLeast }
    ensures frames { DpminMoreFrames }
{
    0
}
