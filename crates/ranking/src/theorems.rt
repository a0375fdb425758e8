//! What is proved of all rankings and of all edges, each as the contract of a function.
ghost use Rattle.ranking.specs.Theorems.{EdgesStand, FaultsFall, Inclusion};

/// What a ranking's own run holds in some frames it holds in one frame more, and it faults no more often there.
pub fn inclusion_stands() -> u8
    ensures held { Inclusion }
    ensures faults { FaultsFall }
{
    0
}

/// The edge is the least frame count within the ceiling.
pub fn edges_stand() -> u8
    ensures { EdgesStand }
{
    0
}
