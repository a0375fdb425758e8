//! Edges: the smallest frame count at which faults come down to a ceiling.
ghost use Rattle.std.specs.Prelude.{◌≡◌, Ok};
ghost use Rattle.evaluator.specs.Answers.{edge_answer, found, instants_row, ranking_edge};
ghost use Rattle.evaluator.specs.Strings.{string};
ghost use Rattle.paging.specs.declared.policy.Policy.TheVariants.{Dpmin};
ghost use Rattle.ranking.specs.Edges.{at_count, edge};

use crate::Trial;
use pager::runs::run;
use pagers::dpmin::DpminPager;
use paging::frames::FrameCount;
use paging::policy::Policy;
use paging::refusal::Refusal;
use paging::string::References;
use ranking::Ranking;
use ranking::edge::edge_in;
use ranking::last_reference::LastReference;
use ranking::next_reference::NextReference;

/// The fault instants of DPMIN at the frame counts 1 to 64.
fn dpmin_row(string: &References) -> Result<[u32; 64], Refusal>
    ensures { result ≡ Ok (instants_row Dpmin string.now) }
{
    let mut row = [0; 64];
    for (k, faults) in row.iter_mut().enumerate() {
        let mut pager = DpminPager::new(FrameCount::new(k as u32 + 1)?);
        *faults = run(&mut pager, string).0;
    }
    Ok(row)
}

/// The first frame count of a row that is within the ceiling, or the refusal that there is none.
fn within(row: &[u32; 64], ceiling: u32) -> Result<u32, Refusal>
    ensures { result ≡ found (edge (at_count row.now) ceiling) }
{
    edge_in(row, ceiling).ok_or(Refusal::NoFrameCountWithin)
}

impl Trial {
    /// The smallest frame count at which a policy's fault instants are at most the ceiling.
    pub fn edge(&self, letter: char, ceiling: u32) -> Result<u32, Refusal>
        ensures { result ≡ edge_answer letter (string self.now) ceiling }
    {
        // A match: DPMIN's edge has no ranking, and FIFO none at all.
        match Policy::try_from(letter)? {
            Policy::Lru => self.edge_of(LastReference::new(), ceiling),
            Policy::Min => self.edge_of(NextReference::new(), ceiling),
            Policy::Dpmin => within(&dpmin_row(&self.references())?, ceiling),
            Policy::Fifo => Err(Refusal::PolicyWithoutEdge),
        }
    }

    /// The smallest frame count at which the ranking's own run has at most as many faults as the ceiling says. The ranking is
    /// used up.
    pub fn edge_of<R: Ranking + Drop>(&self, ranking: R, ceiling: u32) -> Result<u32, Refusal>
        ensures { result ≡ ranking_edge (R.order ranking) (string self.now) ceiling }
    {
        ranking::edge::edge_of(ranking, &self.references(), ceiling).ok_or(
            Refusal::NoFrameCountWithin,
        )
    }
}
