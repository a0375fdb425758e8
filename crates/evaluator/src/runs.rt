//! Rankings and pagers on a trial's string.
ghost use Rattle.evaluator.specs.Answers.{pass_leaves, pass_writes, run_answer, run_leaves, write_answer};
ghost use Rattle.evaluator.specs.Strings.{string};
ghost use Rattle.std.specs.Prelude.{◌≡◌};

use crate::Trial;
use pager::Pager;
use paging::refusal::Refusal;
use ranking::Ranking;

impl Trial {
    /// Serves the string to a pager that holds nothing. Returns the fault instants and the pulls that it makes.
    pub fn run<P: Pager>(&self, pager: &mut P) -> Result<(u32, u32), Refusal>
        ensures answer { result ≡ run_answer (P.holding pager.old) (string self.now) }
        ensures pager { P.holding pager.new ≡ run_leaves (P.holding pager.old) (string self.now) }
        ensures frames { P.room pager.new ≡ P.room pager.old }
    {
        if pager.held_count() != 0 {
            return Err(Refusal::PagerHoldsPages);
        }
        Ok(pager::runs::run(pager, &self.references()))
    }

    /// Writes the faults of the ranking's own runs at the frame counts 1 to 64, and tells it the whole string. Returns how
    /// many numbers it wrote, 64.
    pub fn pass<R: Ranking>(&self, ranking: &mut R, out: &mut [u32]) -> Result<usize, Refusal>
        ensures answer { result ≡ write_answer 64 out.old }
        ensures row { out.new ≡ pass_writes (R.order ranking.old) (string self.now) out.old }
        ensures ranking { R.order ranking.new ≡ pass_leaves (R.order ranking.old) (string self.now) out.old }
    {
        if out.len() < 64 {
            return Err(Refusal::OutputTooShort);
        }
        let row = ranking::pass::pass(ranking, &self.references());
        out[0..64].copy_from_slice(&row);
        Ok(64)
    }
}
