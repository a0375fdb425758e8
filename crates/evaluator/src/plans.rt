//! Plans: the moves of a policy over a trial's string.
ghost use Rattle.std.specs.Prelude.{◌≡◌, length};
ghost use Rattle.evaluator.specs.Answers.{plan_answer, plan_of, plan_writes, write_answer, written};
ghost use Rattle.evaluator.specs.Strings.{string};
ghost use Rattle.paging.specs.Frames.{frames_of};

use crate::Trial;
use pagers::policy::PolicyPager;
use paging::frames::FrameCount;
use paging::policy::Policy;
use paging::refusal::Refusal;
use paging::string::References;

/// Writes the plan of a policy, if it fits: its words are counted in one run and written in another.
fn policy_plan(
    policy: Policy,
    frames: FrameCount,
    string: &References,
    out: &mut [u32],
) -> Result<usize, Refusal>
    ensures answer { result ≡ write_answer (length (plan_of policy (frames_of frames) string.now)) out.old }
    ensures words { out.new ≡ written (plan_of policy (frames_of frames) string.now) out.old }
{
    if out.len() < PolicyPager::new(policy, frames).word_count(string) {
        return Err(Refusal::OutputTooShort);
    }
    Ok(PolicyPager::new(policy, frames).plan(string, out))
}

impl Trial {
    /// Writes the moves of a policy's schedule of the string. Returns the number of words.
    pub fn plan(&self, letter: char, frames: u32, out: &mut [u32]) -> Result<usize, Refusal>
        ensures answer { result ≡ plan_answer letter frames (string self.now) out.old }
        ensures words { out.new ≡ plan_writes letter frames (string self.now) out.old }
    {
        let policy = Policy::try_from(letter)?;
        let frames = FrameCount::new(frames)?;
        policy_plan(policy, frames, &self.references(), out)
    }
}
