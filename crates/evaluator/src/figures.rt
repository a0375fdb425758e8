//! Figures: what a policy makes of a trial's string.
ghost use Rattle.std.specs.Prelude.{◌≡◌};
ghost use Rattle.evaluator.specs.Answers.{figures_answer};
ghost use Rattle.evaluator.specs.Strings.{string};

use crate::Trial;
use pagers::policy::PolicyPager;
use paging::frames::FrameCount;
use paging::policy::Policy;
use paging::refusal::Refusal;

impl Trial {
    /// The fault instants and the pulls of a policy's schedule of the string.
    // Letter and frame count apart, here and in a plan: the letter is refused first.
    pub fn figures(&self, letter: char, frames: u32) -> Result<(u32, u32), Refusal>
        ensures { result ≡ figures_answer letter frames (string self.now) }
    {
        let policy = Policy::try_from(letter)?;
        let frames = FrameCount::new(frames)?;
        Ok(PolicyPager::new(policy, frames).run(&self.references()))
    }
}
