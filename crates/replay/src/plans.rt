//! Plans against the moves of the plain schedules.
use crate::comparisons::Comparisons;
use crate::plain::{Fault, Move, Pages, Schedule};
use std::alloc::AllocError;

/// What stands in memory before a plan is written.
const FILL: u32 = 0xABCDEF01;

/// The word of a move. Place, kind and code stand in 13, 1 and 8 bits, above ten zero bits.
fn word_of(step: &Move) -> u32 {
    ((step.place % 8192) as u32) << 19 | (step.kind as u32) << 18 | (step.code as u32) << 10
}

impl Comparisons {
    /// The plan of a policy: into memory that just fits, that is longer, and that is one word short.
    pub fn compare_plans<F: Fn(&Fault) -> Result<Pages, AllocError>>(
        &mut self,
        letter: char,
        frames: u32,
        rule: F,
    ) -> Result<(), AllocError>
        requires { F.IsAlwaysCallable rule }
    {
        let schedule = Schedule::of(self.heap, frames, self.trial.codes(), rule)?;
        let words: Vec<u32> = schedule.moves.iter().map(word_of).collect(self.heap)?;
        let trial = &self.trial;
        self.plans
            .compare_written(self.heap, FILL, 3, &words, |memory| {
                trial.plan(letter, frames, memory)
            })
    }
}
