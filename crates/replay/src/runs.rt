//! Runs of pagers against the plain schedules.
use crate::comparisons::Comparisons;
use crate::flush::FlushPager;
use crate::plain::{
    Fault, Pages, Schedule, alone, first, furthest, largest, nearest, newest, oldest,
};
use crate::rankings::{ByCode, Turned};
use pager::Pager;
use pagers::dpmin::DpminPager;
use pagers::fifo::FifoPager;
use pagers::ranked::RankingPager;
use paging::frames::FrameCount;
use paging::refusal::Refusal;
use ranking::last_reference::LastReference;
use ranking::next_reference::NextReference;
use std::alloc::AllocError;

/// Whether a pager holds just the pages of the set.
fn holds_just<P: Pager>(pager: &P, pages: &Pages) -> bool {
    pager.held_count() as usize == pages.len()
        && (0..=u8::MAX).all(|code| pager.holds(code) == pages.contains(&code))
}

/// Whether a number that was answered is no less than another.
fn at_least(more: Result<u32, Refusal>, less: Result<u32, Refusal>) -> bool {
    match (more, less) {
        (Ok(more), Ok(less)) => more >= less,
        _ => false,
    }
}

impl Comparisons {
    /// A run with a new pager, and a second one with the same pager.
    fn compare_run<P: Pager + Drop, F: Fn(&Fault) -> Result<Pages, AllocError>>(
        &mut self,
        frames: FrameCount,
        rule: F,
        mut pager: P,
    ) -> Result<(), AllocError>
        requires { F.IsAlwaysCallable rule }
    {
        let trial = &self.trial;
        let runs = &mut self.runs;
        let schedule = Schedule::of(self.heap, frames.get(), trial.codes(), rule)?;
        runs.compare_answer(trial.run(&mut pager), Ok(schedule.figures()));
        runs.note(holds_just(&pager, &schedule.held));
        let again = if trial.len() > 0 { Err(14) } else { Ok((0, 0)) };
        runs.compare_answer(trial.run(&mut pager), again);
        runs.note(holds_just(&pager, &schedule.held));
        runs.compare(pager.serve(&[]), 0);
        runs.note(holds_just(&pager, &schedule.held));
        runs.compare(pager.frames(), frames.get());
        Ok(())
    }

    /// The pagers of the four policies.
    pub fn compare_policies(&mut self, frames: FrameCount) -> Result<(), AllocError> {
        self.compare_run(frames, first, FifoPager::new(frames))?;
        self.compare_run(frames, nearest, DpminPager::new(frames))?;
        let lru = RankingPager::new(LastReference::new(), frames);
        self.compare_run(frames, oldest, lru)?;
        let min = RankingPager::new(NextReference::new(), frames);
        self.compare_run(frames, furthest, min)
    }

    /// Pagers of rules that are not the evaluator's.
    pub fn compare_others(&mut self, frames: FrameCount) -> Result<(), AllocError> {
        self.compare_run(frames, largest, RankingPager::new(ByCode {}, frames))?;
        let inner = LastReference::new();
        let turned = RankingPager::new(Turned { inner }, frames);
        self.compare_run(frames, newest, turned)?;
        self.compare_run(frames, alone, FlushPager::new(frames))
    }

    /// No pager faults less often than DPMIN, and none pulls less than MIN.
    pub fn compare_least(&mut self, frames: FrameCount) {
        let flush = self.trial.run(&mut FlushPager::new(frames));
        let dpmin = self.trial.figures('D', frames.get());
        let min = self.trial.figures('M', frames.get());
        self.runs.note(at_least(
            flush.map(|figures| figures.0),
            dpmin.map(|figures| figures.0),
        ));
        self.runs.note(at_least(flush.map(|figures| figures.1), min.map(|figures| figures.1)));
    }
}
