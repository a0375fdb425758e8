//! The strings that are replayed, and what is compared for each.
use crate::comparisons::Comparisons;
use crate::figures::Row;
use crate::plain::{Fault, Pages, first, furthest, largest, nearest, newest, oldest};
use crate::random::{Place, Random, in_phases, in_turn, make_string, scattered, swinging, walking};
use crate::rankings::{ByCode, Turned};
use paging::frames::FrameCount;
use ranking::Ranking;
use ranking::last_reference::LastReference;
use ranking::next_reference::NextReference;
use std::alloc::AllocError;

impl Comparisons {
    /// The figures of a policy. Returns those of its rule at all frame counts.
    fn compare_policy<F: Fn(&Fault) -> Result<Pages, AllocError> + Copy>(
        &mut self,
        letter: char,
        rule: F,
    ) -> Result<Row, AllocError>
        requires { F.IsAlwaysCallable rule }
    {
        let row = Row::of(self.heap, self.trial.codes(), rule)?;
        self.compare_figures(letter, &row);
        Ok(row)
    }

    /// The pass and the edges of a ranking.
    fn compare_ranking<R: Ranking + Drop, M: Fn() -> R>(
        &mut self,
        row: &Row,
        make: M,
    ) -> Result<(), AllocError>
        requires { M.IsAlwaysCallable make }
    {
        self.compare_pass(row, make());
        self.compare_ranking_edges(row, make)
    }

    /// Figures, passes and edges at all frame counts.
    fn compare_counts(&mut self) -> Result<(), AllocError> {
        let lru = self.compare_policy('L', oldest)?;
        self.compare_policy_edges('L', &lru)?;
        self.compare_ranking(&lru, LastReference::new)?;
        let min = self.compare_policy('M', furthest)?;
        self.compare_policy_edges('M', &min)?;
        self.compare_ranking(&min, NextReference::new)?;
        let dpmin = self.compare_policy('D', nearest)?;
        self.compare_policy_edges('D', &dpmin)?;
        let fifo = self.compare_policy('F', first)?;
        self.compare_no_edges(&fifo)
    }

    /// Passes and edges of rankings that are not the evaluator's.
    fn compare_own_rankings(&mut self) -> Result<(), AllocError> {
        let turned = Row::of(self.heap, self.trial.codes(), newest)?;
        self.compare_ranking(
            &turned,
            || Turned {
                inner: LastReference::new(),
            },
        )?;
        let by_code = Row::of(self.heap, self.trial.codes(), largest)?;
        self.compare_ranking(&by_code, || ByCode {})
    }

    /// Runs and plans at a frame count.
    fn compare_frames(&mut self, frames: u32) -> Result<(), AllocError> {
        if let Ok(checked) = FrameCount::new(frames) {
            self.compare_policies(checked)?;
            self.compare_others(checked)?;
            self.compare_least(checked);
        }
        self.compare_plans('L', frames, oldest)?;
        self.compare_plans('M', frames, furthest)?;
        self.compare_plans('D', frames, nearest)?;
        self.compare_plans('F', frames, first)
    }

    /// Working sets, and letters and frame counts that are refused.
    fn compare_calls(&mut self) -> Result<(), AllocError> {
        for width in [0, 1, 2, 3, 10, 100, 1000, 4095, 4096, 4097, u32::MAX] {
            self.compare_working_sets(width)?;
        }
        for letter in ['L', 'M', 'D', 'F'] {
            self.compare_known(letter);
        }
        for letter in ['l', 'm', 'A', 'E', ' ', '\0', 'é'] {
            self.compare_unknown(letter);
        }
        Ok(())
    }

    /// Everything for one string.
    fn compare_string(&mut self, string: &[u8]) -> Result<(), AllocError> {
        self.put_string(string)?;
        self.compare_counts()?;
        self.compare_own_rankings()?;
        self.compare_calls()?;
        for frames in [1, 2, 3, 4, 5, 6, 7, 8, 16, 31, 32, 33, 63, 64] {
            self.compare_frames(frames)?;
        }
        self.compare_kinds(string)?;
        self.compare_take_back(string);
        Ok(())
    }

    /// A string of a shape, of a length and over so many pages.
    fn compare_shape<F: Fn(&mut Random, Place) -> u32>(
        &mut self,
        len: u32,
        pages: u32,
        shape: F,
    ) -> Result<(), AllocError>
        requires { F.IsAlwaysCallable shape }
    {
        let string = make_string(self.heap, len, pages, shape)?;
        self.compare_string(&string)
    }

    /// Strings of all shapes, of a length and over several numbers of pages.
    fn compare_length(&mut self, len: u32) -> Result<(), AllocError> {
        for pages in [1, 5, 64, 65, 256] {
            self.compare_shape(len, pages, scattered)?;
            self.compare_shape(len, pages, in_turn)?;
            self.compare_shape(len, pages, in_phases)?;
            self.compare_shape(len, pages, walking)?;
            self.compare_shape(len, pages, swinging)?;
        }
        Ok(())
    }

    /// All comparisons.
    pub fn compare_all(&mut self) -> Result<(), AllocError> {
        for len in [0, 1, 2, 17, 200] {
            self.compare_length(len)?;
        }
        for pages in [2, 40, 100, 256] {
            self.compare_shape(1000, pages, scattered)?;
            self.compare_shape(1000, pages, in_phases)?;
        }
        self.compare_full();
        self.compare_bad_bytes();
        self.compare_shape(4096, 70, walking)?;
        self.compare_shape(4096, 256, scattered)
    }
}
