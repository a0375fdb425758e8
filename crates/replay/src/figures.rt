//! Figures, passes and edges against the plain counts.
use crate::comparisons::Comparisons;
use crate::plain::{Fault, Pages, Schedule};
use crate::tally::holds_then;
use evaluator::Trial;
use paging::refusal::Refusal;
use ranking::Ranking;
use std::alloc::{AllocError, Global};

/// The fault instants and the pulls of a rule at the frame counts 1 to 64.
#[derive(Drop)]
pub struct Row {
    figures: [(u32, u32); 64],
}

impl Row {
    /// Counts them in the rule's schedules.
    pub fn of<F: Fn(&Fault) -> Result<Pages, AllocError> + Copy>(
        heap: Global,
        string: &[u8],
        rule: F,
    ) -> Result<Row, AllocError>
        requires { F.IsAlwaysCallable rule }
    {
        let mut figures = [(0, 0); 64];
        for (frames, place) in (1..=64).zip(figures.iter_mut()) {
            *place = Schedule::of(heap, frames, string, rule)?.figures();
        }
        Ok(Row { figures })
    }

    /// The fault instants alone.
    fn instants(&self) -> [u32; 64] {
        self.figures.map(|figures| figures.0)
    }

    /// The first frame count with at most so many fault instants, or the number of the refusal that there is none.
    fn edge(&self, ceiling: u32) -> Result<u32, u8> {
        let mut counts = (1..=64).zip(self.figures.iter());
        counts
            .find(|(_, figures)| figures.0 <= ceiling)
            .map(|(frames, _)| frames)
            .ok_or(13)
    }

    /// Ceilings to try: some fixed ones, and those at and just below the counts of some frame counts.
    fn ceilings(&self, heap: Global) -> Result<Vec<u32>, AllocError> {
        let fixed = [0, 1, 5, 100, 4096, u32::MAX].into_iter();
        let at = [30, 40, 50, 60, 6, 16, 26]
            .into_iter()
            .map(|k: usize| self.figures[k].0);
        let below = [35, 45, 55, 1, 11, 21, 31]
            .into_iter()
            .map(|k: usize| self.figures[k].0.saturating_sub(1));
        fixed.chain(at).chain(below).collect(heap)
    }
}

impl Comparisons {
    /// Figures of a policy at every frame count.
    pub fn compare_figures(&mut self, letter: char, row: &Row) {
        for (frames, figures) in (1..=64).zip(row.figures.iter()) {
            self.figures
                .compare_answer(self.trial.figures(letter, frames), Ok(*figures));
        }
    }

    /// Edges for several ceilings.
    fn compare_edges<A: Fn(&Trial, u32) -> Result<u32, Refusal>, E: Fn(u32) -> Result<u32, u8>>(
        &mut self,
        row: &Row,
        answer: A,
        expected: E,
    ) -> Result<(), AllocError>
        requires answers { A.IsAlwaysCallable answer }
        requires expects { E.IsAlwaysCallable expected }
    {
        for ceiling in row.ceilings(self.heap)? {
            self.edges
                .compare_answer(answer(&self.trial, ceiling), expected(ceiling));
        }
        Ok(())
    }

    /// The edges of a policy's letter.
    pub fn compare_policy_edges(&mut self, letter: char, row: &Row) -> Result<(), AllocError> {
        self.compare_edges(
            row,
            |trial, ceiling| trial.edge(letter, ceiling),
            |ceiling| row.edge(ceiling),
        )
    }

    /// FIFO has no edge, whatever its figures are.
    pub fn compare_no_edges(&mut self, row: &Row) -> Result<(), AllocError> {
        self.compare_edges(row, |trial, ceiling| trial.edge('F', ceiling), |_| Err(12))
    }

    /// The edges of a ranking.
    pub fn compare_ranking_edges<R: Ranking + Drop, M: Fn() -> R>(
        &mut self,
        row: &Row,
        make: M,
    ) -> Result<(), AllocError>
        requires { M.IsAlwaysCallable make }
    {
        self.compare_edges(
            row,
            |trial, ceiling| trial.edge_of(make(), ceiling),
            |ceiling| row.edge(ceiling),
        )
    }

    /// A pass into memory that is too short, one into memory that is longer than need be, and one more with the ranking that
    /// was told the whole string: no page that is held was told of before the run only, so its numbers are the same.
    pub fn compare_pass<R: Ranking + Drop>(&mut self, row: &Row, mut ranking: R) {
        let instants = row.instants();
        let mut short = [7; 63];
        let answer = self.trial.pass(&mut ranking, &mut short);
        self.passes.compare_answer(answer, Err(17));
        self.passes.note(holds_then(&short, &[], 7));
        let mut long = [7; 66];
        self.passes
            .compare_answer(self.trial.pass(&mut ranking, &mut long), Ok(64));
        self.passes.note(holds_then(&long, &instants, 7));
        let mut exact = [0; 64];
        self.passes
            .compare_answer(self.trial.pass(&mut ranking, &mut exact), Ok(64));
        self.passes.note(holds_then(&exact, &instants, 7));
    }
}
