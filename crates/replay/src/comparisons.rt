//! A trial, and the comparisons that are made with it.
use crate::tally::Tally;
use evaluator::Trial;
use std::alloc::Global;

/// A trial and the comparisons that were made so far, by what they are of.
#[derive(Drop)]
pub struct Comparisons {
    pub heap: Global,
    pub trial: Trial,
    pub strings: Tally,
    pub figures: Tally,
    pub passes: Tally,
    pub edges: Tally,
    pub runs: Tally,
    pub plans: Tally,
    pub working_sets: Tally,
    pub refusals: Tally,
    pub recordings: Tally,
}

impl Comparisons {
    /// An empty trial, and nothing compared yet.
    pub fn new(heap: Global) -> Comparisons {
        Comparisons {
            heap,
            trial: Trial::new(),
            strings: Tally::new(),
            figures: Tally::new(),
            passes: Tally::new(),
            edges: Tally::new(),
            runs: Tally::new(),
            plans: Tally::new(),
            working_sets: Tally::new(),
            refusals: Tally::new(),
            recordings: Tally::new(),
        }
    }

    /// The groups by name, in the order in which they are printed.
    pub fn tallies(&self) -> [(&'static str, &Tally); 9] {
        [
            ("strings", &self.strings),
            ("figures", &self.figures),
            ("passes", &self.passes),
            ("edges", &self.edges),
            ("runs", &self.runs),
            ("plans", &self.plans),
            ("working sets", &self.working_sets),
            ("refusals", &self.refusals),
            ("recordings", &self.recordings),
        ]
    }
}
