//! Comparisons, and how many of them came out different.
use paging::refusal::Refusal;
use std::alloc::{AllocError, Global};
use std::fmt;

/// How many comparisons a group made, and how many found a difference.
#[derive(Drop)]
pub struct Tally {
    compared: u32,
    different: u32,
}

impl Tally {
    /// Nothing compared yet.
    pub fn new() -> Tally {
        Tally {
            compared: 0,
            different: 0,
        }
    }

    /// Counts one comparison.
    pub fn note(&mut self, same: bool) {
        self.compared = self.compared.wrapping_add(1);
        if !same {
            self.different = self.different.wrapping_add(1);
        }
    }

    /// Compares what was found with what was expected.
    pub fn compare<T: PartialEq + Drop>(&mut self, found: T, expected: T) {
        self.note(found == expected);
    }

    /// Compares what a call answered with what was expected. A refusal is expected by its number, since callers see that.
    pub fn compare_answer<T: PartialEq + Drop>(
        &mut self,
        answer: Result<T, Refusal>,
        expected: Result<T, u8>,
    ) {
        self.compare(answer.map_err(Refusal::number), expected);
    }

    /// Has a call write into memory that just fits the expected values, that has so many places more, and that has one less.
    pub fn compare_written<T: PartialEq + Copy, F: Fn(&mut [T]) -> Result<usize, Refusal>>(
        &mut self,
        heap: Global,
        fill: T,
        more: usize,
        expected: &[T],
        write: F,
    ) -> Result<(), AllocError>
        // What calls a closure has to require that it may be called, here and in each function like this.
        requires { F.IsAlwaysCallable write }
    {
        let fits = expected.len();
        for room in [fits, fits.saturating_add(more), fits.saturating_sub(1)] {
            let mut memory = vec![in heap; fill; room]?;
            let answer = write(memory.as_mut_slice());
            if room < fits {
                self.compare_answer(answer, Err(17));
                self.note(holds_then(&memory, &[], fill));
            } else {
                self.compare_answer(answer, Ok(fits));
                self.note(holds_then(&memory, expected, fill));
            }
        }
        Ok(())
    }
}

impl fmt::Display for Tally {
    fn fmt<W: fmt::Write>(&self, f: &mut fmt::Formatter<W>) -> fmt::Result {
        write!(
            f,
            "{} comparisons, {} differences",
            self.compared, self.different
        )
    }
}

/// Whether memory begins with the values and is filled up with one value after them.
pub fn holds_then<T: PartialEq + Copy>(memory: &[T], values: &[T], fill: T) -> bool {
    match memory.strip_prefix(values) {
        Some(rest) => rest.iter().all(|value| *value == fill),
        None => false,
    }
}
