//! The calls that change a string, working sets, and what is refused.
use crate::comparisons::Comparisons;
use crate::plain::different;
use crate::tally::holds_then;
use paging::frames::FrameCount;
use std::alloc::{AllocError, Global};

/// The working sets of a string, each found by looking through its window: the places whose page was not in the set before,
/// and the sum of the sizes.
fn working_sets(heap: Global, string: &[u8], width: usize) -> Result<(u32, u32), AllocError> {
    let mut missing = 0u32;
    let mut sizes = 0u32;
    for (t, code) in string.iter().enumerate() {
        if !string[t.saturating_sub(width)..t].contains(code) {
            missing = missing.wrapping_add(1);
        }
        let window = &string[(t + 1).saturating_sub(width)..t + 1];
        sizes = sizes.wrapping_add(different(heap, window)?);
    }
    Ok((missing, sizes))
}

impl Comparisons {
    /// Clears the trial and puts a string into it.
    pub fn put_string(&mut self, string: &[u8]) -> Result<(), AllocError> {
        self.strings.compare(self.trial.clear(), 0);
        for (len, code) in (1..=string.len()).zip(string) {
            self.strings.compare_answer(self.trial.put(*code), Ok(len));
        }
        self.strings.compare(self.trial.len(), string.len());
        self.strings.compare(self.trial.codes(), string);
        let different = different(self.heap, string)?;
        self.strings.compare(self.trial.page_count(), different);
        Ok(())
    }

    /// Takes the string back in pieces, and puts it once more.
    pub fn compare_take_back(&mut self, string: &[u8]) {
        let len = string.len();
        self.strings
            .compare_answer(self.trial.take_back(len.saturating_add(1)), Err(9));
        let (front, back) = string.split_at(len - len / 3);
        self.strings
            .compare_answer(self.trial.take_back(back.len()), Ok(front.len()));
        self.strings.compare((self.trial.len(), self.trial.codes()), (front.len(), front));
        for (len, code) in (front.len() + 1..=len).zip(back) {
            self.strings.compare_answer(self.trial.put(*code), Ok(len));
        }
        self.strings
            .compare((self.trial.len(), self.trial.codes()), (len, string));
        self.strings
            .compare_answer(self.trial.take_back(len), Ok(0));
    }

    /// A full string takes no more, and stays as it is.
    pub fn compare_full(&mut self) {
        self.trial.clear();
        for i in 0..4096 {
            self.strings
                .compare_answer(self.trial.put((i % 251) as u8), Ok(i + 1));
        }
        for code in 0..=u8::MAX {
            self.strings.compare_answer(self.trial.put(code), Err(8));
        }
        for (i, code) in self.trial.codes().iter().enumerate() {
            self.strings.compare(*code, (i % 251) as u8);
        }
        self.strings
            .compare((self.trial.len(), self.trial.page_count()), (4096, 251));
    }

    /// The working sets of the string for a window.
    pub fn compare_working_sets(&mut self, width: u32) -> Result<(), AllocError> {
        let expected = if width == 0 || width > 4096 {
            Err(15)
        } else {
            Ok(working_sets(self.heap, self.trial.codes(), width as usize)?)
        };
        self.working_sets
            .compare_answer(self.trial.working_sets(width), expected);
        Ok(())
    }

    /// A letter or a frame count that is refused with the number, and leaves the memory as it was.
    // By number, since that is what callers see and what is compared.
    fn compare_refusal(&mut self, letter: char, frames: u32, number: u8) {
        let mut memory = [5; 3];
        self.refusals
            .compare_answer(self.trial.figures(letter, frames), Err(number));
        self.refusals
            .compare_answer(self.trial.plan(letter, frames, &mut memory), Err(number));
        self.refusals.note(holds_then(&memory, &[], 5));
    }

    /// Frame counts that are none, with a letter that is refused by another number or by none.
    fn compare_frame_counts(&mut self, letter: char, number: u8) {
        for frames in [0, 65, 66, 1000, u32::MAX] {
            self.compare_refusal(letter, frames, number);
            self.refusals
                .compare_answer(FrameCount::new(frames).map(FrameCount::get), Err(11));
        }
    }

    /// The letter of a policy: frame counts that are none are refused.
    pub fn compare_known(&mut self, letter: char) {
        self.compare_frame_counts(letter, 11);
    }

    /// No policy's letter: it is refused, before any frame count is.
    pub fn compare_unknown(&mut self, letter: char) {
        self.compare_frame_counts(letter, 10);
        self.compare_refusal(letter, 1, 10);
        self.compare_refusal(letter, 64, 10);
        self.refusals
            .compare_answer(self.trial.edge(letter, 4096), Err(10));
    }
}
