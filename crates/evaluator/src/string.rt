//! The calls that change a trial's string.
ghost use Rattle.evaluator.specs.Guarantee.{Guarantee};
ghost use Rattle.evaluator.specs.Histories.{after_call, clear, put, take_back};
ghost use Rattle.evaluator.specs.Strings.{put_answer, string, take_answer};
ghost use Rattle.std.specs.Prelude.{◌≡◌, ℕ, ◌<◌, ◌≤◌, [], length};

use crate::Trial;
use paging::refusal::Refusal;
use paging::string::References;

impl Trial {
    /// A trial with an empty string.
    ///
    /// Whatever puts, take-backs, clears and loads are then made on it, refused ones included, the guarantee holds of its string: no
    /// schedule and no pager does better than figures tell, and passes and edges of every ranking are exact.
    pub fn new() -> Trial
        ensures string { string result ≡ [] }
        ensures guarantee { Guarantee }
    {
        Trial {
            codes: [0; 4096],
            len: 0,
        }
    }

    /// The length of the string.
    pub fn len(&self) -> usize
        ensures { result ≡ length (string self.now) }
    {
        self.codes().len()
    }

    /// The codes of the string.
    pub fn codes(&self) -> &[u8]
        ensures value { result.now ≡ string self.now }
        ensures few { length result.now ≤ 4096 }
    {
        &self.codes[..self.len]
    }

    /// The string, lent.
    pub(crate) fn references(&self) -> References<'_>
        ensures { result ≡ string self.now }
    {
        References::new(self.codes())
    }

    /// Adds a code at the end of the string, which has less than 4,096. Returns the new length.
    pub fn put(&mut self, code: u8) -> Result<usize, Refusal>
        ensures string { string self.new ≡ after_call (string self.old) (put code) }
        ensures answer { result ≡ put_answer (string self.old) }
    {
        if self.len >= 4096 {
            return Err(Refusal::StringFull);
        }
        self.codes[self.len] = code;
        self.len += 1;
        Ok(self.len)
    }

    /// Removes the last k codes, of which there are as many. Returns the new length.
    pub fn take_back(&mut self, k: usize) -> Result<usize, Refusal>
        ensures string { string self.new ≡ after_call (string self.old) (take_back k) }
        ensures answer { result ≡ take_answer (string self.old) k }
    {
        if k > self.len {
            return Err(Refusal::StringTooShort);
        }
        self.len -= k;
        Ok(self.len)
    }

    /// Empties the string. Returns the new length, 0.
    pub fn clear(&mut self) -> usize
        ensures string { string self.new ≡ after_call (string self.old) clear }
        ensures answer { result ≡ 0 }
    {
        self.len = 0;
        0
    }
}
