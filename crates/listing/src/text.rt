//! Texts: each tells how long it is, and is written into provided memory.
ghost use Rattle.std.specs.Prelude.{◌≡◌, ℕ, ◌+◌, ◌≤◌, List, [], ◌∷◌, ◌++◌, length, decimal};
ghost use Rattle.evaluator.specs.Answers.{write_answer, written};
ghost use Rattle.listing.specs.Texts.{field, row_text};
ghost use Rattle.output.specs.Outputs.{HasRoom, Writes};

use output::Output;
use paging::refusal::Refusal;

/// A text that is measured and written.
// No `Display`: its `fmt` promises what was written where it succeeds, and not that it succeeds where there is room.
pub trait Text {
    // its bytes
    ghost text: { Self → List ℕ };

    // no text of this kind has more bytes
    ghost longest: { ℕ };

    /// How many bytes the text has.
    // Apart from `put`: one method over a sink that counts or writes has one more parameter and both promises, and is no shorter.
    fn text_len(&self) -> usize
        ensures value { result ≡ length (text self.now) }
        ensures bound { result ≤ longest };

    /// Writes the text.
    fn put(&self, output: &mut Output<u8>)
        requires { HasRoom output.old (length (text self.now)) }
        ensures { Writes output.old (text self.now) output.new };
}

/// Writes a text into memory, if it fits, and else nothing. Returns how many bytes it is.
pub fn put_text<T: Text>(out: &mut [u8], text: &T) -> Result<usize, Refusal>
    ensures answer { result ≡ write_answer (length (T.text text.now)) out.old }
    ensures bytes { out.new ≡ written (T.text text.now) out.old }
    ensures most { length (T.text text.now) ≤ T.longest }
{
    if out.len() < text.text_len() {
        return Err(Refusal::OutputTooShort);
    }
    let mut output = Output::over(out);
    text.put(&mut output);
    Ok(output.len())
}

/// How many decimal digits a number has.
fn digit_count(n: usize) -> usize
    ensures value { result ≡ length (decimal n) }
    ensures bound { result ≤ 20 }
{
    // 0 has no logarithm, and as many digits as 1
    n.max(1).ilog10() as usize + 1
}

/// How many bytes a number takes with the byte that ends it.
pub fn field_len(n: usize) -> usize
    ensures value { result ≡ length (decimal n) + 1 }
    ensures bound { result ≤ 21 }
{
    digit_count(n) + 1
}

/// Writes the decimal digits of a number.
// By hand: `write!` promises what it wrote only where it succeeds, and not that it succeeds where there is room.
fn put_digits(output: &mut Output<u8>, n: usize)
    requires { HasRoom output.old (length (decimal n)) }
    ensures { Writes output.old (decimal n) output.new }
{
    if n >= 10 {
        put_digits(output, n / 10);
    }
    output.push(b'0' + (n % 10) as u8);
}

/// Writes a number and the byte that ends it.
pub fn put_field(output: &mut Output<u8>, n: usize, end: u8)
    requires { HasRoom output.old (length (field n end)) }
    ensures { Writes output.old (field n end) output.new }
{
    put_digits(output, n);
    output.push(end);
}

/// One line of the listing: a frame count, the faults of LRU and of MIN, and the fault instants and pulls of DPMIN.
#[derive(Clone, Copy, Default)]
pub struct Row {
    pub frames: u32,
    pub lru: u32,
    pub min: u32,
    pub dpmin: u32,
    pub pulls: u32,
}

impl Text for Row {
    ghost text = { row_text };

    ghost longest = { 105 };

    fn text_len(&self) -> usize {
        field_len(self.frames as usize)
            + field_len(self.lru as usize)
            + field_len(self.min as usize)
            + field_len(self.dpmin as usize)
            + field_len(self.pulls as usize)
    }

    fn put(&self, output: &mut Output<u8>) {
        put_field(output, self.frames as usize, b',');
        put_field(output, self.lru as usize, b',');
        put_field(output, self.min as usize, b',');
        put_field(output, self.dpmin as usize, b',');
        put_field(output, self.pulls as usize, b'\n');
    }
}
