//! Rows of bits, the most significant first: the bits of a number, and the number in some bits.
ghost use Rattle.std.specs.Prelude.{◌≡◌, ℕ, ◌+◌, ◌^◌, ◌<◌, ◌≤◌};
ghost use Rattle.recording.specs.Bits.{bit_in, number_at};

/// Bit i of a number that has so many bits, of which the most significant is bit 0.
pub fn bit_in(width: usize, number: u32, i: usize) -> u8
    requires width { width ≤ 32 }
    requires within { i < width }
    ensures { result ≡ bit_in width number i }
{
    ((number >> (width - 1 - i)) % 2) as u8
}

/// The number in the n bits from bit i on, where bit k is what is asked at k.
pub fn number_at<F: Fn(usize) -> u8>(bit: F, i: usize, n: usize) -> u16
    requires few { n ≤ 16 }
    requires within { i + n < 2 ^ 64 }
    requires asked { (k : ℕ) → k < i + n → F.pre bit k }
    requires bits { (k r : ℕ) → F.post bit k r → r < 2 }
    ensures below { result < 2 ^ n }
    ensures number { (b : ℕ → ℕ) → ((k r : ℕ) → F.post bit k r → r ≡ b k) → result ≡ number_at b i n }
{
    // Tried as a fold: the proof then does not see that the number so far fits.
    let mut number = 0;
    for k in i..i + n {
        number = number * 2 + bit(k) as u16;
    }
    number
}
