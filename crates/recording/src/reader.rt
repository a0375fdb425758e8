//! A reader of bits, the most significant of each byte first.
ghost use Rattle.std.specs.Prelude.{◌≡◌, ◌+◌, ◌≤◌, length, is_ok, if◌then◌else◌};
ghost use Rattle.recording.specs.Reading.{taken};

use crate::bits::{bit_in, number_at};
use crate::fault::LoadFault;
use paging::refusal::Refusal;

/// Reads the bits of a row of bytes, of which it has read `at` so far.
#[derive(Drop)]
pub struct Reader<'a> {
    // The bytes and a place in bits: an iterator over bytes would split them at no bit.
    pub bytes: &'a [u8],
    pub at: usize,
    ghost short: { length bytes.now ≤ 8195 },
    ghost within: { at ≤ 65560 },
}

impl Reader<'_> {
    /// The next n bits as a number. Where so many are not left, the bytes are too short.
    pub fn take(&mut self, n: usize) -> Result<u16, LoadFault>
        requires { n ≤ 16 }
        ensures answer { result ≡ taken self.old.bytes.now self.old.at n }
        ensures at { self.new.at ≡ (if is_ok result then self.old.at + n else self.old.at) }
        ensures bytes { self.new.bytes.now ≡ self.old.bytes.now }
    {
        let bytes = self.bytes;
        if self.at + n > bytes.len() * 8 {
            return Err(LoadFault::by_bytes(Refusal::TooShort, bytes.len()));
        }
        let number = number_at(|k| bit_in(8, bytes[k / 8] as u32, k % 8), self.at, n);
        self.at += n;
        Ok(number)
    }
}
