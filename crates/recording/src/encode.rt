//! Encoding a string: the recording of the names that its codes stand for.
ghost use Rattle.std.specs.Prelude.{◌≡◌, ◌<◌, ◌≤◌, true, false, ◌++◌, map, length, drop, MatchResult, slice_index};
ghost use Rattle.recording.specs.Bits.{number_at, numbers_at};
ghost use Rattle.names.specs.Lists.{listed};
ghost use Rattle.recording.specs.Writing.{all_named, encoded, named_by, recording, recording_bit, written};

use crate::bits::{bit_in, number_at};
use crate::layout::{FRONT, VERSION, bytes_for};
use names::list::NameList;
use names::name::Name;
use paging::refusal::Refusal;
use paging::string::References;

// Whether each code has a name among so many.
fn every_named(codes: &[u8], count: usize) -> bool
    ensures { result ≡ all_named count codes.now }
{
    codes.iter().all(|code| (*code as usize) < count)
}

// A string of at most 4,096 codes with the names that they stand for.
#[derive(Drop)]
struct NamedString<'a, N: Name> {
    names: &'a [N],
    codes: &'a [u8],
    ghost few: { length codes.now ≤ 4096 },
    ghost named: { all_named (length names.now) codes.now ≡ true },
}

impl<'a, N: Name + Copy> NamedString<'a, N> {
    // The string with the names, of which each code has to have one.
    fn new(names: &'a [N], string: &References<'a>) -> Result<NamedString<'a, N>, Refusal>
        ensures { MatchResult result (λ s. (s.names.now ≡ names.now) × (s.codes.now ≡ string.now)) (λ e. (e ≡ Refusal.CodeWithoutName) × (all_named (length names.now) string.now ≡ false)) }
    {
        let codes = string.codes();
        if !every_named(codes, names.len()) {
            return Err(Refusal::CodeWithoutName);
        }
        Ok(NamedString { names, codes })
    }

    // The number that the name of the code at a place stands for. Behind the codes it is 0, as the format fills with zero bits.
    fn number(&self, i: usize) -> u16
        ensures { result ≡ slice_index (named_by (map N.bits self.now.names.now) self.now.codes.now) i }
    {
        match self.codes.get(i).copied() {
            Some(code) => self.names[code as usize].to_bits(),
            None => 0,
        }
    }

    // The bit at a place of the recording.
    fn bit(&self, place: usize) -> u8
        ensures { result ≡ recording_bit N.kind N.width (named_by (map N.bits self.now.names.now) self.now.codes.now) place }
    {
        if place < FRONT {
            let marks = ((VERSION as u32) << 20) + ((N::kind_number() as u32) << 18);
            return bit_in(FRONT, marks + self.codes.len() as u32, place);
        }
        let width = N::bit_width();
        let number = self.number((place - FRONT) / width);
        bit_in(width, number as u32, (place - FRONT) % width)
    }

    // Writes the recording, of which there are as many bytes as the memory has.
    fn write(&self, out: &mut [u8])
        requires { length out.old ≤ 8195 }
        ensures { out.new ≡ numbers_at (recording_bit N.kind N.width (named_by (map N.bits self.now.names.now) self.now.codes.now)) 8 0 (length out.old) }
    {
        for (i, byte) in out.iter_mut().enumerate() {
            *byte = number_at(|place| self.bit(place), i * 8, 8) as u8;
        }
    }
}

/// Writes the recording of a string with the names of a list. It answers how many bytes it has.
pub fn encode<N: Name + Copy>(
    list: &NameList<N>,
    string: &References,
    out: &mut [u8],
) -> Result<usize, Refusal>
    ensures answer { result ≡ encoded N.width (listed N.bits list.now.memory.now list.now.count) string.now (length out.old) }
    ensures out { out.new ≡ written result (recording N.kind N.width (named_by (listed N.bits list.now.memory.now list.now.count) string.now)) out.old }
{
    let named = NamedString::new(list.names(), string)?;
    let needed = bytes_for::<N>(named.codes.len());
    if out.len() < needed {
        return Err(Refusal::OutputTooShort);
    }
    named.write(&mut out[..needed]);
    Ok(needed)
}
