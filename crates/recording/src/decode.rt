//! Decoding a recording: its names are looked up one by one, and their codes written.
ghost use Rattle.std.specs.Prelude.{◌≡◌, ◌+◌, ◌*◌, ◌≤◌, true, length, take, is_ok, IfOk, if◌then◌else◌, Ok};
ghost use Rattle.recording.specs.Bits.{bit_of, number_at};
ghost use Rattle.recording.specs.Coding.{at_place, codes_before, codes_of, coded_answer, decoded, names_in, names_of, names_recorded, with_codes, with_records};
ghost use Rattle.names.specs.Lists.{limit_of, looked_count, looked_memory, looked_up};
ghost use Rattle.recording.specs.Reading.{bytes_for};
ghost use Rattle.recording.specs.Writing.{all_named};

use crate::fault::LoadFault;
use crate::layout::{FRONT, checked_layout};
use crate::reader::Reader;
use names::list::NameList;
use names::name::Name;

// The code of the next name that the reader has, which is the one at the place.
fn next_code<N: Name + Copy>(
    reader: &mut Reader,
    list: &mut NameList<N>,
    place: usize,
) -> Result<u8, LoadFault>
    requires { reader.old.at + N.width ≤ length reader.old.bytes.now * 8 }
    ensures answer { result ≡ at_place place (looked_up N.bits list.old.memory.now list.old.count (N.named (number_at (bit_of 8 reader.old.bytes.now) reader.old.at N.width))) }
    ensures at { reader.new.at ≡ reader.old.at + N.width }
    ensures bytes { reader.new.bytes.now ≡ reader.old.bytes.now }
    ensures count { list.new.count ≡ looked_count N.bits list.old.memory.now list.old.count (N.named (number_at (bit_of 8 reader.old.bytes.now) reader.old.at N.width)) }
    ensures memory { list.new.memory.now ≡ looked_memory N.bits list.old.memory.now list.old.count (N.named (number_at (bit_of 8 reader.old.bytes.now) reader.old.at N.width)) }
    ensures lender { list.new.memory.ghost_name ≡ list.old.memory.ghost_name }
{
    let number = reader.take(N::bit_width())?;
    list.look_up(N::from_bits(number))
        .map_err(|refusal| LoadFault::by_names(refusal, place))
}

// Looks up the names of a recording that counts as many as the memory of their codes has, and writes the codes.
fn read_names<N: Name + Copy>(
    bytes: &[u8],
    list: &mut NameList<N>,
    codes: &mut [u8],
) -> Result<usize, LoadFault>
    requires most { length codes.old ≤ 4096 }
    requires whole { length bytes.now ≡ bytes_for N.width (length codes.old) }
    requires empty { list.old.count ≡ 0 }
    ensures answer { result ≡ coded_answer (codes_of (limit_of (length list.old.memory.now)) (names_in N.width bytes.now (length codes.old))) }
    ensures codes { IfOk result (λ n. codes_of (limit_of (length list.old.memory.now)) (names_in N.width bytes.now (length codes.old)) ≡ Ok codes.new) }
    ensures named { IfOk result (λ _. all_named list.new.count codes.new ≡ true) }
    ensures written { codes.new ≡ with_codes (codes_before (limit_of (length list.old.memory.now)) (names_in N.width bytes.now (length codes.old))) codes.old }
    ensures count { list.new.count ≡ length (names_of (limit_of (length list.old.memory.now)) (names_in N.width bytes.now (length codes.old))) }
    ensures memory { list.new.memory.now ≡ with_records N.named (names_of (limit_of (length list.old.memory.now)) (names_in N.width bytes.now (length codes.old))) list.old.memory.now }
    ensures lender { list.new.memory.ghost_name ≡ list.old.memory.ghost_name }
{
    let mut reader = Reader { bytes, at: FRONT };
    for (i, code) in codes.iter_mut().enumerate() {
        *code = next_code(&mut reader, list, i + 1)?;
    }
    Ok(codes.len())
}

/// Decodes a recording: empties the list, looks up each name in it, and writes the codes. It answers how many.
///
/// After a refusal the list is empty, and the names added and the codes written before it remain in the two memories. The
/// memory behind the codes stays as it was.
pub fn decode<N: Name + Copy>(
    bytes: &[u8],
    list: &mut NameList<N>,
    codes: &mut [u8; 4096],
) -> Result<usize, LoadFault>
    ensures answer { result ≡ decoded N.kind N.width (length list.old.memory.now) bytes.now }
    ensures codes { IfOk result (λ n. codes_of (limit_of (length list.old.memory.now)) (names_recorded N.kind N.width bytes.now) ≡ Ok (take n codes.new)) }
    ensures named { IfOk result (λ n. all_named list.new.count (take n codes.new) ≡ true) }
    ensures written { codes.new ≡ with_codes (codes_before (limit_of (length list.old.memory.now)) (names_recorded N.kind N.width bytes.now)) codes.old }
    ensures count { list.new.count ≡ (if is_ok result then length (names_of (limit_of (length list.old.memory.now)) (names_recorded N.kind N.width bytes.now)) else 0) }
    ensures memory { list.new.memory.now ≡ with_records N.named (names_of (limit_of (length list.old.memory.now)) (names_recorded N.kind N.width bytes.now)) list.old.memory.now }
    ensures lender { list.new.memory.ghost_name ≡ list.old.memory.ghost_name }
{
    list.clear();
    let count = checked_layout::<N>(bytes)?;
    let answer = read_names(bytes, list, &mut codes[..count]);
    // Tried with inspect_err: the proof then knows nothing of the list that its closure clears.
    if answer.is_err() {
        list.clear();
    }
    answer
}
