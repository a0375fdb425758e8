//! The layout of a recording: version, kind, zero bits, count, names, and zero bits up to a full byte.
ghost use Rattle.std.specs.Prelude.{◌≡◌, ◌≤◌};
ghost use Rattle.recording.specs.Reading.{body, bytes_for, head, laid_out};

use crate::fault::LoadFault;
use crate::reader::Reader;
use names::name::Name;
use paging::refusal::Refusal;

/// The version of this layout.
pub const VERSION: u16 = 1;

/// How many bits stand before the names.
pub const FRONT: usize = 24;

// How many bytes these are.
const FRONT_BYTES: usize = 3;

// The most references that a recording may count.
const MOST: u16 = 4096;

// The count in the first three bytes, which have to be those of a recording of the kind.
pub fn header<N: Name>(bytes: &[u8]) -> Result<usize, LoadFault>
    ensures { result ≡ head N.kind bytes.now }
{
    let front = &bytes[..bytes.len().min(FRONT_BYTES)];
    let mut reader = Reader {
        bytes: front,
        at: 0,
    };
    let version = reader.take(4)?;
    let kind = reader.take(2)?;
    let zero = reader.take(2)?;
    let count = reader.take(16)?;
    if version != VERSION || kind != N::kind_number() || zero != 0 {
        return Err(LoadFault::by_bytes(Refusal::BadHeader, 0));
    }
    if count > MOST {
        return Err(LoadFault::by_bytes(Refusal::TooManyReferences, 1));
    }
    Ok(count as usize)
}

/// How many bytes a recording of so many names has.
pub fn bytes_for<N: Name>(count: usize) -> usize
    requires { count ≤ 4096 }
    ensures { result ≡ bytes_for N.width count }
{
    FRONT_BYTES + (count * N::bit_width()).div_ceil(8)
}

// Whether length and spare bits are those of a recording of so many names: the count.
fn checked_body<N: Name>(bytes: &[u8], count: usize) -> Result<usize, LoadFault>
    requires { count ≤ 4096 }
    ensures { result ≡ body N.width bytes.now count }
{
    let needed = bytes_for::<N>(count);
    if bytes.len() != needed {
        let place = bytes.len().min(needed);
        return Err(LoadFault::by_bytes(Refusal::WrongLength, place));
    }
    let used = FRONT + count * N::bit_width();
    let mut reader = Reader { bytes, at: used };
    if reader.take(needed * 8 - used)? != 0 {
        return Err(LoadFault::by_bytes(Refusal::SpareBitsSet, needed - 1));
    }
    Ok(count)
}

/// The count of a recording that is laid out as one of the kind.
pub fn checked_layout<N: Name>(bytes: &[u8]) -> Result<usize, LoadFault>
    ensures { result ≡ laid_out N.kind N.width bytes.now }
{
    let count = header::<N>(bytes)?;
    checked_body::<N>(bytes, count)
}
