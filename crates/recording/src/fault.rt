//! What a refused recording carries.
ghost use Rattle.std.specs.Prelude.{◌≡◌};
ghost use Rattle.recording.specs.Reading.{by_bytes, by_names};

use paging::refusal::Refusal;

/// The layer that refused a recording.
#[derive(Clone, Copy, Debug, PartialEq, Eq)]
pub enum Layer {
    /// The bytes are not laid out as a recording.
    Bytes,
    /// A name has no place in the list.
    Names,
}

/// Why a recording was refused, by which layer, and where.
#[derive(Clone, Copy, Debug, PartialEq, Eq)]
pub struct LoadFault {
    pub refusal: Refusal,
    pub layer: Layer,
    pub place: usize,
}

impl LoadFault {
    /// A refusal by the bytes, at a place among them.
    pub(crate) fn by_bytes(refusal: Refusal, place: usize) -> LoadFault
        ensures { result ≡ by_bytes refusal place }
    {
        LoadFault {
            refusal,
            layer: Layer::Bytes,
            place,
        }
    }

    /// A refusal by the list of names, at a place among the names.
    pub(crate) fn by_names(refusal: Refusal, place: usize) -> LoadFault
        ensures { result ≡ by_names refusal place }
    {
        LoadFault {
            refusal,
            layer: Layer::Names,
            place,
        }
    }
}
