//! What recordings guarantee, as the contract of a call.
ghost use Rattle.recording.specs.Standing.{RecordingsStand};

/// For every kind of name: bytes are accepted exactly if they are the recording of a row of names, a row's codes over
/// a list of different names stand for those names and are as many different pages as there are different names, a row
/// finds places exactly if it has no more different names than the list can hold, what was loaded is stored as the same
/// bytes, and what was stored is loaded as the same row of names.
pub fn recordings_stand() -> u8
    ensures { RecordingsStand }
{
    0
}
