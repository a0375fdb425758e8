//! The listing: the faults of the policies at each frame count, as text.
#![tactic(auto)]

ghost use Rattle.std.specs.Prelude.{◌≡◌, ◌≤◌, length};
ghost use Rattle.evaluator.specs.Answers.{write_answer, written};
ghost use Rattle.listing.specs.Listings.{count_written, listing_text};

use crate::figures::put_figures;
use crate::loading::load_own;
use crate::text::put_text;
use evaluator::Trial;
use paging::refusal::Refusal;

mod figures;
mod loading;
mod refused;
mod table;
#[cfg(test)]
mod tests;
mod text;

/// Writes the listing of a recording, or the line of its refusal. Returns how many bytes it wrote.
///
/// It is refused if the memory is too short, and then nothing is written. No listing is empty, and none has more than
/// 6,747 bytes.
pub fn listing(recording: &[u8], out: &mut [u8]) -> Result<usize, Refusal>
    ensures answer { result ≡ write_answer (length (listing_text recording.now)) out.old }
    ensures bytes { out.new ≡ written (listing_text recording.now) out.old }
    ensures some { 1 ≤ length (listing_text recording.now) }
    ensures most { length (listing_text recording.now) ≤ 6747 }
{
    let mut trial = Trial::new();
    match load_own(&mut trial, recording) {
        Ok(_) => put_figures(out, &trial),
        Err(fault) => put_text(out, &fault),
    }
}

/// The listing of a recording, as it is exported to C. Returns how many bytes it wrote, or 0 where the memory is too short:
/// no listing is empty.
// A number and 0 for a refusal, for C.
pub fn bands_listing(recording: &[u8], out: &mut [u8]) -> usize
    ensures answer { result ≡ count_written (listing_text recording.now) out.old }
    ensures bytes { out.new ≡ written (listing_text recording.now) out.old }
    ensures some { 1 ≤ length (listing_text recording.now) }
    ensures most { length (listing_text recording.now) ≤ 6747 }
{
    listing(recording, out).unwrap_or(0)
}
