//! The listing for C: a static library over the crate of the listing.
#![tactic(auto)]

ghost use Rattle.std.specs.Prelude.{◌≡◌, ◌≤◌, length};
ghost use Rattle.evaluator.specs.Answers.{written};
ghost use Rattle.listing.specs.Listings.{count_written, listing_text};

/// The listing of a recording. Returns how many bytes it wrote, or 0 where the memory is too short: no listing is empty.
// A number and 0 for a refusal, for C, and a crate of its own, since a library exports nothing to C. The promises stand
// here again, since they are those of the name that C calls.
#[unsafe(no_mangle)]
pub extern "C" fn bands_listing(recording: &[u8], out: &mut [u8]) -> usize
    ensures answer { result ≡ count_written (listing_text recording.now) out.old }
    ensures bytes { out.new ≡ written (listing_text recording.now) out.old }
    ensures some { 1 ≤ length (listing_text recording.now) }
    ensures most { length (listing_text recording.now) ≤ 6747 }
{
    listing::bands_listing(recording, out)
}

#[cfg(test)]
mod tests {
    use super::*;

    #[test]
    fn counts_the_bytes_of_a_refusal(rt: HostRuntime) {
        let mut out = [9u8; 19];
        assert!(rt; bands_listing(&[0x20, 0, 0], &mut out) == 18);
        assert!(rt; &out == b"refused,2,bytes,0\n\x09");
    }
}
