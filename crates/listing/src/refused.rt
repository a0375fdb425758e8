//! The line of a refused load.
ghost use Rattle.std.specs.Prelude.{◌≡◌, ◌≤◌, length};
ghost use Rattle.listing.specs.Listings.{fault_text, layer_text};

use crate::text::{Text, field_len, put_field};
use output::Output;
use recording::fault::{Layer, LoadFault};

const WORD: &[u8] = b"refused,";

/// A layer's name, and a comma.
fn layer_word(layer: Layer) -> &'static [u8]
    ensures word { result.now ≡ layer_text layer }
    ensures bound { length result.now ≤ 6 }
{
    match layer {
        Layer::Bytes => b"bytes,",
        Layer::Names => b"names,",
    }
}

impl Text for LoadFault {
    ghost text = { fault_text };

    ghost longest = { 56 };

    fn text_len(&self) -> usize {
        WORD.len()
            + field_len(usize::from(self.refusal.number()))
            + layer_word(self.layer).len()
            + field_len(self.place)
    }

    fn put(&self, output: &mut Output<u8>) {
        output.extend_from_slice(WORD);
        put_field(output, usize::from(self.refusal.number()), b',');
        output.extend_from_slice(layer_word(self.layer));
        put_field(output, self.place, b'\n');
    }
}
