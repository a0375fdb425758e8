//! The table of the listing: the header, and a line for each row.
ghost use Rattle.std.specs.Prelude.{◌≡◌, ◌≤◌, length};
ghost use Rattle.listing.specs.Listings.{lines};
ghost use Rattle.output.specs.Outputs.{HasRoom, Writes};

use crate::text::{Row, Text};
use output::Output;

const HEADER: &[u8] = b"frames,lru,min,dpmin,pulls\n";

/// The table of some rows, at most 64.
#[derive(Clone, Copy)]
pub struct Table<'r> {
    pub rows: &'r [Row],
    ghost few: { length rows.now ≤ 64 },
}

/// How many bytes the lines of a table's rows take.
fn lines_len(table: &Table) -> usize
    ensures value { result ≡ length (lines table.now.rows.now) }
    ensures bound { result ≤ 6720 }
{
    table.rows.iter().map(|row| row.text_len()).sum()
}

/// Writes the lines of the rows.
fn put_lines(output: &mut Output<u8>, rows: &[Row])
    requires { HasRoom output.old (length (lines rows.now)) }
    ensures { Writes output.old (lines rows.now) output.new }
{
    for row in rows {
        row.put(output);
    }
}

impl Text for Table<'_> {
    ghost use Rattle.listing.specs.Listings.{table_text};

    ghost text = { λ table. table_text table.rows.now };

    ghost longest = { 6747 };

    fn text_len(&self) -> usize {
        HEADER.len() + lines_len(self)
    }

    fn put(&self, output: &mut Output<u8>) {
        output.extend_from_slice(HEADER);
        put_lines(output, self.rows);
    }
}
