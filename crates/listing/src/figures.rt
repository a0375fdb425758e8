//! The rows of the listing: what the policies make of a trial's string.
ghost use Rattle.std.specs.Prelude.{◌≡◌, ◌≤◌, length, Ok, IsOk};
ghost use Rattle.evaluator.specs.Answers.{write_answer, written};
ghost use Rattle.evaluator.specs.Strings.{string};
ghost use Rattle.listing.specs.Listings.{figures_text, row_count, rows_of};
ghost use Rattle.ranking.specs.Stack.{pass_row};

use crate::table::Table;
use crate::text::{Row, put_text};
use evaluator::Trial;
use paging::refusal::Refusal;
use ranking::Ranking;
use ranking::last_reference::LastReference;
use ranking::next_reference::NextReference;

/// The faults of a ranking's own runs of the string at the frame counts 1 to 64.
fn faults<R: Ranking>(trial: &Trial, ranking: &mut R) -> Result<[u32; 64], Refusal>
    ensures { result ≡ Ok (pass_row (R.order ranking.old) (string trial.now)) }
{
    let mut row = [0; 64];
    trial.pass(ranking, &mut row)?;
    Ok(row)
}

/// How many rows the listing of a trial's string has.
fn row_count(trial: &Trial) -> usize
    ensures { result ≡ row_count (string trial.now) }
{
    trial.page_count().clamp(1, 64) as usize
}

/// Fills the rows with the figures at the frame counts from 1 on.
fn fill_rows(trial: &Trial, rows: &mut [Row]) -> Result<(), Refusal>
    requires { length rows.old ≤ 64 }
    ensures filled { IsOk result }
    ensures rows { rows.new ≡ rows_of (string trial.now) (length rows.old) }
{
    let lru = faults(trial, &mut LastReference::new())?;
    let min = faults(trial, &mut NextReference::new())?;
    // The passes by index: tried with `zip`, after which a proof knows nothing of the rows that were written.
    for (k, row) in rows.iter_mut().enumerate() {
        let frames = k as u32 + 1;
        let (dpmin, pulls) = trial.figures('D', frames)?;
        *row = Row {
            frames,
            lru: lru[k],
            min: min[k],
            dpmin,
            pulls,
        };
    }
    Ok(())
}

/// Writes the table of a trial's string, if it fits. Returns how many bytes it is.
pub fn put_figures(out: &mut [u8], trial: &Trial) -> Result<usize, Refusal>
    ensures answer { result ≡ write_answer (length (figures_text (string trial.now))) out.old }
    ensures bytes { out.new ≡ written (figures_text (string trial.now)) out.old }
    ensures most { length (figures_text (string trial.now)) ≤ 6747 }
{
    // Nothing here is allocated: the rows stand in a table of as many as a listing can have.
    let mut table = [Row::default(); 64];
    let rows = &mut table[..row_count(trial)];
    fill_rows(trial, rows)?;
    put_text(out, &Table { rows })
}
