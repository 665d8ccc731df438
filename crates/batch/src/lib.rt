// A book of sheets: its pieces, each answered as a sheet on its own, and their reports one after another or one summary of
// them.
#![tactic(auto)]

mod figures;
mod gather;
mod pieces;
mod tally;

ghost use Rattle.std.specs.Prelude.{◌≡◌, ◌≤◌, length};
ghost use Rattle.batch.specs.Book.{longest_batch, numbers_for, numbers_of, reports_for, book_space};
ghost use Rattle.batch.specs.Exact.{BookExact};
ghost use Rattle.batch.specs.Summary.{longest_summary, summary_for, summary_numbers_for, summary_numbers_of, summary_space};

use figures::spell;
use gather::gather;
pub use pieces::{Pieces, cut};

// The greatest limit, and the most pieces that a summary counts.
pub const MOST_PIECES: u32 = 64;

// The reports of so many pieces are never longer together.
pub const LONGEST: usize = MOST_PIECES as usize * report::LONGEST;

// No summary is longer: there is room for the lines of 27 numbers.
pub const LONGEST_SUMMARY: usize = 1024;

// What became of a book. Nothing is written but in the first case.
#[derive(Clone, Copy)]
pub enum Outcome {
    // So many pieces were worked, and their reports are written, so many bytes in all.
    Reports { count: u32, length: usize },
    // Cause 15: the space is shorter than the reports, whose length in all is the figure.
    ShortSpace { length: usize },
    // Cause 16: the limit is 0 or over 64.
    BadLimit,
}

impl Outcome {
    // Document 02's numbers: the cause, 0 if none, its figure, the count of the pieces worked, and the length written.
    pub fn numbers(self) -> [u64; 4]
        ensures { result ≡ numbers_of self }
    {
        match self {
            Outcome::Reports { count, length } => [0, 0, u64::from(count), length as u64],
            Outcome::ShortSpace { length } => [15, length as u64, 0, 0],
            Outcome::BadLimit => [16, 0, 0, 0],
        }
    }
}

// Answers the first pieces of the book in `text`, at most as many as `limit` says, and writes their reports to the front of
// `out`.
pub fn answer(text: &[u8], limit: u32, out: &mut [u8]) -> Outcome
    ensures numbers { numbers_of result ≡ numbers_for text.now limit out.old }
    ensures content { out.new ≡ book_space text.now limit out.old }
    ensures exact { BookExact text.now limit }
    ensures short { length (reports_for text.now limit) ≤ longest_batch }
{
    if limit == 0 || limit > MOST_PIECES {
        return Outcome::BadLimit;
    }
    // Gathered apart: only when the last is worked is it known whether all fit.
    let mut reports = [0u8; LONGEST];
    let (count, length) = gather(text, limit, &mut reports);
    if out.len() < length {
        return Outcome::ShortSpace { length };
    }
    out[..length].copy_from_slice(&reports[..length]);
    Outcome::Reports { count, length }
}

// Cause 15: the space is shorter than the summary, whose length is the figure. Nothing is written.
#[derive(Clone, Copy, Debug, PartialEq, Eq)]
pub struct ShortSpace {
    pub length: usize,
}

// Summarises the first 64 pieces of the book in `text`, or all if there are fewer, at the front of `out`: the length written.
pub fn summary(text: &[u8], out: &mut [u8]) -> Result<usize, ShortSpace>
    ensures numbers { summary_numbers_of result ≡ summary_numbers_for text.now out.old }
    ensures content { out.new ≡ summary_space text.now out.old }
    ensures short { length (summary_for text.now) ≤ longest_summary }
{
    let lines = spell(text);
    let length = lines.len();
    if length > out.len() {
        return Err(ShortSpace { length });
    }
    out[..length].copy_from_slice(&lines);
    Ok(length)
}
