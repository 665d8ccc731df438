// Reads a book of sheets on standard input and prints its summary. Of more than 64 sheets the first 64 are counted, and a line
// on standard error says so. A book of more than 262,144 bytes gets no summary: a line on standard error says why, and the
// status is 1, as after a write that fails.
#![tactic(auto)]

ghost use Rattle.std.specs.Prelude.{◌≡◌, ◌≤◌, length, ltb, take};
ghost use Rattle.batch.specs.Book.{most_pieces};
ghost use Rattle.batch.specs.Pieces.{pieces_of};
ghost use Rattle.batch.specs.Summary.{longest_summary, summary_for};

use batch::{LONGEST_SUMMARY, MOST_PIECES, cut};
use std::process::ExitCode;

// 64 sheets of the 4,096 bytes that `scantling` reads.
const MOST_BYTES: usize = 262_144;

const TOO_LONG: &[u8] =
    b"scantling_summary: the book is longer than 262144 bytes; nothing was counted\n";

const SHEETS_LEFT: &[u8] =
    b"scantling_summary: the book has more than 64 sheets; the first 64 are counted\n";

// Whether the book has more sheets than are counted.
fn has_sheets_left(book: &[u8]) -> bool
    ensures { result ≡ ltb most_pieces (length (pieces_of book.now)) }
{
    cut(book).nth(MOST_PIECES as usize).is_some()
}

// Writes the book's summary to the front of `out`, and answers its length.
#[tactic(auto, using(crate::proofs::SummaryStands::numbers, crate::proofs::SummaryStands::front))]
fn summary_of(book: &[u8], out: &mut [u8]) -> usize
    requires { longest_summary ≤ length out.old }
    ensures out_after { take result out.new ≡ summary_for book.now }
    ensures short { result ≤ longest_summary }
{
    // No summary is longer than the space.
    batch::summary(book, out).unwrap_or(0)
}

// Reads and writes by the kit's `io`, as `scantling` does.
fn main() -> ExitCode {
    // One byte more than the most, so that a longer book is seen.
    let mut input = [0u8; MOST_BYTES + 1];
    let size = io::read_full(0, &mut input);
    if size > MOST_BYTES {
        io::write_all(2, TOO_LONG);
        return ExitCode::FAILURE;
    }
    let book = &input[..size];
    let mut space = [0u8; LONGEST_SUMMARY];
    let length = summary_of(book, &mut space);
    if !io::write_all(1, &space[..length]) {
        return ExitCode::FAILURE;
    }
    if has_sheets_left(book) {
        io::write_all(2, SHEETS_LEFT);
    }
    ExitCode::SUCCESS
}
