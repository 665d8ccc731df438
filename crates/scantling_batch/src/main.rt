// Reads a book of sheets on standard input and prints their reports. A book of more than 64 sheets or 262,144 bytes gets none:
// a line on standard error says what is too long, and the status is 1, as after a write that fails.
#![tactic(auto)]

ghost use Rattle.std.specs.Prelude.{◌≡◌, ◌≤◌, flat_map, length, ltb, take};
ghost use Rattle.batch.specs.Book.{longest_batch, most_pieces};
ghost use Rattle.batch.specs.Pieces.{pieces_of};
ghost use Rattle.sheet.specs.Outcome.{report_for};

use batch::{LONGEST, MOST_PIECES, Outcome, cut};
use std::process::ExitCode;

// 64 sheets of the 4,096 bytes that `scantling` reads.
const MOST_BYTES: usize = 262_144;

// Whether the book has more sheets than are worked.
fn has_too_many_sheets(book: &[u8]) -> bool
    ensures { result ≡ ltb most_pieces (length (pieces_of book.now)) }
{
    cut(book).nth(MOST_PIECES as usize).is_some()
}

// Writes the reports of all sheets of the book to the front of `out`, and answers their length.
#[tactic(auto, using(crate::proofs::AllWorked::numbers, crate::proofs::AllWorked::front))]
fn reports_of(book: &[u8], out: &mut [u8]) -> usize
    requires few { length (pieces_of book.now) ≤ most_pieces }
    requires room { longest_batch ≤ length out.old }
    ensures out_after { take result out.new ≡ flat_map report_for (pieces_of book.now) }
    ensures short { result ≤ longest_batch }
{
    match batch::answer(book, MOST_PIECES, out) {
        Outcome::Reports { length, .. } => length,
        // Neither comes, with this limit and this space.
        Outcome::ShortSpace { .. } | Outcome::BadLimit => 0,
    }
}

// Says what is too long.
fn refuse(line: &[u8]) -> ExitCode {
    io::write_all(2, line);
    ExitCode::FAILURE
}

// Reads and writes by the kit's `io`, as `scantling` does.
fn main() -> ExitCode {
    // One byte more than the most, so that a longer book is seen.
    let mut input = [0u8; MOST_BYTES + 1];
    let size = io::read_full(0, &mut input);
    if size > MOST_BYTES {
        return refuse(
            b"scantling_batch: the book is longer than 262144 bytes; no sheet was worked\n",
        );
    }
    let book = &input[..size];
    if has_too_many_sheets(book) {
        return refuse(b"scantling_batch: the book has more than 64 sheets; no sheet was worked\n");
    }
    let mut space = [0u8; LONGEST];
    let length = reports_of(book, &mut space);
    if io::write_all(1, &space[..length]) {
        ExitCode::SUCCESS
    } else {
        ExitCode::FAILURE
    }
}
