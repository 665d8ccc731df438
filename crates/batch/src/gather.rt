// The reports of a book's first pieces, one after another.
ghost use Rattle.std.specs.Prelude.{◌≡◌, ◌≤◌, length, take};
ghost use Rattle.batch.specs.Book.{most_pieces, longest_batch, worked, reports_for};
ghost use Rattle.batch.specs.Exact.{BookExact};

use crate::pieces::cut;
use sheet::write_report;

// Works the first pieces of the text, at most as many as `limit` says, each once. Their reports stand at the front of `space`;
// answered are how many they are and how long.
pub(crate) fn gather(text: &[u8], limit: u32, space: &mut [u8]) -> (u32, usize)
    requires few { limit ≤ most_pieces }
    requires room { longest_batch ≤ length space.old }
    ensures count { result.0 ≡ length (worked text.now limit) }
    ensures length { result.1 ≡ length (reports_for text.now limit) }
    ensures content { take result.1 space.new ≡ reports_for text.now limit }
    ensures exact { BookExact text.now limit }
    ensures short { result.1 ≤ longest_batch }
    ensures room { result.1 ≤ length space.new }
{
    let mut count = 0;
    let mut at = 0;
    for piece in cut(text).take(limit as usize) {
        at += write_report(piece, &mut space[at..]);
        count += 1;
    }
    (count, at)
}
