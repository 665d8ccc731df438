// The figures of a summary, and its lines.
ghost use Rattle.std.specs.Prelude.{◌≡◌, ◌+◌, ◌≤◌, ◌++◌, length, max, min};
ghost use Rattle.std.specs.List.{reduce, sum as sum_of};
ghost use Rattle.arrayvec.specs.ArrayVec.{array_vec_len};
ghost use Rattle.report.specs.Report.{line_room};
ghost use Rattle.batch.specs.Book.{most_pieces};
ghost use Rattle.batch.specs.Lines.{met_lines, met_room, times_met};
ghost use Rattle.batch.specs.Summary.{line_of_some, longest_summary, summary_for};

use crate::LONGEST_SUMMARY;
use crate::tally::tallied;
use arrayvec::ArrayVec;
use report::add_line;

// The numbers that a sheet can meet, in rising order, and the key of each one's line.
const REFUSED: &[(u32, &[u8])] = &[
    (1, b"refused1"),
    (2, b"refused2"),
    (3, b"refused3"),
    (4, b"refused4"),
    (5, b"refused5"),
    (6, b"refused6"),
    (7, b"refused7"),
    (8, b"refused8"),
    (9, b"refused9"),
    (10, b"refused10"),
    (11, b"refused11"),
    (12, b"refused12"),
    (13, b"refused13"),
    (14, b"refused14"),
    (17, b"refused17"),
];

type Lines = ArrayVec<u8, LONGEST_SUMMARY>;

// How often the number is among the causes.
fn times_met(causes: &[u32], number: u32) -> usize
    ensures { result ≡ times_met causes.now number }
{
    causes.iter().filter(|cause| **cause == number).count()
}

fn sum(excesses: &[u32]) -> u64
    requires { length excesses.now ≤ most_pieces }
    ensures { result ≡ sum_of excesses.now }
{
    excesses.iter().map(|excess| u64::from(*excess)).sum()
}

fn least(excesses: &[u32]) -> Option<u32>
    ensures { result ≡ reduce min excesses.now }
{
    excesses.iter().copied().min()
}

fn greatest(excesses: &[u32]) -> Option<u32>
    ensures { result ≡ reduce max excesses.now }
{
    excesses.iter().copied().max()
}

// A line for each row: its key, and how often its number is met.
fn add_met(lines: &mut Lines, rows: &[(u32, &[u8])], causes: &[u32])
    requires { array_vec_len lines.old + met_room rows.now ≤ longest_summary }
    ensures line { lines.new.items ≡ lines.old.items ++ met_lines causes.now rows.now }
    ensures short { array_vec_len lines.new ≤ array_vec_len lines.old + met_room rows.now }
{
    for &(number, key) in rows {
        add_line(lines, key, times_met(causes, number) as u64);
    }
}

// A line, if there is a number.
fn add_some(lines: &mut Lines, key: &[u8], n: Option<u32>)
    requires { array_vec_len lines.old + line_room key.now ≤ longest_summary }
    ensures line { lines.new.items ≡ lines.old.items ++ line_of_some key.now n }
    ensures short { array_vec_len lines.new ≤ array_vec_len lines.old + line_room key.now }
{
    if let Some(n) = n {
        add_line(lines, key, u64::from(n));
    }
}

// The summary of the book in `text`. Each line has room.
pub(crate) fn spell(text: &[u8]) -> Lines
    ensures { result.items ≡ summary_for text.now }
{
    let tally = tallied(text);
    let mut lines = ArrayVec::new();
    add_line(&mut lines, b"pieces", tally.pieces as u64);
    add_line(&mut lines, b"accepted", tally.excesses.len() as u64);
    add_line(&mut lines, b"refused", tally.causes.len() as u64);
    add_met(&mut lines, REFUSED, &tally.causes);
    add_line(&mut lines, b"sum", sum(&tally.excesses));
    add_some(&mut lines, b"least", least(&tally.excesses));
    add_some(&mut lines, b"greatest", greatest(&tally.excesses));
    lines
}
