// The text of a report: its lines, one after another; and a line for other texts.
ghost use Rattle.std.specs.Prelude.{◌≡◌, ◌+◌, ◌≤◌, ◌++◌, cond, leb, length};
ghost use Rattle.arrayvec.specs.ArrayVec.{array_vec_len};
ghost use Rattle.rules.specs.Answer.{in_numbers};
ghost use Rattle.report.specs.Decimal.{number_line};
ghost use Rattle.report.specs.Report.{report_text, row_lines, rows_room, line_room, longest};

use crate::LONGEST;
use arrayvec::ArrayVec;
use itoa::Buffer;
use rules::{Answer, Size};

pub type Text = ArrayVec<u8, LONGEST>;

// Adds the bytes, which have room, one by one: with the kit's `try_extend_from_slice` the archive for C would need memmove, which
// nothing else in it does.
fn put<const N: usize>(text: &mut ArrayVec<u8, N>, bytes: &[u8])
    requires { array_vec_len text.old + length bytes.now ≤ N }
    ensures { text.new.items ≡ text.old.items ++ bytes.now }
{
    for &byte in bytes {
        text.push(byte);
    }
}

// Key, `=`, number, LF. The line has room.
fn put_line<const N: usize>(text: &mut ArrayVec<u8, N>, key: &[u8], n: u64)
    requires { array_vec_len text.old + line_room key.now ≤ N }
    ensures line { text.new.items ≡ text.old.items ++ number_line key.now n }
    ensures short { array_vec_len text.new ≤ array_vec_len text.old + line_room key.now }
{
    let mut buffer = Buffer::new();
    let digits = buffer.format(n);
    put(text, key);
    text.push(b'=');
    put(text, digits.as_bytes());
    text.push(b'\n');
}

// The same for texts that are not reports: a line is added if it has room whatever its number, and else the text stays as it
// was. Answers whether it was added.
pub fn add_line<const N: usize>(text: &mut ArrayVec<u8, N>, key: &[u8], n: u64) -> bool
    ensures fits { result ≡ leb (array_vec_len text.old + line_room key.now) N }
    ensures line { text.new.items ≡ cond result (text.old.items ++ number_line key.now n) text.old.items }
    ensures short { array_vec_len text.new ≤ array_vec_len text.old + line_room key.now }
{
    // Key, `=`, at most 20 digits, LF.
    let fits = key.len() + 22 <= text.remaining_capacity();
    if fits {
        put_line(text, key, n);
    }
    fits
}

// A line for each key and the number beside it.
fn text_of(rows: &[(&[u8], u64)]) -> Text
    requires { rows_room rows.now ≤ longest }
    ensures { result.items ≡ row_lines rows.now }
{
    let mut text = ArrayVec::new();
    for &(key, n) in rows {
        put_line(&mut text, key, n);
    }
    text
}

// What a report tells.
pub trait Told: Copy {
    ghost use Rattle.rules.specs.Answer.{Answer};

    ghost told: { Self → Answer };

    // The report's text.
    fn text(self) -> Text
        ensures { result.items ≡ report_text (told self) };
}

impl Told for Answer {
    ghost told = { in_numbers };

    fn text(self) -> Text {
        match self {
            Ok(Size::Endplate { figures, plate }) => text_of(&[
                (b"stress", figures.design_stress),
                (b"need", figures.thickness),
                (b"total", figures.total),
                (b"plate", u64::from(plate.thickness)),
            ]),
            Ok(Size::BlindFlange { figures: f, plate }) => text_of(&[
                (b"stress", f.design_stress),
                (b"cold", f.ambient_stress),
                (b"g", f.reaction_diameter),
                (b"b", f.effective_width),
                (b"wm1", f.operating_load),
                (b"wm2", f.seating_load),
                (b"w", f.flange_load),
                (b"need", f.thickness),
                (b"edge", f.edge_thickness),
                (b"total", f.total),
                (b"plate", u64::from(plate.thickness)),
            ]),
            Err(refusal) => Refused {
                cause: refusal.cause.number(),
                figure: refusal.figure,
            }
            .text(),
        }
    }
}

// A refusal by its two numbers, of any cause: not of those in `rules::Cause` alone.
#[derive(Clone, Copy, Debug, PartialEq, Eq)]
pub struct Refused {
    pub cause: u32,
    pub figure: u64,
}

impl Told for Refused {
    ghost use Rattle.rules.specs.Answer.{Refused as refused_by};

    ghost told = { λ r. refused_by r.cause r.figure };

    fn text(self) -> Text {
        let mut text = ArrayVec::new();
        put_line(&mut text, b"refused", u64::from(self.cause));
        put_line(&mut text, b"place", self.figure);
        text
    }
}
