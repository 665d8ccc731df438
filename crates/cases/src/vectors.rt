// Vectors, a line each. A line is written again with its answer; its first number is its kind, and a kind's function is
// given the numbers after that. Numbers that do not suit the kind have no answer.
ghost use Rattle.std.specs.Prelude.{◌≤◌, length};

use crate::arithmetic::{design_stress, quotient, root, root_over};
use crate::blind_flange::{blind_flange, blind_flange_standard};
use crate::bolts::blind_flange_bolts;
use crate::books::{book, summary};
use crate::choice::smallest_serving;
use crate::endplate::{endplate, endplate_standard};
use crate::line::{LONGEST_LINE, read_numbers, text_after};
use crate::output::Output;
use crate::sheets::sheet;
use crate::signs::text_in;
use crate::support_plates::support_plate;
use arrayvec::ArrayVec;
use std::fmt::{self, Write};

const STDIN: i32 = 0;

#[derive(Clone, Copy)]
enum Kind {
    Endplate,
    BlindFlange,
    Sheet,
    DesignStress,
    Quotient,
    Root,
    RootOver,
    EndplateStandard,
    BlindFlangeStandard,
    SmallestServing,
    Book,
    Summary,
    BlindFlangeBolts,
    SupportPlate,
}

// A number that names no kind.
#[derive(Clone, Copy, Debug)]
struct NoSuchKind;

impl fmt::Display for NoSuchKind {
    fn fmt<W: fmt::Write>(&self, f: &mut fmt::Formatter<W>) -> fmt::Result {
        write!(f, "no such kind")
    }
}

impl TryFrom<u64> for Kind {
    type Error = NoSuchKind;

    fn try_from(number: u64) -> Result<Kind, NoSuchKind> {
        match number {
            1 => Ok(Kind::Endplate),
            2 => Ok(Kind::BlindFlange),
            3 => Ok(Kind::Sheet),
            4 => Ok(Kind::DesignStress),
            5 => Ok(Kind::Quotient),
            6 => Ok(Kind::Root),
            7 => Ok(Kind::RootOver),
            8 => Ok(Kind::EndplateStandard),
            9 => Ok(Kind::BlindFlangeStandard),
            10 => Ok(Kind::SmallestServing),
            11 => Ok(Kind::Book),
            12 => Ok(Kind::Summary),
            13 => Ok(Kind::BlindFlangeBolts),
            14 => Ok(Kind::SupportPlate),
            _ => Err(NoSuchKind),
        }
    }
}

impl Kind {
    // A text in signs is stored in `room`.
    fn answer(
        self,
        out: &mut Output,
        numbers: &[u64],
        line: &[u8],
        room: &mut [u8],
    ) -> fmt::Result {
        match self {
            Kind::Endplate => endplate(out, numbers),
            Kind::BlindFlange => blind_flange(out, numbers),
            Kind::Sheet => sheet(out, numbers, text_in(text_after(line, 1), room)),
            Kind::DesignStress => design_stress(out, numbers),
            Kind::Quotient => quotient(out, numbers),
            Kind::Root => root(out, numbers),
            Kind::RootOver => root_over(out, numbers),
            Kind::EndplateStandard => endplate_standard(out, numbers),
            Kind::BlindFlangeStandard => blind_flange_standard(out, numbers),
            Kind::SmallestServing => smallest_serving(out, numbers),
            Kind::Book => book(out, numbers, text_in(text_after(line, 2), room)),
            Kind::Summary => summary(out, numbers, text_in(text_after(line, 1), room)),
            Kind::BlindFlangeBolts => blind_flange_bolts(out, numbers),
            Kind::SupportPlate => support_plate(out, numbers),
        }
    }
}

fn work(out: &mut Output, line: &[u8], room: &mut [u8]) -> fmt::Result {
    let mut numbers = ArrayVec::new();
    read_numbers(line, &mut numbers);
    out.write_bytes(line);
    match numbers.as_slice() {
        [] => {}
        _ if numbers.is_full() => write!(out, " too many numbers")?,
        [kind, numbers @ ..] => match Kind::try_from(*kind) {
            Ok(kind) => kind.answer(out, numbers, line, room)?,
            Err(unknown) => write!(out, " {unknown}")?,
        },
    }
    write!(out, "\n")
}

// The length of the lines that have ended.
fn ended(piece: &[u8]) -> usize
    ensures { result ≤ length piece.now }
{
    piece
        .iter()
        .rposition(|b| *b == b'\n')
        .map_or(0, |last| last + 1)
}

fn work_lines(out: &mut Output, lines: &[u8], room: &mut [u8]) {
    for line in lines.split_inclusive(|b| *b == b'\n') {
        let _ = work(out, line.strip_suffix(b"\n").unwrap_or(line), room);
    }
}

// Reads piece by piece. A line that has not ended goes to the front of the next piece; one that the input ends has no answer.
pub(crate) fn run() {
    let mut out = Output::new();
    let mut piece = [0; LONGEST_LINE];
    let mut room = [0; LONGEST_LINE];
    let mut kept = 0;
    // More pieces than any input has: a `loop` has to have a measure.
    for _ in 0..u64::MAX {
        let filled = kept + io::read_full(STDIN, &mut piece[kept..]);
        if filled == kept {
            break;
        }
        let end = ended(&piece[..filled]);
        work_lines(&mut out, &piece[..end], &mut room);
        out.flush();
        piece.copy_within(end..filled, 0);
        kept = filled - end;
    }
}
