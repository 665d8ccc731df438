// The lines of a sheet after the first, from their bytes to numbers and plates.
#![tactic(auto)]

pub mod blind_flange;
pub mod endplate;
mod field;

ghost use Rattle.std.specs.Prelude.{◌≡◌, map};
ghost use Rattle.text.specs.Plates.{plates_read};
ghost use Rattle.lines.specs.Fields.{field_meant};
ghost use Rattle.lines.specs.Lines.{plates_line, lines_of, lines_read};

pub use field::Field;
use text::{Plates, line_value, next_line, read_plates};

// The numbers of the fields, in order, and the plates.
#[derive(Clone, Copy)]
pub struct SheetLines<const N: usize> {
    pub values: [u32; N],
    pub plates: Plates,
}

// The number of the first line that is absent, has a wrong key or value text or no LF, or follows the last.
#[derive(Clone, Copy, Debug, PartialEq, Eq)]
pub struct Malformed {
    pub line: usize,
}

// The plates that the line which t begins with lists.
#[tactic(auto, unfolding(crate::specs::Lines::plates_line))]
fn plates_line(t: &[u8]) -> Option<Plates>
    ensures { plates_read result ≡ plates_line t.now }
{
    read_plates(line_value(t, b"plates")?)
}

// The lines of a sheet with these fields, from the second on.
#[tactic(auto, using(crate::proofs::LineByLine::line_fault, crate::proofs::LineByLine::lines_last))]
pub fn read_lines<const N: usize>(
    text: &[u8],
    fields: &[Field; N],
) -> Result<SheetLines<N>, Malformed>
    ensures { lines_read result ≡ lines_of 2 (map field_meant fields.now) text.now }
{
    let mut values = [0; N];
    let mut t = text;
    for (i, field) in fields.iter().enumerate() {
        // By index: what `iter_mut` leaves in an array is not told.
        values[i] = field.read(t).ok_or(Malformed { line: i + 2 })?;
        t = next_line(t);
    }
    let plates = plates_line(t).ok_or(Malformed { line: N + 2 })?;
    if !next_line(t).is_empty() {
        return Err(Malformed { line: N + 3 });
    }
    Ok(SheetLines { values, plates })
}
