// A book's first pieces worked, and what the summary asks of each: the excess of an accepted one, the cause of a refused one.
ghost use Rattle.std.specs.Prelude.{◌≡◌, ◌-◌, ◌≤◌, ℕ, length};
ghost use Rattle.batch.specs.Lines.{times_met};
ghost use Rattle.batch.specs.Summary.{accepted, answers_for, excesses, refused, refused_under};

use crate::MOST_PIECES;
use crate::pieces::cut;
use arrayvec::ArrayVec;
use rules::Size;
use sheet::answer_to;

const MOST: usize = MOST_PIECES as usize;

#[derive(Drop)]
pub(crate) struct Tally {
    pub pieces: usize,
    // Plate minus total of each accepted piece: hundredths of a mm.
    pub excesses: ArrayVec<u32, MOST>,
    // The number of each refused piece's cause.
    pub causes: ArrayVec<u32, MOST>,
}

// Plate minus total. No plate that was chosen is below its total.
fn excess(thickness: u32, total: u64) -> u32
    requires { total ≤ thickness }
    ensures { result ≡ thickness - total }
{
    (u64::from(thickness) - total) as u32
}

pub(crate) fn tallied(text: &[u8]) -> Tally
    ensures pieces { result.pieces ≡ length (answers_for text.now) }
    ensures excesses { result.excesses.items ≡ excesses (answers_for text.now) }
    ensures accepted { length result.excesses.items ≡ accepted (answers_for text.now) }
    ensures refused { length result.causes.items ≡ refused (answers_for text.now) }
    ensures causes { (n : ℕ) → times_met result.causes.items n ≡ refused_under (answers_for text.now) n }
{
    let mut tally = Tally {
        pieces: 0,
        excesses: ArrayVec::new(),
        causes: ArrayVec::new(),
    };
    for piece in cut(text).take(MOST) {
        tally.pieces += 1;
        match answer_to(piece) {
            Ok(Size::Endplate { figures, plate }) => {
                tally.excesses.push(excess(plate.thickness, figures.total));
            }
            Ok(Size::BlindFlange { figures, plate }) => {
                tally.excesses.push(excess(plate.thickness, figures.total));
            }
            Err(refusal) => tally.causes.push(refusal.cause.number()),
        }
    }
    tally
}
