// An answer's figures by place, for C, a support plate's too; of a plate the thickness alone. Places 0 and 1 of an accepted
// answer, its cause and figure, are 0.
ghost use Rattle.std.specs.Prelude.{◌≡◌, get_or};
ghost use Rattle.rules.specs.Answer.{in_numbers, Endplate, BlindFlange};
ghost use Rattle.rules.specs.BoltedAnswer.{bolted_in_numbers};
ghost use Rattle.supports.specs.SupportPlate.{numbers_of as support_numbers_of};
ghost use Rattle.capi.specs.Places.{figure_at, bolted_figure_at};

use plates::Plate;
use rules::{Answer, BlindFlangeFigures, BoltedSize, EndplateFigures, Refusal, Size};
use supports::SupportPlate;

// The figure at a place of a list; 0 past its end.
pub(crate) fn at(figures: &[u64], place: u32) -> u64
    ensures { result ≡ get_or figures.now place 0 }
{
    figures.get(place as usize).copied().unwrap_or(0)
}

// The plate's thickness is made a u64 by `as`, here and below: with `u64::from` no proof closes.
#[tactic(auto, unfolding(crate::specs::Places::figure_at))]
fn endplate_at(f: EndplateFigures, plate: Plate, place: u32) -> u64
    ensures { result ≡ figure_at (Endplate f plate) place }
{
    let nominal = plate.thickness as u64;
    let figures = [0, 0, f.design_stress, f.thickness, f.total, nominal];
    at(&figures, place)
}

#[tactic(auto, unfolding(crate::specs::Places::figure_at))]
fn blind_flange_at(f: BlindFlangeFigures, plate: Plate, place: u32) -> u64
    ensures { result ≡ figure_at (BlindFlange f plate) place }
{
    let nominal = plate.thickness as u64;
    let figures = [
        0,
        0,
        f.design_stress,
        f.ambient_stress,
        f.reaction_diameter,
        f.effective_width,
        f.operating_load,
        f.seating_load,
        f.flange_load,
        f.thickness,
        f.edge_thickness,
        f.total,
        nominal,
    ];
    at(&figures, place)
}

#[tactic(auto, unfolding(crate::specs::Places::figure_at))]
fn refused_at(refusal: Refusal, place: u32) -> u64
    ensures { result ≡ figure_at (in_numbers (Err refusal)) place }
{
    let figures = [u64::from(refusal.cause.number()), refusal.figure];
    at(&figures, place)
}

// The figure at a place: 0 the cause, 1 its figure, from 2 on those of the report; 0 at any other. Inlined: to hand the answer
// over takes 7 % of an endplate.
#[inline(always)]
pub(crate) fn figure_at(answer: Answer, place: u32) -> u64
    ensures { result ≡ figure_at (in_numbers answer) place }
{
    match answer {
        Ok(Size::Endplate { figures, plate }) => endplate_at(figures, plate, place),
        Ok(Size::BlindFlange { figures, plate }) => blind_flange_at(figures, plate, place),
        Err(refusal) => refused_at(refusal, place),
    }
}

// The place of the bolt, after those of a blind flange's report.
const BOLT: u32 = 13;

#[tactic(auto, unfolding(crate::specs::Places::figure_at, crate::specs::Places::bolted_figure_at))]
fn bolted_at(size: BoltedSize, place: u32) -> u64
    ensures { result ≡ bolted_figure_at (bolted_in_numbers (Ok size)) place }
{
    if place < BOLT {
        return blind_flange_at(size.figures, size.plate, place);
    }
    let bolts = size.bolts;
    let numbers = [bolts.bolt as u64, bolts.root as u64, bolts.count as u64];
    at(&numbers, place - BOLT)
}

// The figure at a place of a blind flange whose bolts are chosen.
pub(crate) fn bolted_figure_at(answer: Result<BoltedSize, Refusal>, place: u32) -> u64
    ensures { result ≡ bolted_figure_at (bolted_in_numbers answer) place }
{
    match answer {
        Ok(size) => bolted_at(size, place),
        Err(refusal) => refused_at(refusal, place),
    }
}

// The figure at a place of a support plate; a refusal has only its cause.
pub(crate) fn support_at(answer: Result<SupportPlate, supports::Cause>, place: u32) -> u64
    ensures { result ≡ get_or (support_numbers_of answer) place 0 }
{
    match answer {
        Ok(found) => {
            let numbers = [
                0,
                0,
                u64::from(found.longest_span),
                u64::from(found.thickness),
            ];
            at(&numbers, place)
        }
        Err(cause) => at(&[u64::from(cause.number())], place),
    }
}
