// Sizing of flat endplates and blind flanges to BS 853-2:1996, clauses 5 and 8, on whole numbers.
#![tactic(auto)]

ghost use Rattle.std.specs.Prelude.{◌≡◌};
ghost use mathlib.Core.List.{map};
ghost use Rattle.rules.specs.Answer.{endplate_answer, blind_flange_answer, in_numbers};
ghost use Rattle.rules.specs.Answer.{cause_of, figure_of, report_of};
ghost use Rattle.rules.specs.BoltedAnswer.{bolted_answer, bolted_in_numbers, bolts_list, BoltedExact};
ghost use Rattle.rules.specs.BoltedAnswer.{bolted_cause, bolted_figure, bolted_report, bolted_bolts};
ghost use Rattle.rules.specs.Exact.{EndplateExact, BlindFlangeExact};
ghost use Rattle.rules.specs.Numbers.{endplate_cause, endplate_figure, endplate_report};
ghost use Rattle.rules.specs.Numbers.{blind_flange_cause, blind_flange_figure, blind_flange_report};

pub use limits::{BlindFlangeSheet, Cause, EndplateSheet, FlangeBolts, UnboltedSheet};

mod bolt_choice;
mod bolts;
mod figures;
mod gasket;
mod loads;
mod sizing;
mod thickness;

use bolt_choice::bolts_taken;
use gasket::gasket_of;
use limits::UNCHOSEN;
use plates::{Entry, Number, Plate};
use sizing::{blind_flange_sizing, chosen, endplate_sizing, sizing_on_gasket};

// The figures of an endplate's report but for the plate.
#[derive(Clone, Copy)]
pub struct EndplateFigures {
    // stress, F: N/mm².
    pub design_stress: u64,
    // need, T: hundredths of a mm.
    pub thickness: u64,
    // total: hundredths of a mm.
    pub total: u64,
}

// The figures of a blind flange's report but for the plate.
#[derive(Clone, Copy)]
pub struct BlindFlangeFigures {
    // stress, S: N/mm².
    pub design_stress: u64,
    // cold, S0: N/mm².
    pub ambient_stress: u64,
    // g, G: tenths of a mm.
    pub reaction_diameter: u64,
    // b: hundredths of a mm.
    pub effective_width: u64,
    // wm1: tenths of a newton.
    pub operating_load: u64,
    // wm2: tenths of a newton.
    pub seating_load: u64,
    // w: tenths of a newton.
    pub flange_load: u64,
    // need, e: hundredths of a mm.
    pub thickness: u64,
    // edge: hundredths of a mm.
    pub edge_thickness: u64,
    // total: hundredths of a mm.
    pub total: u64,
}

// A part sized: the figures of its report, and the plate chosen, with its minus. Side by side, since a list is made of the
// figures and the plate's thickness comes last.
#[derive(Clone, Copy)]
pub enum Size {
    Endplate {
        figures: EndplateFigures,
        plate: Plate,
    },
    BlindFlange {
        figures: BlindFlangeFigures,
        plate: Plate,
    },
}

// A blind flange sized, with the bolts that were chosen for it.
#[derive(Clone, Copy)]
pub struct BoltedSize {
    pub figures: BlindFlangeFigures,
    pub plate: Plate,
    pub bolts: FlangeBolts,
}

// The first cause to refuse a part, and the figure returned with it: the line of 1, the total of 14, else 0. Document 01
// gives every refusal these two numbers.
#[derive(Clone, Copy, Debug, PartialEq, Eq)]
pub struct Refusal {
    pub cause: Cause,
    pub figure: u64,
}

impl From<Cause> for Refusal {
    ghost from_gives = { λ cause r. r ≡ record { cause = cause; figure = 0 } };

    fn from(cause: Cause) -> Refusal {
        Refusal { cause, figure: 0 }
    }
}

// What a calculation answers.
pub type Answer = Result<Size, Refusal>;

// The size of an endplate from a list of plates, or the first cause to refuse it. A call for each part, not one over a
// trait: each promises numbers and inequalities of its own.
pub fn endplate<E: Entry>(s: EndplateSheet, plates: &[E]) -> Answer
    ensures value { in_numbers result ≡ endplate_answer s (map E.plate_of plates.now) }
    ensures numbers { let ps = map E.plate_of plates.now in
        let answer = in_numbers result in
        (cause_of answer ≡ endplate_cause s ps)
        × (figure_of answer ≡ endplate_figure s ps)
        × (report_of answer ≡ endplate_report s ps) }
    ensures exact { EndplateExact s (in_numbers result) }
{
    let figures = endplate_sizing(s)?;
    let plate = chosen(figures.total, plates)?;
    Ok(Size::Endplate { figures, plate })
}

// The size of a blind flange from a list of plates, or the first cause to refuse it.
pub fn blind_flange<E: Entry>(s: BlindFlangeSheet, plates: &[E]) -> Answer
    ensures value { in_numbers result ≡ blind_flange_answer s (map E.plate_of plates.now) }
    ensures numbers { let ps = map E.plate_of plates.now in
        let answer = in_numbers result in
        (cause_of answer ≡ blind_flange_cause s ps)
        × (figure_of answer ≡ blind_flange_figure s ps)
        × (report_of answer ≡ blind_flange_report s ps) }
    ensures exact { BlindFlangeExact s (in_numbers result) }
{
    let figures = blind_flange_sizing(s)?;
    let plate = chosen(figures.total, plates)?;
    Ok(Size::BlindFlange { figures, plate })
}

// The size of a blind flange with bolts from a list of sizes, diameters and root areas: the first pair of a size and a count that
// meets none of the causes 10, 12 and 13 and whose pitch is enough. Refused by 24 where there is none, or where the lists are empty,
// longer than 16 or of two lengths.
pub fn blind_flange_bolts<N: Number, E: Entry>(
    s: UnboltedSheet,
    diameters: &[N],
    areas: &[N],
    plates: &[E],
) -> Result<BoltedSize, Refusal>
    ensures value { let ds = map N.number_of diameters.now in
        let rs = map N.number_of areas.now in
        bolted_in_numbers result ≡ bolted_answer s ds rs (map E.plate_of plates.now) }
    ensures numbers { let ds = map N.number_of diameters.now in
        let rs = map N.number_of areas.now in
        let ps = map E.plate_of plates.now in
        let a = bolted_in_numbers result in
        (cause_of a.answer ≡ bolted_cause s ds rs ps)
        × (figure_of a.answer ≡ bolted_figure s ds rs ps)
        × (report_of a.answer ≡ bolted_report s ds rs ps) }
    ensures bolts { let ds = map N.number_of diameters.now in
        let rs = map N.number_of areas.now in
        bolts_list (bolted_in_numbers result).bolts ≡ bolted_bolts s ds rs (map E.plate_of plates.now) }
    ensures exact { BoltedExact s (bolted_in_numbers result) }
{
    let stress = limits::unbolted_limits(s)?;
    let gasket = gasket_of(s.bolted(UNCHOSEN));
    let bolts = bolts_taken(s, gasket, diameters, areas).ok_or(Cause::NoBolts)?;
    let figures = sizing_on_gasket(s.bolted(bolts), stress, gasket)?;
    let plate = chosen(figures.total, plates)?;
    Ok(BoltedSize {
        figures,
        plate,
        bolts,
    })
}
