// Writing of a calculation's answer: the cause, its figure, the figures of the report, the plate with its minus, and
// the bolts where they were chosen; then the figures by place.
use crate::output::Output;
use plates::Plate;
use rules::{Answer, BlindFlangeFigures, BoltedSize, EndplateFigures, FlangeBolts, Refusal, Size};
use std::fmt::{self, Write};

pub(crate) fn chosen(out: &mut Output, plate: Plate) -> fmt::Result {
    let Plate {
        thickness,
        under_tolerance,
    } = plate;
    write!(out, " {thickness}:{under_tolerance}")
}

fn endplate(out: &mut Output, figures: EndplateFigures, plate: Plate) -> fmt::Result {
    let EndplateFigures {
        design_stress,
        thickness,
        total,
    } = figures;
    write!(out, " = 0 0 {design_stress} {thickness} {total}")?;
    chosen(out, plate)
}

fn blind_flange(out: &mut Output, figures: BlindFlangeFigures, plate: Plate) -> fmt::Result {
    let BlindFlangeFigures {
        design_stress,
        ambient_stress,
        reaction_diameter,
        effective_width,
        operating_load,
        seating_load,
        flange_load,
        thickness,
        edge_thickness,
        total,
    } = figures;
    write!(
        out,
        " = 0 0 {design_stress} {ambient_stress} {reaction_diameter} {effective_width} {operating_load} {seating_load} \
         {flange_load} {thickness} {edge_thickness} {total}"
    )?;
    chosen(out, plate)
}

fn refused(out: &mut Output, refusal: Refusal) -> fmt::Result {
    write!(out, " = {} {}", refusal.cause.number(), refusal.figure)
}

pub(crate) fn answered(out: &mut Output, answer: Answer) -> fmt::Result {
    match answer {
        Ok(Size::Endplate { figures, plate }) => endplate(out, figures, plate),
        Ok(Size::BlindFlange { figures, plate }) => blind_flange(out, figures, plate),
        Err(refusal) => refused(out, refusal),
    }
}

pub(crate) fn answered_with_bolts(
    out: &mut Output,
    answer: Result<BoltedSize, Refusal>,
) -> fmt::Result {
    match answer {
        Ok(size) => {
            let FlangeBolts { bolt, root, count } = size.bolts;
            blind_flange(out, size.figures, size.plate)?;
            write!(out, " {bolt} {root} {count}")
        }
        Err(refusal) => refused(out, refusal),
    }
}

// The figures of the first places, as C gets them.
pub(crate) fn by_place<F: Fn(u32) -> u64>(out: &mut Output, places: u32, figure: F) -> fmt::Result
    requires { F.IsAlwaysCallable figure }
{
    write!(out, " :")?;
    for place in 0..places {
        write!(out, " {}", figure(place))?;
    }
    Ok(())
}
