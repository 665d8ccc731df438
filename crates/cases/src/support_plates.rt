// Runs the look-up of baffles and support plates: tube, group, span and plate. Written are the answer of the call, and then
// the figures by place, as C gets them.
use crate::answers::by_place;
use crate::output::Output;
use crate::words::words;
use capi::scantling_support_plate;
use std::fmt::{self, Write};
use supports::SupportPlate;

// Two past the last.
const PLACES: u32 = 6;

#[inline(never)]
pub(crate) fn support_plate(out: &mut Output, numbers: &[u64]) -> fmt::Result {
    let numbers = words(numbers);
    let [tube, group, span, diameter] = *numbers.as_slice() else {
        return Ok(());
    };
    match supports::support_plate(tube, group, span, diameter) {
        Ok(
            SupportPlate {
                longest_span,
                thickness,
            },
        ) => write!(out, " = 0 0 {longest_span} {thickness}")?,
        Err(cause) => write!(out, " = {} 0", cause.number())?,
    }
    by_place(out, PLACES, |place| {
        scantling_support_plate(tube, group, span, diameter, place)
    })
}
