// Runs the calculation of a blind flange: the numbers of the sheet in the order of its lines, and the plates, or none for
// the calls without a list. Written are the answer of the call, and then the figures by place, as C gets them.
// A file for each part: C's calls take their numbers one by one.
use crate::answers::{answered, by_place};
use crate::output::Output;
use crate::words::{bytes_of, words};
use capi::{scantling_blind_flange, scantling_blind_flange_standard};
use plates::{in_numbers, standard_plates};
use rules::BlindFlangeSheet;
use std::fmt;

// Two past the report's last.
const PLACES: u32 = 15;

// The sheet, and what follows its numbers: the plates, two numbers each.
fn sheet_of(numbers: &[u32]) -> Option<(BlindFlangeSheet, &[u32])> {
    let (own, plates) = numbers.split_first_chunk::<16>()?;
    Some((BlindFlangeSheet::from(*own), plates))
}

#[inline(never)]
pub(crate) fn blind_flange(out: &mut Output, numbers: &[u64]) -> fmt::Result {
    let numbers = words(numbers);
    let Some((s, plates)) = sheet_of(&numbers) else {
        return Ok(());
    };
    let bytes = bytes_of(plates);
    answered(out, rules::blind_flange(s, in_numbers(plates)))?;
    by_place(out, PLACES, |place| {
        scantling_blind_flange(
            s.material,
            s.temperature,
            s.pressure,
            s.allowance,
            s.od,
            s.width,
            s.rib,
            s.rib_width,
            s.m,
            s.y,
            s.circle,
            s.bolt,
            s.root,
            s.count,
            s.sa,
            s.sb,
            &bytes,
            place,
        )
    })
}

// From the usual stock.
#[inline(never)]
pub(crate) fn blind_flange_standard(out: &mut Output, numbers: &[u64]) -> fmt::Result {
    let numbers = words(numbers);
    let Some((s, [])) = sheet_of(&numbers) else {
        return Ok(());
    };
    answered(out, rules::blind_flange(s, &standard_plates()))?;
    by_place(out, PLACES, |place| {
        scantling_blind_flange_standard(
            s.material,
            s.temperature,
            s.pressure,
            s.allowance,
            s.od,
            s.width,
            s.rib,
            s.rib_width,
            s.m,
            s.y,
            s.circle,
            s.bolt,
            s.root,
            s.count,
            s.sa,
            s.sb,
            place,
        )
    })
}
