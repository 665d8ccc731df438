// Runs the calculation of an endplate: the numbers of the sheet in the order of its lines, and the plates, or none for
// the calls without a list. Written are the answer of the call, and then the figures by place, as C gets them.
// A file for each part: C's calls take their numbers one by one.
use crate::answers::{answered, by_place};
use crate::output::Output;
use crate::words::{bytes_of, words};
use capi::{scantling_endplate, scantling_endplate_standard};
use plates::{in_numbers, standard_plates};
use rules::EndplateSheet;
use std::fmt;

// Two past the report's last.
const PLACES: u32 = 8;

// The sheet, and what follows its numbers: the plates, two numbers each.
fn sheet_of(numbers: &[u32]) -> Option<(EndplateSheet, &[u32])> {
    let (own, plates) = numbers.split_first_chunk::<7>()?;
    Some((EndplateSheet::from(*own), plates))
}

#[inline(never)]
pub(crate) fn endplate(out: &mut Output, numbers: &[u64]) -> fmt::Result {
    let numbers = words(numbers);
    let Some((s, plates)) = sheet_of(&numbers) else {
        return Ok(());
    };
    let bytes = bytes_of(plates);
    answered(out, rules::endplate(s, in_numbers(plates)))?;
    by_place(out, PLACES, |place| {
        scantling_endplate(
            s.form,
            s.material,
            s.shell,
            s.temperature,
            s.pressure,
            s.diameter,
            s.allowance,
            &bytes,
            place,
        )
    })
}

// From the usual stock.
#[inline(never)]
pub(crate) fn endplate_standard(out: &mut Output, numbers: &[u64]) -> fmt::Result {
    let numbers = words(numbers);
    let Some((s, [])) = sheet_of(&numbers) else {
        return Ok(());
    };
    answered(out, rules::endplate(s, &standard_plates()))?;
    by_place(out, PLACES, |place| {
        scantling_endplate_standard(
            s.form,
            s.material,
            s.shell,
            s.temperature,
            s.pressure,
            s.diameter,
            s.allowance,
            place,
        )
    })
}
