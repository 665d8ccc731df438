// Runs the calculation of a blind flange whose bolts are chosen: the numbers of the sheet without bolts in the order of
// its lines, the diameters and the root areas, each list after its length, and the plates. Written are the answer of
// the call, and then the figures by place, as C gets them.
use crate::answers::{answered_with_bolts, by_place};
use crate::output::Output;
use crate::words::{bytes_of, words};
use capi::scantling_blind_flange_bolts;
use plates::in_numbers;
use rules::UnboltedSheet;
use std::fmt;

// Two past the bolts.
const PLACES: u32 = 18;

// The sheet, and what follows its numbers.
fn sheet_of(numbers: &[u32]) -> Option<(UnboltedSheet, &[u32])> {
    let (own, rest) = numbers.split_first_chunk::<13>()?;
    let [
        material,
        temperature,
        pressure,
        allowance,
        od,
        width,
        rib,
        rib_width,
        m,
        y,
        circle,
        sa,
        sb,
    ] = *own;
    let sheet = UnboltedSheet {
        material,
        temperature,
        pressure,
        allowance,
        od,
        width,
        rib,
        rib_width,
        m,
        y,
        circle,
        sa,
        sb,
    };
    Some((sheet, rest))
}

// A list that stands after its length, and what follows it.
fn list_of(numbers: &[u32]) -> Option<(&[u32], &[u32])> {
    let (length, rest) = numbers.split_first()?;
    rest.split_at_checked(*length as usize)
}

// The sheet, the diameters, the root areas, and the plates, two numbers each.
fn parts_of(numbers: &[u32]) -> Option<(UnboltedSheet, &[u32], &[u32], &[u32])> {
    let (sheet, rest) = sheet_of(numbers)?;
    let (diameters, rest) = list_of(rest)?;
    let (areas, plates) = list_of(rest)?;
    Some((sheet, diameters, areas, plates))
}

#[inline(never)]
pub(crate) fn blind_flange_bolts(out: &mut Output, numbers: &[u64]) -> fmt::Result {
    let numbers = words(numbers);
    let Some((s, diameters, areas, plates)) = parts_of(&numbers) else {
        return Ok(());
    };
    answered_with_bolts(
        out,
        rules::blind_flange_bolts(s, diameters, areas, in_numbers(plates)),
    )?;
    let diameters = bytes_of(diameters);
    let areas = bytes_of(areas);
    let plates = bytes_of(plates);
    by_place(out, PLACES, |place| {
        scantling_blind_flange_bolts(
            s.material,
            s.temperature,
            s.pressure,
            s.allowance,
            s.od,
            s.width,
            s.rib,
            s.rib_width,
            s.m,
            s.y,
            s.circle,
            s.sa,
            s.sb,
            &diameters,
            &areas,
            &plates,
            place,
        )
    })
}
