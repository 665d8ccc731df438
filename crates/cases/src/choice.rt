// Runs the choice of a plate: a total, and the plates, two numbers each.
use crate::answers::chosen;
use crate::output::Output;
use crate::words::words;
use plates::in_numbers;
use std::fmt::{self, Write};

#[inline(never)]
pub(crate) fn smallest_serving(out: &mut Output, numbers: &[u64]) -> fmt::Result {
    let [total, plates @ ..] = numbers else {
        return Ok(());
    };
    let numbers = words(plates);
    write!(out, " =")?;
    match plates::smallest_serving(*total, in_numbers(&numbers)) {
        Some(plate) => chosen(out, plate),
        None => write!(out, " none"),
    }
}
