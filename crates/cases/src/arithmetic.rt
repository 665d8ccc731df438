// Runs Table 1 and the root arithmetic.
use crate::output::Output;
use crate::words::low;
use std::fmt::{self, Write};

// A material and a temperature; 0 where Table 1 has no stress.
pub(crate) fn design_stress(out: &mut Output, numbers: &[u64]) -> fmt::Result {
    match numbers {
        [material, temperature] => {
            let stress = tables::design_stress(low(*material), low(*temperature));
            write!(out, " = {}", stress.unwrap_or(0))
        }
        _ => Ok(()),
    }
}

// A number and a divisor.
pub(crate) fn quotient(out: &mut Output, numbers: &[u64]) -> fmt::Result {
    match numbers {
        [number, divisor] => write!(out, " = {}", root::ceil_div(*number, *divisor)),
        _ => Ok(()),
    }
}

pub(crate) fn root(out: &mut Output, numbers: &[u64]) -> fmt::Result {
    match numbers {
        [number] => write!(out, " = {}", root::least_root(*number)),
        _ => Ok(()),
    }
}

// A number and a factor.
pub(crate) fn root_over(out: &mut Output, numbers: &[u64]) -> fmt::Result {
    match numbers {
        [number, factor] => write!(out, " = {}", root::least_root_over(*number, *factor)),
        _ => Ok(()),
    }
}
