// Runs the sheet reader in a space.
use crate::output::Output;
use crate::spaces::in_space;
use sheet::Outcome;
use std::fmt::{self, Write};

// The longest space.
const ROOM: usize = 160;

// The cause, the figure and the length.
fn told(out: &mut Output, outcome: Outcome) -> fmt::Result {
    let (cause, figure, length) = match outcome {
        Outcome::Report { length } => (0, 0, length),
        Outcome::Refused { refusal, length } => (refusal.cause.number(), refusal.figure, length),
        Outcome::ShortSpace { length } => (15, length as u64, length),
    };
    write!(out, " = {cause} {figure} {length}")
}

// The length of the space, and the text.
pub(crate) fn sheet(out: &mut Output, numbers: &[u64], text: &[u8]) -> fmt::Result {
    let [room, ..] = numbers else {
        return Ok(());
    };
    in_space::<ROOM, _>(out, *room, text, |out, text, space| {
        told(out, sheet::answer(text, space))
    })
}
