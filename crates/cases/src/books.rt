// Runs a book in a space: its reports with a limit, or its summary.
use crate::output::Output;
use crate::spaces::in_space;
use crate::words::low;
use batch::ShortSpace;
use std::fmt::{self, Write};

// The longest space.
const ROOM: usize = 512;

// The limit, the length of the space, and the book. Written are the cause, the figure, the count of the pieces worked,
// and the length written.
pub(crate) fn book(out: &mut Output, numbers: &[u64], text: &[u8]) -> fmt::Result {
    let [limit, room, ..] = numbers else {
        return Ok(());
    };
    in_space::<ROOM, _>(out, *room, text, |out, text, space| {
        let [cause, figure, count, length] = batch::answer(text, low(*limit), space).numbers();
        write!(out, " = {cause} {figure} {count} {length}")
    })
}

// The length of the space, and the book. Written are the cause, the figure and the length written.
pub(crate) fn summary(out: &mut Output, numbers: &[u64], text: &[u8]) -> fmt::Result {
    let [room, ..] = numbers else {
        return Ok(());
    };
    in_space::<ROOM, _>(out, *room, text, |out, text, space| {
        match batch::summary(text, space) {
            Ok(length) => write!(out, " = 0 0 {length}"),
            Err(ShortSpace { length }) => write!(out, " = 15 {length} 0"),
        }
    })
}
