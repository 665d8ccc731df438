// Runs a call on a text in a space of some length, filled with dots. Written are the numbers that the call answers, and then the
// bytes of the whole array that the space is the front of, in signs.
ghost use Rattle.std.specs.Prelude.{◌≤◌};

use crate::output::Output;
use crate::signs::shown;
use std::fmt::{self, Write};

// `call` writes its numbers. A space longer than the array has no answer. The length of an array wants a bound.
pub(crate) fn in_space<const ROOM: usize, F: Fn(&mut Output, &[u8], &mut [u8]) -> fmt::Result>(
    out: &mut Output,
    room: u64,
    text: &[u8],
    call: F,
) -> fmt::Result
    requires always { F.IsAlwaysCallable call }
    requires small { ROOM ≤ 512 }
{
    if room > ROOM as u64 {
        return Ok(());
    }
    let mut space = [b'.'; ROOM];
    call(out, text, &mut space[..room as usize])?;
    write!(out, " : ")?;
    out.write_bytes(&space.map(shown));
    Ok(())
}
