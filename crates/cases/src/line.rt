// A line of vectors: numbers with single spaces between, and in some kinds a text after them.
use arrayvec::ArrayVec;

// Bytes of a line with its LF. A longer one ends the run.
pub(crate) const LONGEST_LINE: usize = 65_536;

// Room for a line's numbers. A line of so many or more has no answer.
pub(crate) const MOST_NUMBERS: usize = 1024;

// The number that the digits spell; one of 2^64 and more is not meant. Not `parse`, which would refuse the text of a line.
fn decimal(digits: &[u8]) -> u64 {
    digits.iter().fold(0u64, |value, digit| {
        value.wrapping_mul(10).wrapping_add(u64::from(*digit % 16))
    })
}

// Adds the numbers of the line, as many as there is room for. A text is read as some numbers more.
pub(crate) fn read_numbers(line: &[u8], numbers: &mut ArrayVec<u64, MOST_NUMBERS>) {
    // It fails at the first number that has no room.
    let _ = numbers.extend(
        line.split_inclusive(|b| *b == b' ')
            .map(|piece| decimal(piece.strip_suffix(b" ").unwrap_or(piece))),
    );
}

// What stands after the kind and so many numbers.
pub(crate) fn text_after(line: &[u8], numbers: u8) -> &[u8] {
    let before = usize::from(numbers) + 1;
    line.splitn(before + 1, |b| *b == b' ')
        .nth(before)
        .unwrap_or(b"")
}
