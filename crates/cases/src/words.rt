// Numbers as the calls take them: their low 32 bits, and for C four bytes to a number, lowest first. A line's numbers have room.
// Neither what makes them nor a kind's function that holds them is inlined, so that the stack has those of one kind at a time.
use crate::line::MOST_NUMBERS;
use arrayvec::ArrayVec;

const MOST_BYTES: usize = 4 * MOST_NUMBERS;

pub(crate) fn low(n: u64) -> u32 {
    (n & 0xffff_ffff) as u32
}

#[inline(never)]
pub(crate) fn words(numbers: &[u64]) -> ArrayVec<u32, MOST_NUMBERS> {
    let mut words = ArrayVec::new();
    let _ = words.extend(numbers.iter().map(|n| low(*n)));
    words
}

#[inline(never)]
pub(crate) fn bytes_of(numbers: &[u32]) -> ArrayVec<u8, MOST_BYTES> {
    let mut bytes = ArrayVec::new();
    let _ = bytes.extend(numbers.iter().flat_map(|number| number.to_le_bytes()));
    bytes
}
