// Plates in lists of numbers and of bytes. What is left over for less than an entry is not read.
ghost use Rattle.std.specs.Prelude.{◌≡◌};
ghost use mathlib.Core.List.{map};
ghost use Rattle.plates.specs.Entries.{numbers_in, plate_in, plate_in_bytes, plates_in};

use crate::{Entry, Plate};

// Two numbers, thickness first.
impl Entry for [u32; 2] {
    ghost plate_of = { plate_in };

    fn plate(self) -> Plate {
        let [thickness, under_tolerance] = self;
        Plate {
            thickness,
            under_tolerance,
        }
    }
}

// The same two numbers in C's bytes, four to a number, lowest first.
impl Entry for [u8; 8] {
    ghost plate_of = { plate_in_bytes };

    fn plate(self) -> Plate {
        let [a, b, c, d, e, f, g, h] = self;
        Plate {
            thickness: u32::from_le_bytes([a, b, c, d]),
            under_tolerance: u32::from_le_bytes([e, f, g, h]),
        }
    }
}

// The entries of a list of numbers.
pub fn in_numbers(numbers: &[u32]) -> &[[u32; 2]]
    ensures { map plate_in result.now ≡ plates_in numbers.now }
{
    numbers.as_chunks().0
}

// The entries of C's list.
pub fn in_bytes(bytes: &[u8]) -> &[[u8; 8]]
    ensures { map plate_in_bytes result.now ≡ plates_in (numbers_in bytes.now) }
{
    bytes.as_chunks().0
}
