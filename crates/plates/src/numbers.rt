// Numbers in lists, as the diameters and the root areas of bolts.
ghost use Rattle.std.specs.Prelude.{◌≡◌};
ghost use mathlib.Core.List.{map};
ghost use Rattle.plates.specs.Entries.{number_in, numbers_in};

// What may stand for a number in a list: a number, or C's four bytes, lowest first.
pub trait Number: Copy {
    ghost use Prim.Native.Nat.{ℕ};

    ghost number_of: { Self → ℕ };

    fn number(self) -> u32
        ensures { result ≡ number_of self };
}

impl Number for u32 {
    ghost number_of = { λ number. number };

    fn number(self) -> u32 {
        self
    }
}

impl Number for [u8; 4] {
    ghost number_of = { number_in };

    fn number(self) -> u32 {
        u32::from_le_bytes(self)
    }
}

// The numbers of C's list. What is left over for less than a number is not read.
pub fn numbers_in_bytes(bytes: &[u8]) -> &[[u8; 4]]
    ensures { map number_in result.now ≡ numbers_in bytes.now }
{
    bytes.as_chunks().0
}
