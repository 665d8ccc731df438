// The plates that a plates line names: up to 32, in an array.
ghost use Rattle.std.specs.Prelude.{◌≤◌};

use plates::Plate;

// How many at most.
pub const MOST_PLATES: usize = 32;

// The first `count` of the list; what follows them means nothing. Not an `ArrayVec`: a sheet's lines are `Copy`, and it is not.
#[derive(Clone, Copy)]
pub struct Plates {
    list: [Plate; MOST_PLATES],
    count: usize,
    ghost counted: { count ≤ 32 },
}

impl Plates {
    ghost use Rattle.std.specs.Prelude.{◌≡◌, ◌<◌, ◌≤◌, ◌++◌, [], ◌∷◌, eqb, length};
    ghost use Rattle.text.specs.Plates.{most_plates, plates_held};

    // These, which have room.
    pub(crate) fn of(plates: &[Plate]) -> Plates
        requires { length plates.now ≤ most_plates }
        ensures { plates_held result ≡ plates.now }
    {
        let count = plates.len();
        let mut list = [Plate::default(); MOST_PLATES];
        list[..count].copy_from_slice(plates);
        Plates { list, count }
    }

    pub(crate) fn is_full(&self) -> bool
        ensures { result ≡ eqb (length (plates_held self.now)) most_plates }
    {
        self.count == MOST_PLATES
    }

    pub(crate) fn push(&mut self, plate: Plate)
        requires { length (plates_held self.old) < most_plates }
        ensures { plates_held self.new ≡ plates_held self.old ++ plate ∷ [] }
    {
        self.list[self.count] = plate;
        self.count += 1;
    }

    // The plates, in order.
    pub fn as_slice(&self) -> &[Plate]
        ensures { result.now ≡ plates_held self.now }
    {
        &self.list[..self.count]
    }
}
