// What a plate is, and the choice of one from a list, in hundredths of a mm; and what may stand for a number in a list.
#![tactic(auto)]

ghost use Rattle.std.specs.Prelude.{◌≡◌};
ghost use mathlib.Core.List.{map};
ghost use Rattle.plates.specs.Plates.{serves, smallest_serving, standard_plates, toleranced, Chosen};

mod entries;
mod numbers;

pub use entries::{in_bytes, in_numbers};
pub use numbers::{Number, numbers_in_bytes};

// A plate of a list or of the usual stock.
#[derive(Clone, Copy, Default)]
pub struct Plate {
    // Nominal.
    pub thickness: u32,
    // minus: by how much it may come thinner.
    pub under_tolerance: u32,
}

impl Plate {
    // Whether thickness less minus is not below the total; never where the minus exceeds the thickness.
    fn serves(self, total: u64) -> bool
        ensures { result ≡ serves total self }
    {
        let least = self.thickness.checked_sub(self.under_tolerance);
        least.is_some_and(|least| total <= u64::from(least))
    }
}

// What may stand for a plate in a list: a plate, two numbers, or C's eight bytes.
pub trait Entry: Copy {
    ghost use Rattle.plates.specs.declared.Plate.{Plate};

    ghost plate_of: { Self → Plate };

    fn plate(self) -> Plate
        ensures { result ≡ plate_of self };
}

impl Entry for Plate {
    ghost plate_of = { λ plate. plate };

    fn plate(self) -> Plate {
        self
    }
}

// The plate of the list that serves for the total and is nominally smallest, the first of equals.
pub fn smallest_serving<E: Entry>(total: u64, entries: &[E]) -> Option<Plate>
    ensures value { result ≡ smallest_serving total (map E.plate_of entries.now) }
    ensures smallest { Chosen total (map E.plate_of entries.now) result }
{
    entries
        .iter()
        .map(|entry| entry.plate())
        .filter(|plate| plate.serves(total))
        .min_by_key(|plate| plate.thickness)
}

// A plate of the usual stock: it may come 0.30 mm thinner.
fn standard(thickness: u32) -> Plate
    ensures { result ≡ toleranced 30 thickness }
{
    Plate {
        thickness,
        under_tolerance: 30,
    }
}

// The plates of the usual stock, for a caller who has no list.
#[tactic(auto, unfolding(crate::specs::Plates::standard_plates))]
pub fn standard_plates() -> [Plate; 13]
    ensures { result ≡ standard_plates }
{
    [
        standard(300),
        standard(400),
        standard(500),
        standard(600),
        standard(800),
        standard(1000),
        standard(1200),
        standard(1500),
        standard(2000),
        standard(2500),
        standard(3000),
        standard(4000),
        standard(5000),
    ]
}
