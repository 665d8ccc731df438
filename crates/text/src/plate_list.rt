// The plate list: nothing for the usual stock, the word none for no plate, or 1 to 32 entries with commas between.
ghost use Rattle.std.specs.Prelude.{◌≡◌, []};
ghost use Rattle.std.specs.Option.{option_map};
ghost use Rattle.text.specs.Plates.{entry_of, most_plates, plates_held, plates_listed, plates_of, plates_read};

use crate::line::first;
use crate::named_plates::Plates;
use crate::number::read_number;
use plates::{Plate, standard_plates};

const COMMA: u8 = b',';

const COLON: u8 = b':';

// The plate of an entry, thickness or thickness:minus. Most have no colon: one that is a number is not looked at again.
#[tactic(auto, unfolding(crate::specs::Plates::entry_of, crate::specs::Line::before, crate::specs::Line::after), using(crate::specs::Laws::Entry::entry_number))]
fn read_plate(v: &[u8]) -> Option<Plate>
    ensures { result ≡ entry_of v.now }
{
    if let Some(thickness) = read_number(v) {
        return Some(Plate {
            thickness,
            under_tolerance: 0,
        });
    }
    let colon = first(v, COLON)?;
    Some(Plate {
        thickness: read_number(&v[..colon])?,
        under_tolerance: read_number(&v[colon + 1..])?,
    })
}

// Puts the plates that v lists, 1 to 32 entries with commas between, into an empty list. In place: a list is large to hand on.
fn read_list(v: &[u8], plates: &mut Plates) -> Option<()>
    requires { plates_held plates.old ≡ [] }
    ensures { option_map (λ done. plates_held plates.new) result ≡ plates_listed most_plates v.now }
{
    for part in v.split(|&b| b == COMMA) {
        if plates.is_full() {
            return None;
        }
        plates.push(read_plate(part)?);
    }
    Some(())
}

// The plates that v names: the usual stock where it is empty, no plate where it is the word none, else those listed.
#[tactic(auto, unfolding(crate::specs::Plates::plates_of), using(crate::specs::Laws::Begins::same_is))]
pub fn read_plates(v: &[u8]) -> Option<Plates>
    ensures { plates_read result ≡ plates_of v.now }
{
    if v.is_empty() {
        return Some(Plates::of(&standard_plates()));
    }
    let mut plates = Plates::of(&[]);
    if v != b"none".as_slice() {
        read_list(v, &mut plates)?;
    }
    Some(plates)
}
