// Reading lines of key, `=`, value, LF: a value as a part of the line, a number, a list of plates.
#![tactic(auto)]

mod line;
mod named_plates;
mod number;
mod plate_list;

pub use line::{line_value, next_line, value};
pub use named_plates::{MOST_PLATES, Plates};
pub use number::read_number;
pub use plate_list::read_plates;
