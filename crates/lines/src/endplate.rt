// The lines of an endplate's sheet between the part and the plates.
use crate::Field;

pub const FIELDS: [Field; 7] = [
    Field::Form,
    Field::Material,
    Field::Shell,
    Field::Temperature,
    Field::Pressure,
    Field::Diameter,
    Field::Allowance,
];
