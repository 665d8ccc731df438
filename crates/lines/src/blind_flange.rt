// The lines of a blind flange's sheet between the part and the plates.
use crate::Field;

pub const FIELDS: [Field; 16] = [
    Field::Material,
    Field::Temperature,
    Field::Pressure,
    Field::Allowance,
    Field::Od,
    Field::Width,
    Field::Rib,
    Field::RibWidth,
    Field::M,
    Field::Y,
    Field::Circle,
    Field::Bolt,
    Field::Root,
    Field::Count,
    Field::Sa,
    Field::Sb,
];
