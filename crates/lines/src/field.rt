// A line between the part and the plates: the key that must stand there, and how its value is read.
ghost use Rattle.std.specs.Prelude.{◌≡◌};
ghost use Rattle.lines.specs.Fields.{form_of};

use text::{line_value, read_number};

// form: a, c or d, as 1, 2, 3.
fn read_form(v: &[u8]) -> Option<u32>
    ensures { result ≡ form_of v.now }
{
    match v {
        [b'a'] => Some(1),
        [b'c'] => Some(2),
        [b'd'] => Some(3),
        _ => None,
    }
}

// What a line says.
#[derive(Clone, Copy, Debug, PartialEq, Eq)]
pub enum Field {
    Form,
    Material,
    Shell,
    Temperature,
    Pressure,
    Diameter,
    Allowance,
    Od,
    Width,
    Rib,
    RibWidth,
    M,
    Y,
    Circle,
    Bolt,
    Root,
    Count,
    Sa,
    Sb,
}

impl Field {
    ghost use Rattle.lines.specs.Fields.{key_of, reader_of, field_of, field_meant};

    fn key(self) -> &'static [u8]
        ensures { result.now ≡ key_of self }
    {
        match self {
            Field::Form => b"form",
            Field::Material => b"material",
            Field::Shell => b"shell",
            Field::Temperature => b"temp",
            Field::Pressure => b"pressure",
            Field::Diameter => b"dia",
            Field::Allowance => b"allow",
            Field::Od => b"od",
            Field::Width => b"width",
            Field::Rib => b"rib",
            Field::RibWidth => b"ribw",
            Field::M => b"m",
            Field::Y => b"y",
            Field::Circle => b"circle",
            Field::Bolt => b"bolt",
            Field::Root => b"root",
            Field::Count => b"count",
            Field::Sa => b"sa",
            Field::Sb => b"sb",
        }
    }

    fn read_value(self, value: &[u8]) -> Option<u32>
        ensures { result ≡ reader_of self value.now }
    {
        match self {
            Field::Form => read_form(value),
            _ => read_number(value),
        }
    }

    // The number of the line that t begins with, which has to be that of this field.
    #[tactic(auto, using(crate::proofs::LineByLine::field_of_is))]
    pub(crate) fn read(self, t: &[u8]) -> Option<u32>
        ensures { result ≡ field_of (field_meant self) t.now }
    {
        self.read_value(line_value(t, self.key())?)
    }
}
