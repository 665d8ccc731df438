// Cause of a part's refusal, by its number in documents 01 and 02 (17 and 24: document 02). 15 and 16 are no causes of this
// type: they are about a call's space and limit. Nor are 18 to 20: they are of the look-up of support plates.

#[derive(Clone, Copy, Debug, PartialEq, Eq)]
pub enum Cause {
    // A line is absent, has a wrong key or value text or no LF, or follows the last.
    Malformed = 1,
    // Material, shell or form.
    Material = 2,
    // P.
    Pressure = 3,
    // Design temperature.
    Temperature = 4,
    // Table 1 has a dash for a material in use.
    NoStress = 5,
    // dia or od.
    Diameter = 6,
    // allow.
    Allowance = 7,
    // Contact width of the gasket.
    Width = 8,
    // m or y of the gasket.
    Gasket = 9,
    // bolt, root or count.
    Bolts = 10,
    // sa or sb.
    BoltStress = 11,
    // Bolt circle.
    Circle = 12,
    // The bolts do not carry the loads.
    BoltsOverloaded = 13,
    // No plate reaches the total.
    NoPlate = 14,
    // rib or ribw; in checking order right after 8.
    Rib = 17,
    // No size and count fit, or the lists are empty, longer than 16 or of two lengths. Only of a call that chooses bolts: no
    // sheet meets it.
    NoBolts = 24,
}

impl Cause {
    ghost use Rattle.std.specs.Prelude.{◌≡◌};
    ghost use Rattle.limits.specs.Cause.{number_of};

    // The number in documents 01 and 02. No `From`: by its name it says which number it is.
    pub fn number(self) -> u32
        ensures { result ≡ number_of self }
    {
        self as u32
    }
}
