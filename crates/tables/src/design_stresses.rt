// Table 1: design stress.
ghost use Rattle.std.specs.Prelude.{◌≡◌};
ghost use Rattle.tables.specs.DesignStress.{design_stress_of, nonzero};

use crate::by_limits::first_not_below;

// In the form that document 01 names: N/mm², 0 for a dash. A row for each material, a column for each limit.
const DESIGN_STRESSES: [[u32; 9]; 11] = [
    [108, 108, 108, 108, 108, 104, 100, 93, 91],
    [114, 102, 89, 85, 81, 78, 76, 74, 72],
    [122, 109, 95, 91, 87, 84, 82, 80, 78],
    [120, 107, 95, 91, 88, 85, 82, 80, 79],
    [128, 114, 102, 98, 94, 91, 89, 87, 85],
    [48, 46, 34, 26, 18, 0, 0, 0, 0],
    [41, 40, 34, 26, 18, 0, 0, 0, 0],
    [97, 92, 89, 63, 60, 58, 54, 49, 44],
    [75, 73, 71, 63, 60, 58, 54, 49, 44],
    [117, 109, 105, 76, 75, 73, 72, 71, 70],
    [93, 87, 84, 76, 75, 73, 72, 71, 70],
];

// The columns: design temperature not exceeding, °C.
const LIMITS: [u32; 9] = [50, 100, 150, 175, 200, 225, 250, 275, 300];

// The design stress of a material, 1 to 11, at a temperature in °C; None where Table 1 has none.
pub fn design_stress(material: u32, temperature: u32) -> Option<u32>
    ensures { result ≡ nonzero (design_stress_of material temperature) }
{
    let row = DESIGN_STRESSES.get(material.checked_sub(1)? as usize)?;
    let stress = row[first_not_below(&LIMITS, temperature)?];
    (stress != 0).then_some(stress)
}
