// The numbers of the two sheets, and the limits that they keep to: causes of a refusal.
#![tactic(auto)]

mod cause;
mod causes;
mod stress;
mod unbolted;

pub use cause::Cause;
pub use causes::{bolting_limits, endplate_limits, flange_limits, unbolted_limits};
pub use stress::endplate_stress;
pub use unbolted::{FlangeBolts, UNCHOSEN, UnboltedSheet};

// The numbers of an endplate's sheet, in the order of its lines. They are the sheet's and C's own, of any value until they are
// tested, so form, material and shell are numbers, and 0 says that there is none.
#[derive(Clone, Copy)]
pub struct EndplateSheet {
    // form: 1, 2, 3 for a, c, d.
    pub form: u32,
    // material: that of the plate, 1 to 11.
    pub material: u32,
    // shell: the material of the cylinder; 0 for form a.
    pub shell: u32,
    // temp: °C.
    pub temperature: u32,
    // pressure, P: thousandths of N/mm².
    pub pressure: u32,
    // dia, d: tenths of a mm.
    pub diameter: u32,
    // allow: hundredths of a mm.
    pub allowance: u32,
}

impl From<[u32; 7]> for EndplateSheet {
    ghost use Rattle.std.specs.Prelude.{◌≡◌};
    ghost use Rattle.limits.specs.Sheets.{endplate_of};

    ghost from_gives = { λ numbers s. s ≡ endplate_of numbers };

    fn from(numbers: [u32; 7]) -> EndplateSheet {
        let [
            form,
            material,
            shell,
            temperature,
            pressure,
            diameter,
            allowance,
        ] = numbers;
        EndplateSheet {
            form,
            material,
            shell,
            temperature,
            pressure,
            diameter,
            allowance,
        }
    }
}

// The numbers of a blind flange's sheet, in the order of its lines, of any value too.
#[derive(Clone, Copy)]
pub struct BlindFlangeSheet {
    // material: 1 to 11.
    pub material: u32,
    // temp: °C.
    pub temperature: u32,
    // pressure, P: thousandths of N/mm².
    pub pressure: u32,
    // allow: hundredths of a mm.
    pub allowance: u32,
    // od: outside contact diameter of the gasket, tenths of a mm.
    pub od: u32,
    // width, n: contact width of the gasket, tenths of a mm.
    pub width: u32,
    // rib: length of a pass partition rib, tenths of a mm; 0 without one.
    pub rib: u32,
    // ribw: its contact width, tenths of a mm; 0 without one.
    pub rib_width: u32,
    // m: gasket factor, hundredths.
    pub m: u32,
    // y: gasket seating stress, tenths of N/mm².
    pub y: u32,
    // circle, C: bolt circle, tenths of a mm.
    pub circle: u32,
    // bolt: bolt diameter, mm.
    pub bolt: u32,
    // root: root area of one bolt, tenths of mm².
    pub root: u32,
    // count: number of bolts.
    pub count: u32,
    // sa: bolt stress cold, N/mm².
    pub sa: u32,
    // sb: bolt stress at design temperature, N/mm².
    pub sb: u32,
}

impl From<[u32; 16]> for BlindFlangeSheet {
    ghost use Rattle.std.specs.Prelude.{◌≡◌};
    ghost use Rattle.limits.specs.Sheets.{blind_flange_of};

    ghost from_gives = { λ numbers s. s ≡ blind_flange_of numbers };

    fn from(numbers: [u32; 16]) -> BlindFlangeSheet {
        let [
            material,
            temperature,
            pressure,
            allowance,
            od,
            width,
            rib,
            rib_width,
            m,
            y,
            circle,
            bolt,
            root,
            count,
            sa,
            sb,
        ] = numbers;
        BlindFlangeSheet {
            material,
            temperature,
            pressure,
            allowance,
            od,
            width,
            rib,
            rib_width,
            m,
            y,
            circle,
            bolt,
            root,
            count,
            sa,
            sb,
        }
    }
}
