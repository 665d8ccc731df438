// A blind flange whose bolts are yet to be chosen, and bolts for it.
ghost use Rattle.std.specs.Prelude.{◌≡◌};
ghost use Rattle.limits.specs.Unbolted.{bolted};

use crate::BlindFlangeSheet;

// The numbers of a blind flange without its bolts, in the order of a sheet's lines and in their units, of any value until they
// are tested.
#[derive(Clone, Copy)]
pub struct UnboltedSheet {
    pub material: u32,
    pub temperature: u32,
    pub pressure: u32,
    pub allowance: u32,
    pub od: u32,
    pub width: u32,
    pub rib: u32,
    pub rib_width: u32,
    pub m: u32,
    pub y: u32,
    pub circle: u32,
    pub sa: u32,
    pub sb: u32,
}

// The bolts of a blind flange: a size, and how many. Of any value too.
#[derive(Clone, Copy)]
pub struct FlangeBolts {
    // bolt: bolt diameter, mm.
    pub bolt: u32,
    // root: root area of one bolt, tenths of mm².
    pub root: u32,
    // count: number of bolts.
    pub count: u32,
}

// What stands for bolts that are yet to be chosen: no limit but theirs reads them, nor does the gasket.
pub const UNCHOSEN: FlangeBolts = FlangeBolts {
    bolt: 0,
    root: 0,
    count: 0,
};

impl UnboltedSheet {
    // The sheet with these bolts.
    pub fn bolted(self, bolts: FlangeBolts) -> BlindFlangeSheet
        ensures { result ≡ bolted self bolts }
    {
        BlindFlangeSheet {
            material: self.material,
            temperature: self.temperature,
            pressure: self.pressure,
            allowance: self.allowance,
            od: self.od,
            width: self.width,
            rib: self.rib,
            rib_width: self.rib_width,
            m: self.m,
            y: self.y,
            circle: self.circle,
            bolt: bolts.bolt,
            root: bolts.root,
            count: bolts.count,
            sa: self.sa,
            sb: self.sb,
        }
    }
}
