// The bolts: their area, whether they carry the gasket's loads, and the load that they put on the flange.
ghost use Rattle.std.specs.Prelude.{◌≡◌};
ghost use Rattle.rules.specs.Bolts.{bolt_area, bolts_sufficient};
ghost use Rattle.rules.specs.Bounds.{BoltsBounded};
ghost use Rattle.rules.specs.Loads.{flange_load_of};

// A, in tenths of mm².
pub(crate) fn bolt_area(root: u32, count: u32) -> u64
    ensures { result ≡ bolt_area root count }
{
    u64::from(count) * u64::from(root)
}

// The bolts and what they carry. The bounds are wider than the limits: with them the products fit.
#[derive(Clone, Copy)]
pub(crate) struct Bolting {
    // Wm1, at design temperature: tenths of a newton.
    pub operating: u64,
    // Wm2, cold: tenths of a newton.
    pub seating: u64,
    // A: tenths of mm².
    pub area: u64,
    // N/mm², cold and at design temperature.
    pub sa: u32,
    pub sb: u32,
    ghost bounded: { BoltsBounded operating seating area sa sb },
}

impl Bolting {
    // The bolts carry Wm1 at design temperature and Wm2 cold.
    #[tactic(auto, unfolding(crate::specs::Bolts::bolts_sufficient))]
    pub(crate) fn sufficient(self) -> bool
        ensures { result ≡ bolts_sufficient self.operating self.seating self.area self.sa self.sb }
    {
        self.operating <= self.area * u64::from(self.sb)
            && self.seating <= self.area * u64::from(self.sa)
    }

    // W, in tenths of a newton.
    #[tactic(auto, unfolding(crate::specs::Loads::flange_load_of))]
    pub(crate) fn flange_load(self) -> u64
        ensures { result ≡ flange_load_of self.operating self.seating self.area self.sa self.sb }
    {
        let sa = u64::from(self.sa);
        let sb = u64::from(self.sb);
        let gasket = (self.operating * sa).max(self.seating * sb);
        root::ceil_div(gasket + self.area * sa * sb, 2 * sb)
    }
}
