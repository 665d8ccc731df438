// Loads of the gasket, in tenths of a newton.
ghost use Rattle.std.specs.Prelude.{◌≡◌, ◌≤◌};
ghost use Rattle.rules.specs.Bounds.{most_pressure, most_diameter, most_effective_width, most_rib, most_factor};
ghost use Rattle.rules.specs.Loads.{exact_operating_load, exact_seating_load};
ghost use Rattle.rules.specs.Loads.{operating_load_of, seating_load_of};

// What the gasket's ring and its rib press on. The bounds are wider than the limits: with them the products fit.
#[derive(Clone, Copy)]
pub(crate) struct Contact {
    // G: tenths of a mm.
    pub g: u32,
    // b of the ring: hundredths of a mm.
    pub b: u64,
    // Length of the rib, tenths of a mm, and its own b, hundredths; both 0 without one.
    pub rib: u32,
    pub br: u64,
    ghost ring_bounded: { (g ≤ most_diameter) × (b ≤ most_effective_width) },
    ghost rib_bounded: { (rib ≤ most_rib) × (br ≤ most_effective_width) },
}

impl Contact {
    // Wm1. P's bound stands here as in thickness.rt.
    #[tactic(auto, unfolding(crate::specs::Loads::operating_load_of, crate::specs::Loads::exact_operating_load))]
    pub(crate) fn operating_load(self, m: u32, pressure: u32) -> u64
        requires { (m ≤ most_factor) × (pressure ≤ most_pressure) }
        ensures { result ≡ operating_load_of (exact_operating_load self.g self.b self.rib self.br m pressure) }
    {
        let g = u64::from(self.g);
        let m = u64::from(m);
        let p = u64::from(pressure);
        let end = 78500 * (g * g) * p;
        let ring = 628 * self.b * g * m * p;
        let rib = 200 * self.br * u64::from(self.rib) * m * p;
        root::ceil_div(end + ring + rib, 1000000000)
    }

    // Wm2.
    #[tactic(auto, unfolding(crate::specs::Loads::seating_load_of, crate::specs::Loads::exact_seating_load))]
    pub(crate) fn seating_load(self, y: u32) -> u64
        requires { y ≤ most_factor }
        ensures { result ≡ seating_load_of (exact_seating_load self.g self.b self.rib self.br y) }
    {
        let y = u64::from(y);
        let ring = 314 * self.b * u64::from(self.g) * y;
        let rib = 100 * self.br * u64::from(self.rib) * y;
        root::ceil_div(ring + rib, 100000)
    }
}
