// Thicknesses, in hundredths of a mm. The bounds asked for are wider than the limits: with them the products fit. P's stands
// at each of the three functions that take it: a type for one number would be no plainer.
ghost use Rattle.std.specs.Prelude.{◌≡◌, ◌≤◌, ◌+◌};
ghost use Rattle.rules.specs.Bounds.{most_pressure, most_stress, most_diameter, most_lever, most_load};
ghost use Rattle.rules.specs.Endplate.{endplate_thickness};
ghost use Rattle.rules.specs.BlindFlange.{flange_thickness, edge_under, edge_thickness_of};

// Form d of an endplate, by the sheet's and C's own number: an enum would be made of it for this one test.
const FORM_D: u32 = 3;

// The factor of a bolt load, in tenths of a newton, and its lever C − G.
const MOMENT: u64 = 95450;

// T, the need of an endplate.
#[tactic(auto, unfolding(crate::specs::Endplate::endplate_thickness))]
pub(crate) fn endplate_thickness(form: u32, stress: u32, pressure: u32, diameter: u32) -> u64
    requires { (stress ≤ most_stress) × (pressure ≤ most_pressure) × (diameter ≤ most_diameter) }
    ensures { result ≡ endplate_thickness form stress pressure diameter }
{
    let d = u64::from(diameter);
    let load = u64::from(pressure) * (d * d);
    let f = u64::from(stress);
    if form == FORM_D {
        root::least_root_over(load, 30 * f)
    } else {
        root::least_root_over(load, 40 * f)
    }
}

// A stress of the blind flange, N/mm², and the load that it bears, tenths of a newton.
#[derive(Clone, Copy)]
pub(crate) struct Loading {
    pub stress: u32,
    pub load: u64,
    ghost bounded: { (stress ≤ most_stress) × (load ≤ most_load) },
}

// The diameters of a blind flange, tenths of a mm: G, and C of the bolt circle.
#[derive(Clone, Copy)]
pub(crate) struct Diameters {
    pub g: u32,
    pub circle: u32,
    ghost bounded: { (g ≤ most_diameter) × (g ≤ circle) × (circle ≤ g + most_lever) },
}

impl Diameters {
    // e, the need of a blind flange.
    #[tactic(auto, unfolding(crate::specs::BlindFlange::flange_thickness))]
    pub(crate) fn flange_thickness(self, pressure: u32, operating: Loading) -> u64
        requires { pressure ≤ most_pressure }
        ensures { result ≡ flange_thickness operating.stress self.g pressure self.circle operating.load }
    {
        let d = u64::from(self.g);
        let bending = 3 * (d * d * d) * u64::from(pressure);
        let bolts = MOMENT * operating.load * u64::from(self.circle - self.g);
        root::least_root_over(bending + bolts, 100 * u64::from(operating.stress) * d)
    }

    // The edge that a stress and its load ask for.
    #[tactic(auto, unfolding(crate::specs::BlindFlange::edge_under))]
    fn edge_under(self, loading: Loading) -> u64
        ensures { result ≡ edge_under loading.stress self.g self.circle loading.load }
    {
        let moment = MOMENT * loading.load * u64::from(self.circle - self.g);
        root::least_root_over(moment, 100 * u64::from(loading.stress) * u64::from(self.g))
    }

    // edge: the greater of the one cold under W and the one at design temperature under Wm1.
    #[inline(always)]
    pub(crate) fn edge_thickness(self, ambient: Loading, operating: Loading) -> u64
        ensures { result ≡ edge_thickness_of operating.stress ambient.stress self.g self.circle operating.load ambient.load }
    {
        let ambient_edge = self.edge_under(ambient);
        let operating_edge = self.edge_under(operating);
        ambient_edge.max(operating_edge)
    }
}
