// The gasket: effective width b, diameter of the gasket load reaction G, and the loads of ring and rib, worked once for a
// sheet.
ghost use Rattle.std.specs.Prelude.{◌-◌, ◌/◌, ◌≡◌};
ghost use Rattle.limits.specs.Causes.{first_cause};
ghost use Rattle.limits.specs.Limits.{flange_limits};
ghost use Rattle.rules.specs.Gasket.{effective_width_of};
ghost use Rattle.rules.specs.Loads.{gasket_of};

use crate::BlindFlangeSheet;
use crate::loads::Contact;

// The gasket of a blind flange and its loads, for the test of the circle, that of the bolts, and the figures.
#[derive(Clone, Copy)]
pub(crate) struct Gasket {
    // g, G: tenths of a mm.
    pub reaction_diameter: u32,
    // b: hundredths of a mm.
    pub effective_width: u64,
    // wm1: tenths of a newton.
    pub operating_load: u64,
    // wm2: tenths of a newton.
    pub seating_load: u64,
}

// b in hundredths of a mm, of a contact width in tenths; 0 of none.
#[tactic(auto, unfolding(crate::specs::Gasket::effective_width_of, crate::specs::Gasket::wide_width))]
fn effective_width(width: u32) -> u64
    ensures { result ≡ effective_width_of width }
{
    if width <= 126 {
        5 * u64::from(width)
    } else {
        10 * root::least_root_over(31752 * u64::from(width), 1000)
    }
}

// G in tenths of a mm: 2·b inside the outside contact diameter. 0 where there is no room, as the definition's difference is.
fn reaction_diameter(od: u32, b: u64) -> u32
    ensures { result ≡ od - b / 5 }
{
    u64::from(od).saturating_sub(b / 5) as u32
}

// Asked for where none of the causes 2 to 9 and 17 applies: within these limits the loads fit.
#[inline(always)]
pub(crate) fn gasket_of(s: BlindFlangeSheet) -> Gasket
    requires { first_cause (flange_limits s) ≡ 0 }
    ensures { result ≡ gasket_of s }
{
    let b = effective_width(s.width);
    let contact = Contact {
        g: reaction_diameter(s.od, b),
        b,
        rib: s.rib,
        br: effective_width(s.rib_width),
    };
    Gasket {
        reaction_diameter: contact.g,
        effective_width: b,
        operating_load: contact.operating_load(s.m, s.pressure),
        seating_load: contact.seating_load(s.y),
    }
}
