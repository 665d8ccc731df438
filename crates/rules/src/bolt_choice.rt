// The bolts of a blind flange chosen from a list of sizes.
ghost use Rattle.std.specs.Prelude.{◌≡◌};
ghost use mathlib.Core.List.{map};
ghost use Rattle.limits.specs.Causes.{any, first_cause};
ghost use Rattle.limits.specs.Limits.{flange_limits, bolt_stress_limits, unbolted_limits};
ghost use Rattle.limits.specs.Unbolted.{flange_of};
ghost use Rattle.rules.specs.BoltChoice.{fits, lengths_refused, bolts_taken};
ghost use Rattle.rules.specs.Loads.{gasket_of};

use crate::gasket::Gasket;
use crate::sizing::bolting_on_gasket;
use crate::{BlindFlangeSheet, FlangeBolts, UnboltedSheet};
use plates::Number;

// The bolts of a flange meet none of the causes 10, 12 and 13, and their pitch is enough. 11, which stands between them, was
// looked for before. Of bolts within their limits the product fits.
fn fits(s: BlindFlangeSheet, gasket: Gasket) -> bool
    requires within { (first_cause (flange_limits s) ≡ 0) × (first_cause (bolt_stress_limits s) ≡ 0) }
    requires worked { gasket ≡ gasket_of s }
    ensures { result ≡ fits s }
{
    bolting_on_gasket(s, gasket).is_ok()
        && 2500 * u64::from(s.bolt) * u64::from(s.count) <= 314 * u64::from(s.circle)
}

// A list is empty or longer than 16, or the lengths differ.
fn lengths_refused(diameters: usize, areas: usize) -> bool
    ensures { result ≡ any (lengths_refused diameters areas) }
{
    !(1..=16).contains(&diameters) || diameters != areas
}

// The first pair of a size and a count that fits: sizes in list order, and for each the counts 4, 8, 12 up to 100. None of
// lists that are empty, longer than 16 or of two lengths.
pub(crate) fn bolts_taken<N: Number>(
    s: UnboltedSheet,
    gasket: Gasket,
    diameters: &[N],
    areas: &[N],
) -> Option<FlangeBolts>
    requires within { first_cause (unbolted_limits s) ≡ 0 }
    requires worked { gasket ≡ gasket_of (flange_of s) }
    ensures { result ≡ bolts_taken s (map N.number_of diameters.now) (map N.number_of areas.now) }
{
    if lengths_refused(diameters.len(), areas.len()) {
        return None;
    }
    let mut taken = None;
    'sizes: for (diameter, area) in diameters.iter().zip(areas) {
        let bolt = diameter.number();
        let root = area.number();
        for count in (4..=100).step_by(4) {
            let bolts = FlangeBolts { bolt, root, count };
            if fits(s.bolted(bolts), gasket) {
                taken = Some(bolts);
                break 'sizes;
            }
        }
    }
    taken
}
