// The figures of a report, from the numbers of a sheet. They are asked for where no cause before 14 applies.
ghost use Rattle.std.specs.Prelude.{◌≡◌};
ghost use Rattle.tables.specs.DesignStress.{design_stress_of};
ghost use Rattle.limits.specs.Causes.{first_cause};
ghost use Rattle.limits.specs.Limits.{endplate_causes};
ghost use Rattle.limits.specs.Stress.{endplate_stress};
ghost use Rattle.rules.specs.Bolts.{bolt_area};
ghost use Rattle.rules.specs.FlangeCauses.{blind_flange_causes};
ghost use Rattle.rules.specs.Figures.{endplate_figures, blind_flange_figures};
ghost use Rattle.rules.specs.Loads.{gasket_of, flange_load_of};

use crate::gasket::Gasket;
use crate::thickness::{Diameters, Loading, endplate_thickness};
use crate::{BlindFlangeFigures, BlindFlangeSheet, EndplateFigures, EndplateSheet};

// The column of the stress cold, °C.
const AMBIENT: u32 = 50;

// F being the sheet's stress.
pub(crate) fn endplate_figures(s: EndplateSheet, stress: u32) -> EndplateFigures
    requires within { first_cause (endplate_causes s) ≡ 0 }
    requires worked { stress ≡ endplate_stress s.form s.material s.shell s.temperature }
    ensures { result ≡ endplate_figures s }
{
    let thickness = endplate_thickness(s.form, stress, s.pressure, s.diameter);
    EndplateFigures {
        design_stress: u64::from(stress),
        thickness,
        total: thickness + u64::from(s.allowance),
    }
}

// S, the gasket and W being those of the sheet.
#[inline(always)]
pub(crate) fn blind_flange_figures(
    s: BlindFlangeSheet,
    stress: u32,
    gasket: Gasket,
    flange_load: u64,
) -> BlindFlangeFigures
    requires within { first_cause (blind_flange_causes s) ≡ 0 }
    requires worked { (stress ≡ design_stress_of s.material s.temperature) × (gasket ≡ gasket_of s) }
    requires loaded { flange_load ≡ flange_load_of gasket.operating_load gasket.seating_load (bolt_area s.root s.count) s.sa s.sb }
    ensures { result ≡ blind_flange_figures s }
{
    let ambient_stress = tables::design_stress(s.material, AMBIENT).unwrap();
    let diameters = Diameters {
        g: gasket.reaction_diameter,
        circle: s.circle,
    };
    let operating = Loading {
        stress,
        load: gasket.operating_load,
    };
    let ambient = Loading {
        stress: ambient_stress,
        load: flange_load,
    };
    let thickness = diameters.flange_thickness(s.pressure, operating);
    let edge = diameters.edge_thickness(ambient, operating);
    BlindFlangeFigures {
        design_stress: u64::from(stress),
        ambient_stress: u64::from(ambient_stress),
        reaction_diameter: u64::from(gasket.reaction_diameter),
        effective_width: gasket.effective_width,
        operating_load: gasket.operating_load,
        seating_load: gasket.seating_load,
        flange_load,
        thickness,
        edge_thickness: edge,
        total: thickness.max(edge) + u64::from(s.allowance),
    }
}
