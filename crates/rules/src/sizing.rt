// A part's size before its plate is chosen, or the first cause to refuse it; and the plate chosen for a total.
ghost use Rattle.std.specs.Prelude.{◌≡◌, IfOk};
ghost use mathlib.Core.List.{map};
ghost use Rattle.plates.specs.Plates.{smallest_serving};
ghost use Rattle.tables.specs.DesignStress.{design_stress_of};
ghost use Rattle.limits.specs.Cause.{cause_number};
ghost use Rattle.limits.specs.Causes.{first_cause};
ghost use Rattle.limits.specs.Limits.{flange_limits};
ghost use Rattle.rules.specs.Answer.{endplate_sizing, blind_flange_sizing, taken};
ghost use Rattle.rules.specs.Bolts.{bolt_area};
ghost use Rattle.rules.specs.FlangeCauses.{blind_flange_causes};
ghost use Rattle.rules.specs.Loads.{gasket_of, flange_load_of};
ghost use Rattle.rules.specs.Sizing.{endplate_sized, blind_flange_sized};

use crate::bolts::{Bolting, bolt_area};
use crate::figures::{blind_flange_figures, endplate_figures};
use crate::gasket::{Gasket, gasket_of};
use crate::{BlindFlangeFigures, BlindFlangeSheet, Cause, EndplateFigures, EndplateSheet, Refusal};
use plates::{Entry, Plate, smallest_serving};

pub(crate) fn endplate_sizing(s: EndplateSheet) -> Result<EndplateFigures, Cause>
    ensures { endplate_sized result ≡ endplate_sizing s }
{
    let stress = limits::endplate_limits(s)?;
    Ok(endplate_figures(s, stress))
}

// Cause after cause, and the thicknesses last: the gasket is worked once none of 2 to 9 and 17 applies.
pub(crate) fn blind_flange_sizing(s: BlindFlangeSheet) -> Result<BlindFlangeFigures, Cause>
    ensures { blind_flange_sized result ≡ blind_flange_sizing s }
{
    let stress = limits::flange_limits(s)?;
    let gasket = gasket_of(s);
    sizing_on_gasket(s, stress, gasket)
}

// The same where none of 2 to 9 and 17 applies, S and the gasket being those of the sheet. Inlined, as `gasket_of`,
// `blind_flange_figures` and `edge_thickness` are: to call them and hand over what they give takes 8 % of a blind flange.
#[inline(always)]
pub(crate) fn sizing_on_gasket(
    s: BlindFlangeSheet,
    stress: u32,
    gasket: Gasket,
) -> Result<BlindFlangeFigures, Cause>
    requires within { first_cause (flange_limits s) ≡ 0 }
    requires worked { (stress ≡ design_stress_of s.material s.temperature) × (gasket ≡ gasket_of s) }
    ensures { blind_flange_sized result ≡ blind_flange_sizing s }
{
    let bolting = bolting_on_gasket(s, gasket)?;
    let flange_load = bolting.flange_load();
    Ok(blind_flange_figures(s, stress, gasket, flange_load))
}

// The bolts of a sheet to which none of 2 to 9 and 17 applies, if they carry the gasket's loads, or the first of the causes 10 to
// 13 that does.
pub(crate) fn bolting_on_gasket(s: BlindFlangeSheet, gasket: Gasket) -> Result<Bolting, Cause>
    requires within { first_cause (flange_limits s) ≡ 0 }
    requires worked { gasket ≡ gasket_of s }
    ensures cause { cause_number result ≡ first_cause (blind_flange_causes s) }
    ensures load { IfOk result (λ b. flange_load_of b.operating b.seating b.area b.sa b.sb
        ≡ flange_load_of gasket.operating_load gasket.seating_load (bolt_area s.root s.count) s.sa s.sb) }
{
    limits::bolting_limits(s, gasket.reaction_diameter)?;
    let bolting = Bolting {
        operating: gasket.operating_load,
        seating: gasket.seating_load,
        area: bolt_area(s.root, s.count),
        sa: s.sa,
        sb: s.sb,
    };
    if !bolting.sufficient() {
        return Err(Cause::BoltsOverloaded);
    }
    Ok(bolting)
}

// The nominally smallest plate of the list that serves the total, or 14 with the total.
pub(crate) fn chosen<E: Entry>(total: u64, plates: &[E]) -> Result<Plate, Refusal>
    ensures { result ≡ taken total (smallest_serving total (map E.plate_of plates.now)) }
{
    smallest_serving(total, plates).ok_or(Refusal {
        cause: Cause::NoPlate,
        figure: total,
    })
}
