// Tests of the causes 2 to 12 and 17 of a refusal, and the first that applies.
ghost use Rattle.std.specs.Prelude.{◌≡◌, IfOk, IsTrue, IsFalse, MatchResult};
ghost use Rattle.tables.specs.DesignStress.{design_stress_of};
ghost use Rattle.limits.specs.Cause.{cause_number};
ghost use Rattle.limits.specs.Causes.{any, first_cause};
ghost use Rattle.limits.specs.Limits.{endplate_causes, flange_limits, bolting_limits, unbolted_limits};
ghost use Rattle.limits.specs.Limits.{material_refused, shell_refused, form_refused, pressure_refused};
ghost use Rattle.limits.specs.Limits.{temperature_refused, diameter_refused, allowance_refused};
ghost use Rattle.limits.specs.Limits.{width_refused, rib_refused, gasket_refused, bolts_refused};
ghost use Rattle.limits.specs.Limits.{bolt_stress_refused, circle_refused};
ghost use Rattle.limits.specs.Stress.{endplate_stress};

use crate::cause::Cause;
use crate::stress::{FORM_A, endplate_stress};
use crate::unbolted::{UNCHOSEN, UnboltedSheet};
use crate::{BlindFlangeSheet, EndplateSheet};

fn material_refused(material: u32) -> bool
    ensures { result ≡ any (material_refused material) }
{
    !(1..=11).contains(&material) || material == 7 || material == 9 || material == 11
}

fn form_refused(form: u32) -> bool
    ensures { result ≡ any (form_refused form) }
{
    !(1..=3).contains(&form)
}

fn shell_refused(form: u32, shell: u32) -> bool
    ensures { result ≡ any (shell_refused form shell) }
{
    11 < shell || (shell == 0) != (form == FORM_A)
}

fn pressure_refused(pressure: u32) -> bool
    ensures { result ≡ any (pressure_refused pressure) }
{
    pressure == 0 || 2000 < pressure
}

fn temperature_refused(temperature: u32) -> bool
    ensures { result ≡ any (temperature_refused temperature) }
{
    300 < temperature
}

fn diameter_refused(diameter: u32) -> bool
    ensures { result ≡ any (diameter_refused diameter) }
{
    !(500..=30000).contains(&diameter)
}

fn allowance_refused(allowance: u32) -> bool
    ensures { result ≡ any (allowance_refused allowance) }
{
    1000 < allowance
}

fn width_refused(od: u32, width: u32) -> bool
    ensures { result ≡ any (width_refused od width) }
{
    !(100..=500).contains(&width) || u64::from(od) < 4 * u64::from(width)
}

fn rib_refused(rib: u32, width: u32) -> bool
    ensures { result ≡ any (rib_refused rib width) }
{
    (rib == 0) != (width == 0) || 40000 < rib || 500 < width
}

fn gasket_refused(m: u32, y: u32) -> bool
    ensures { result ≡ any (gasket_refused m y) }
{
    650 < m || 1800 < y
}

fn bolts_refused(bolt: u32, root: u32, count: u32) -> bool
    ensures { result ≡ any (bolts_refused bolt root count) }
{
    let d = u64::from(bolt);
    !(12..=76).contains(&bolt)
        || root == 0
        || 785 * (d * d) < 100 * u64::from(root)
        || !(4..=100).contains(&count)
}

fn bolt_stress_refused(sa: u32, sb: u32) -> bool
    ensures { result ≡ any (bolt_stress_refused sa sb) }
{
    !(1..=400).contains(&sa) || !(1..=400).contains(&sb) || 4 * u64::from(sb) < u64::from(sa)
}

fn circle_refused(circle: u32, od: u32, bolt: u32, g: u32) -> bool
    ensures { result ≡ any (circle_refused circle od bolt g) }
{
    let c = u64::from(circle);
    c < u64::from(od) + 10 * u64::from(bolt) || 3 * u64::from(g) < 2 * c
}

// The cause where its test holds.
fn refuse_if(applies: bool, cause: Cause) -> Result<(), Cause>
    ensures { MatchResult result (λ _. IsFalse applies) (λ e. IsTrue applies × (e ≡ cause)) }
{
    if applies { Err(cause) } else { Ok(()) }
}

// The stress of an endplate whose numbers are within their limits, or the first cause that applies but for 14, in checking
// order.
#[tactic(auto, unfolding(crate::specs::Causes::first_of, crate::specs::Limits::endplate_causes))]
pub fn endplate_limits(s: EndplateSheet) -> Result<u32, Cause>
    ensures cause { cause_number result ≡ first_cause (endplate_causes s) }
    ensures stress { IfOk result
        (λ stress. stress ≡ endplate_stress s.form s.material s.shell s.temperature) }
{
    let material = form_refused(s.form)
        || material_refused(s.material)
        || shell_refused(s.form, s.shell);
    refuse_if(material, Cause::Material)?;
    refuse_if(pressure_refused(s.pressure), Cause::Pressure)?;
    refuse_if(temperature_refused(s.temperature), Cause::Temperature)?;
    let stress = endplate_stress(s.form, s.material, s.shell, s.temperature);
    let stress = stress.ok_or(Cause::NoStress)?;
    refuse_if(diameter_refused(s.diameter), Cause::Diameter)?;
    refuse_if(allowance_refused(s.allowance), Cause::Allowance)?;
    Ok(stress)
}

// S of a blind flange whose numbers are within their limits, or the first of the causes 2 to 9 and 17 that applies, in checking
// order.
#[tactic(auto, unfolding(crate::specs::Causes::first_of, crate::specs::Limits::flange_limits))]
pub fn flange_limits(s: BlindFlangeSheet) -> Result<u32, Cause>
    ensures cause { cause_number result ≡ first_cause (flange_limits s) }
    ensures stress { IfOk result (λ stress. stress ≡ design_stress_of s.material s.temperature) }
{
    refuse_if(material_refused(s.material), Cause::Material)?;
    refuse_if(pressure_refused(s.pressure), Cause::Pressure)?;
    refuse_if(temperature_refused(s.temperature), Cause::Temperature)?;
    let stress = tables::design_stress(s.material, s.temperature).ok_or(Cause::NoStress)?;
    refuse_if(diameter_refused(s.od), Cause::Diameter)?;
    refuse_if(allowance_refused(s.allowance), Cause::Allowance)?;
    refuse_if(width_refused(s.od, s.width), Cause::Width)?;
    refuse_if(rib_refused(s.rib, s.rib_width), Cause::Rib)?;
    refuse_if(gasket_refused(s.m, s.y), Cause::Gasket)?;
    Ok(stress)
}

// S of a blind flange whose numbers but for the bolts are within their limits, or the first of the causes 2 to 9, 17 and 11 that
// applies, in checking order.
pub fn unbolted_limits(s: UnboltedSheet) -> Result<u32, Cause>
    ensures cause { cause_number result ≡ first_cause (unbolted_limits s) }
    ensures stress { IfOk result (λ stress. stress ≡ design_stress_of s.material s.temperature) }
{
    let stress = flange_limits(s.bolted(UNCHOSEN))?;
    refuse_if(bolt_stress_refused(s.sa, s.sb), Cause::BoltStress)?;
    Ok(stress)
}

// The first of the causes 10 to 12 that applies, G being that of the gasket.
#[tactic(auto, unfolding(crate::specs::Causes::first_of, crate::specs::Limits::bolting_limits))]
pub fn bolting_limits(s: BlindFlangeSheet, g: u32) -> Result<(), Cause>
    ensures { cause_number result ≡ first_cause (bolting_limits s g) }
{
    refuse_if(bolts_refused(s.bolt, s.root, s.count), Cause::Bolts)?;
    refuse_if(bolt_stress_refused(s.sa, s.sb), Cause::BoltStress)?;
    refuse_if(circle_refused(s.circle, s.od, s.bolt, g), Cause::Circle)
}
