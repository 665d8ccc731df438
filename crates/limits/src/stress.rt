// Design stress of an endplate.
ghost use Rattle.std.specs.Prelude.{◌≡◌};
ghost use Rattle.tables.specs.DesignStress.{nonzero};
ghost use Rattle.limits.specs.Stress.{endplate_stress};

// Form a of an endplate, whose shell is not in use. A number: the form is a sheet's and C's own, of any value until it is
// tested.
pub(crate) const FORM_A: u32 = 1;

// F: the stress of an endplate, N/mm²; None where a material in use has none.
#[tactic(auto, unfolding(crate::specs::Stress::endplate_stress))]
pub fn endplate_stress(form: u32, material: u32, shell: u32, temperature: u32) -> Option<u32>
    ensures { result ≡ nonzero (endplate_stress form material shell temperature) }
{
    let plate = tables::design_stress(material, temperature)?;
    if form == FORM_A {
        return Some(plate);
    }
    let cylinder = tables::design_stress(shell, temperature)?;
    Some(plate.min(cylinder))
}
