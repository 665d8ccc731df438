// The numbers of a call as those of a sheet, in the order of its lines: C passes them one by one.
ghost use Rattle.std.specs.Prelude.{◌≡◌};
ghost use Rattle.capi.specs.Call.{endplate_call, blind_flange_call};

use rules::{BlindFlangeSheet, EndplateSheet};

pub(crate) fn endplate_call(
    form: u32,
    material: u32,
    shell: u32,
    temperature: u32,
    pressure: u32,
    diameter: u32,
    allowance: u32,
) -> EndplateSheet
    ensures { result ≡ endplate_call form material shell temperature pressure diameter allowance }
{
    EndplateSheet {
        form,
        material,
        shell,
        temperature,
        pressure,
        diameter,
        allowance,
    }
}

pub(crate) fn blind_flange_call(
    material: u32,
    temperature: u32,
    pressure: u32,
    allowance: u32,
    od: u32,
    width: u32,
    rib: u32,
    rib_width: u32,
    m: u32,
    y: u32,
    circle: u32,
    bolt: u32,
    root: u32,
    count: u32,
    sa: u32,
    sb: u32,
) -> BlindFlangeSheet
    ensures { let s =
        blind_flange_call material temperature pressure allowance od width rib rib_width m y circle bolt root count sa sb in
        result ≡ s }
{
    BlindFlangeSheet {
        material,
        temperature,
        pressure,
        allowance,
        od,
        width,
        rib,
        rib_width,
        m,
        y,
        circle,
        bolt,
        root,
        count,
        sa,
        sb,
    }
}
