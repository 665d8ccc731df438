// The numbers of a call for a blind flange whose bolts are chosen, as call.rt has those of the others.
ghost use Rattle.std.specs.Prelude.{◌≡◌};
ghost use Rattle.capi.specs.Call.{unbolted_call};

use rules::UnboltedSheet;

pub(crate) fn unbolted_call(
    material: u32,
    temperature: u32,
    pressure: u32,
    allowance: u32,
    od: u32,
    width: u32,
    rib: u32,
    rib_width: u32,
    m: u32,
    y: u32,
    circle: u32,
    sa: u32,
    sb: u32,
) -> UnboltedSheet
    ensures { result ≡ unbolted_call material temperature pressure allowance od width rib rib_width m y circle sa sb }
{
    UnboltedSheet {
        material,
        temperature,
        pressure,
        allowance,
        od,
        width,
        rib,
        rib_width,
        m,
        y,
        circle,
        sa,
        sb,
    }
}
