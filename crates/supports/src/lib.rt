// Baffles and support plates to BS 853-2:1996, clause 10.6: how far apart, and how thick. All in whole mm.
#![tactic(auto)]

ghost use Rattle.std.specs.Prelude.{◌≡◌};
ghost use Rattle.supports.specs.SupportPlate.{number_of, numbers_for, numbers_of};

// Cause of a refusal, by its number in document 02. Only this call has them: no sheet meets them.
#[derive(Clone, Copy, Debug, PartialEq, Eq)]
pub enum Cause {
    // The tube's diameter is below 6, or its group is neither of the two.
    Tube = 18,
    // The span is over the longest allowed.
    Span = 19,
    // The plate's diameter is over 1000.
    Plate = 20,
}

impl Cause {
    // The number in document 02.
    pub fn number(self) -> u32
        ensures { result ≡ number_of self }
    {
        self as u32
    }
}

// What the two tables say.
#[derive(Clone, Copy)]
pub struct SupportPlate {
    // The longest allowed span of the tubes: Table 13.
    pub longest_span: u32,
    // The least thickness of the plate: Table 14.
    pub thickness: u32,
}

// The longest allowed span of a tube of this outside diameter in a group, 1 steel or 2 copper, and the least thickness of a plate
// of this diameter that supports it at this span; or the first cause to refuse them.
#[tactic(auto, using(crate::proofs::Laws::under_18, crate::proofs::Laws::under_19, crate::proofs::Laws::under_20, crate::proofs::Laws::answered))]
pub fn support_plate(tube: u32, group: u32, span: u32, diameter: u32) -> Result<SupportPlate, Cause>
    ensures { numbers_of result ≡ numbers_for tube group span diameter }
{
    let longest_span = tables::longest_span(tube, group).ok_or(Cause::Tube)?;
    if span > longest_span {
        return Err(Cause::Span);
    }
    let thickness = tables::plate_thickness(span, diameter).ok_or(Cause::Plate)?;
    Ok(SupportPlate {
        longest_span,
        thickness,
    })
}
