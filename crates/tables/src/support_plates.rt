// Tables 13 and 14: baffles and support plates. All in whole mm; a span is the unsupported length of straight tube.
ghost use Rattle.std.specs.Prelude.{◌≡◌};
ghost use Rattle.tables.specs.DesignStress.{nonzero};
ghost use Rattle.tables.specs.SupportPlates.{longest_span_of, plate_thickness_of};

use crate::by_limits::{first_not_below, last_not_above};

// Table 13: maximum unsupported length of straight tubes. A row for each tube, a column for steel and one for copper.
const LONGEST_SPANS: [[u32; 2]; 10] = [
    [650, 550],
    [875, 750],
    [1100, 950],
    [1300, 1125],
    [1500, 1300],
    [1675, 1450],
    [1850, 1600],
    [2200, 1900],
    [2500, 2200],
    [3000, 2750],
];

// Its rows: least outside diameter of the tube, fins included.
const TUBES: [u32; 10] = [6, 10, 12, 16, 19, 22, 25, 32, 38, 50];

// The longest span of a tube of this outside diameter in a group, 1 steel or 2 copper; None where Table 13 has none.
pub fn longest_span(tube: u32, group: u32) -> Option<u32>
    ensures { result ≡ nonzero (longest_span_of tube group) }
{
    let [steel, copper] = LONGEST_SPANS[last_not_above(&TUBES, tube)?];
    match group {
        1 => Some(steel),
        2 => Some(copper),
        _ => None,
    }
}

// Table 14: minimum thickness of a transverse baffle or support plate. A row for each plate, a column for each span.
const THICKNESSES: [[u32; 5]; 3] = [[3, 5, 6, 10, 10], [5, 6, 10, 10, 13], [6, 8, 10, 13, 16]];

// Its rows: plate diameter not exceeding.
const PLATES: [u32; 3] = [350, 700, 1000];

// Its columns: span not exceeding.
const SPANS: [u32; 5] = [600, 900, 1200, 1500, 3000];

// The least thickness of a plate of this diameter at this span; None where Table 14 has none.
pub fn plate_thickness(span: u32, diameter: u32) -> Option<u32>
    ensures { result ≡ nonzero (plate_thickness_of span diameter) }
{
    let row = THICKNESSES[first_not_below(&PLATES, diameter)?];
    Some(row[first_not_below(&SPANS, span)?])
}
