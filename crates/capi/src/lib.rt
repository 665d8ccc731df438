// What C calls. include/scantling.h says it for C, with the units and ranges. Numbers one by one, and a call of its own for
// the usual stock: C has no struct of ours and no generics.
#![tactic(auto)]

ghost use Rattle.std.specs.Prelude.{◌≤◌, ◌≡◌, get_or, length};
ghost use Rattle.root.specs.Root.{least_root};
ghost use Rattle.plates.specs.Entries.{numbers_in, plates_in};
ghost use Rattle.plates.specs.Plates.{standard_plates};
ghost use Rattle.rules.specs.Answer.{endplate_answer, blind_flange_answer};
ghost use Rattle.rules.specs.BoltedAnswer.{bolted_answer};
ghost use Rattle.report.specs.Report.{longest};
ghost use Rattle.sheet.specs.Outcome.{length_for, space_of};
ghost use Rattle.sheet.specs.Exact.{SheetExact};
ghost use Rattle.batch.specs.Book.{book_space, longest_batch, numbers_for, reports_for};
ghost use Rattle.batch.specs.Exact.{BookExact};
ghost use Rattle.batch.specs.Summary.{longest_summary, summary_for, summary_space};
ghost use Rattle.supports.specs.SupportPlate.{numbers_for as support_numbers_for};
ghost use Rattle.capi.specs.Call.{endplate_call, blind_flange_call, unbolted_call};
ghost use Rattle.capi.specs.Places.{figure_at, EndplateFigureExact, BlindFlangeFigureExact};
ghost use Rattle.capi.specs.Places.{bolted_figure_at, BoltedFigureExact};

mod call;
mod places;
mod unbolted;

use call::{blind_flange_call, endplate_call};
use places::{at, bolted_figure_at, figure_at, support_at};
use plates::{in_bytes, numbers_in_bytes, standard_plates};
use unbolted::unbolted_call;

// One figure of an endplate, by its place. The plates are bytes, eight to a plate: thickness, then minus, each lowest
// byte first.
pub fn scantling_endplate(
    form: u32,
    material: u32,
    shell: u32,
    temperature: u32,
    pressure: u32,
    diameter: u32,
    allowance: u32,
    plates: &[u8],
    place: u32,
) -> u64
    ensures figure { let s = endplate_call form material shell temperature pressure diameter allowance in
        result ≡ figure_at (endplate_answer s (plates_in (numbers_in plates.now))) place }
    ensures exact { let s = endplate_call form material shell temperature pressure diameter allowance in
        EndplateFigureExact s (endplate_answer s (plates_in (numbers_in plates.now))) place result }
{
    let sheet = endplate_call(
        form,
        material,
        shell,
        temperature,
        pressure,
        diameter,
        allowance,
    );
    figure_at(rules::endplate(sheet, in_bytes(plates)), place)
}

// One figure of a blind flange, in the same way.
pub fn scantling_blind_flange(
    material: u32,
    temperature: u32,
    pressure: u32,
    allowance: u32,
    od: u32,
    width: u32,
    rib: u32,
    rib_width: u32,
    m: u32,
    y: u32,
    circle: u32,
    bolt: u32,
    root: u32,
    count: u32,
    sa: u32,
    sb: u32,
    plates: &[u8],
    place: u32,
) -> u64
    ensures figure { let s =
        blind_flange_call material temperature pressure allowance od width rib rib_width m y circle bolt root count sa sb in
        result ≡ figure_at (blind_flange_answer s (plates_in (numbers_in plates.now))) place }
    ensures exact { let s =
        blind_flange_call material temperature pressure allowance od width rib rib_width m y circle bolt root count sa sb in
        BlindFlangeFigureExact s (blind_flange_answer s (plates_in (numbers_in plates.now))) place result }
{
    let sheet = blind_flange_call(
        material,
        temperature,
        pressure,
        allowance,
        od,
        width,
        rib,
        rib_width,
        m,
        y,
        circle,
        bolt,
        root,
        count,
        sa,
        sb,
    );
    figure_at(rules::blind_flange(sheet, in_bytes(plates)), place)
}

// One figure of an endplate, by its place, with the plate from the usual stock.
pub fn scantling_endplate_standard(
    form: u32,
    material: u32,
    shell: u32,
    temperature: u32,
    pressure: u32,
    diameter: u32,
    allowance: u32,
    place: u32,
) -> u64
    ensures figure { let s = endplate_call form material shell temperature pressure diameter allowance in
        result ≡ figure_at (endplate_answer s standard_plates) place }
    ensures exact { let s = endplate_call form material shell temperature pressure diameter allowance in
        EndplateFigureExact s (endplate_answer s standard_plates) place result }
{
    let sheet = endplate_call(
        form,
        material,
        shell,
        temperature,
        pressure,
        diameter,
        allowance,
    );
    figure_at(rules::endplate(sheet, &standard_plates()), place)
}

// One figure of a blind flange, in the same way.
pub fn scantling_blind_flange_standard(
    material: u32,
    temperature: u32,
    pressure: u32,
    allowance: u32,
    od: u32,
    width: u32,
    rib: u32,
    rib_width: u32,
    m: u32,
    y: u32,
    circle: u32,
    bolt: u32,
    root: u32,
    count: u32,
    sa: u32,
    sb: u32,
    place: u32,
) -> u64
    ensures figure { let s =
        blind_flange_call material temperature pressure allowance od width rib rib_width m y circle bolt root count sa sb in
        result ≡ figure_at (blind_flange_answer s standard_plates) place }
    ensures exact { let s =
        blind_flange_call material temperature pressure allowance od width rib rib_width m y circle bolt root count sa sb in
        BlindFlangeFigureExact s (blind_flange_answer s standard_plates) place result }
{
    let sheet = blind_flange_call(
        material,
        temperature,
        pressure,
        allowance,
        od,
        width,
        rib,
        rib_width,
        m,
        y,
        circle,
        bolt,
        root,
        count,
        sa,
        sb,
    );
    figure_at(rules::blind_flange(sheet, &standard_plates()), place)
}

// One figure of a blind flange whose bolts are chosen from a list of sizes, in the same way: diameters and root areas are
// bytes, four to a number, lowest first.
pub fn scantling_blind_flange_bolts(
    material: u32,
    temperature: u32,
    pressure: u32,
    allowance: u32,
    od: u32,
    width: u32,
    rib: u32,
    rib_width: u32,
    m: u32,
    y: u32,
    circle: u32,
    sa: u32,
    sb: u32,
    diameters: &[u8],
    areas: &[u8],
    plates: &[u8],
    place: u32,
) -> u64
    ensures figure { let s = unbolted_call material temperature pressure allowance od width rib rib_width m y circle sa sb in
        let ds = numbers_in diameters.now in
        let rs = numbers_in areas.now in
        result ≡ bolted_figure_at (bolted_answer s ds rs (plates_in (numbers_in plates.now))) place }
    ensures exact { let s = unbolted_call material temperature pressure allowance od width rib rib_width m y circle sa sb in
        let ds = numbers_in diameters.now in
        let rs = numbers_in areas.now in
        BoltedFigureExact s (bolted_answer s ds rs (plates_in (numbers_in plates.now))) place result }
{
    let sheet = unbolted_call(
        material,
        temperature,
        pressure,
        allowance,
        od,
        width,
        rib,
        rib_width,
        m,
        y,
        circle,
        sa,
        sb,
    );
    let diameters = numbers_in_bytes(diameters);
    let areas = numbers_in_bytes(areas);
    let answer = rules::blind_flange_bolts(sheet, diameters, areas, in_bytes(plates));
    bolted_figure_at(answer, place)
}

// One figure of a baffle or support plate, by its place: 2 the longest span of the tubes, 3 the least thickness.
pub fn scantling_support_plate(tube: u32, group: u32, span: u32, plate: u32, place: u32) -> u64
    ensures { result ≡ get_or (support_numbers_for tube group span plate) place 0 }
{
    support_at(supports::support_plate(tube, group, span, plate), place)
}

// Answers the sheet in `text`: the length of the report that results. It stands at the front of `out` if that is long
// enough; otherwise `out` is as it was.
pub fn scantling_sheet(text: &[u8], out: &mut [u8]) -> usize
    ensures value { result ≡ length_for text.now }
    ensures content { out.new ≡ space_of text.now out.old }
    ensures exact { SheetExact text.now }
    ensures short { result ≤ longest }
{
    sheet::write_report(text, out)
}

// Answers the book of sheets in `text` and writes its reports to the front of `out`, whichever number is asked: by its place
// the cause, the cause's figure, the count of the pieces worked, or the length written.
pub fn scantling_batch(text: &[u8], limit: u32, out: &mut [u8], place: u32) -> u64
    ensures number { result ≡ get_or (numbers_for text.now limit out.old) place 0 }
    ensures content { out.new ≡ book_space text.now limit out.old }
    ensures exact { BookExact text.now limit }
    ensures short { length (reports_for text.now limit) ≤ longest_batch }
{
    at(&batch::answer(text, limit, out).numbers(), place)
}

// Summarises the first pieces of the book in `text`: the length of the summary. It stands at the front of `out` if that is
// long enough; otherwise `out` is as it was.
pub fn scantling_summary(text: &[u8], out: &mut [u8]) -> usize
    ensures value { result ≡ length (summary_for text.now) }
    ensures content { out.new ≡ summary_space text.now out.old }
    ensures short { result ≤ longest_summary }
{
    match batch::summary(text, out) {
        Ok(length) => length,
        Err(short) => short.length,
    }
}

// The least root by itself, for measuring.
pub fn scantling_least_root(n: u64) -> u64
    ensures { result ≡ least_root n }
{
    root::least_root(n)
}
