// The exports of `capi` to C, under its names and with its promises. include/scantling.h says it for C. A static library has no
// callers in Rattle, so `cases` calls `capi`.
#![tactic(auto)]

ghost use Rattle.std.specs.Prelude.{◌≤◌, ◌≡◌, get_or, length};
ghost use Rattle.root.specs.Root.{least_root};
ghost use Rattle.plates.specs.Entries.{numbers_in, plates_in};
ghost use Rattle.plates.specs.Plates.{standard_plates};
ghost use Rattle.rules.specs.Answer.{endplate_answer, blind_flange_answer};
ghost use Rattle.rules.specs.BoltedAnswer.{bolted_answer};
ghost use Rattle.report.specs.Report.{longest};
ghost use Rattle.sheet.specs.Outcome.{length_for, space_of};
ghost use Rattle.sheet.specs.Exact.{SheetExact};
ghost use Rattle.batch.specs.Book.{book_space, longest_batch, numbers_for, reports_for};
ghost use Rattle.batch.specs.Exact.{BookExact};
ghost use Rattle.batch.specs.Summary.{longest_summary, summary_for, summary_space};
ghost use Rattle.supports.specs.SupportPlate.{numbers_for as support_numbers_for};
ghost use Rattle.capi.specs.Call.{endplate_call, blind_flange_call, unbolted_call};
ghost use Rattle.capi.specs.Places.{figure_at, EndplateFigureExact, BlindFlangeFigureExact};
ghost use Rattle.capi.specs.Places.{bolted_figure_at, BoltedFigureExact};

// One figure of an endplate, by its place. The plates are bytes, eight to a plate: thickness, then minus, each lowest
// byte first.
#[unsafe(no_mangle)]
pub extern "C" fn scantling_endplate(
    form: u32,
    material: u32,
    shell: u32,
    temperature: u32,
    pressure: u32,
    diameter: u32,
    allowance: u32,
    plates: &[u8],
    place: u32,
) -> u64
    ensures figure { let s = endplate_call form material shell temperature pressure diameter allowance in
        result ≡ figure_at (endplate_answer s (plates_in (numbers_in plates.now))) place }
    ensures exact { let s = endplate_call form material shell temperature pressure diameter allowance in
        EndplateFigureExact s (endplate_answer s (plates_in (numbers_in plates.now))) place result }
{
    capi::scantling_endplate(
        form,
        material,
        shell,
        temperature,
        pressure,
        diameter,
        allowance,
        plates,
        place,
    )
}

// One figure of a blind flange, in the same way.
#[unsafe(no_mangle)]
pub extern "C" fn scantling_blind_flange(
    material: u32,
    temperature: u32,
    pressure: u32,
    allowance: u32,
    od: u32,
    width: u32,
    rib: u32,
    rib_width: u32,
    m: u32,
    y: u32,
    circle: u32,
    bolt: u32,
    root: u32,
    count: u32,
    sa: u32,
    sb: u32,
    plates: &[u8],
    place: u32,
) -> u64
    ensures figure { let s =
        blind_flange_call material temperature pressure allowance od width rib rib_width m y circle bolt root count sa sb in
        result ≡ figure_at (blind_flange_answer s (plates_in (numbers_in plates.now))) place }
    ensures exact { let s =
        blind_flange_call material temperature pressure allowance od width rib rib_width m y circle bolt root count sa sb in
        BlindFlangeFigureExact s (blind_flange_answer s (plates_in (numbers_in plates.now))) place result }
{
    capi::scantling_blind_flange(
        material,
        temperature,
        pressure,
        allowance,
        od,
        width,
        rib,
        rib_width,
        m,
        y,
        circle,
        bolt,
        root,
        count,
        sa,
        sb,
        plates,
        place,
    )
}

// One figure of an endplate, by its place, with the plate from the usual stock.
#[unsafe(no_mangle)]
pub extern "C" fn scantling_endplate_standard(
    form: u32,
    material: u32,
    shell: u32,
    temperature: u32,
    pressure: u32,
    diameter: u32,
    allowance: u32,
    place: u32,
) -> u64
    ensures figure { let s = endplate_call form material shell temperature pressure diameter allowance in
        result ≡ figure_at (endplate_answer s standard_plates) place }
    ensures exact { let s = endplate_call form material shell temperature pressure diameter allowance in
        EndplateFigureExact s (endplate_answer s standard_plates) place result }
{
    capi::scantling_endplate_standard(
        form,
        material,
        shell,
        temperature,
        pressure,
        diameter,
        allowance,
        place,
    )
}

// One figure of a blind flange, in the same way.
#[unsafe(no_mangle)]
pub extern "C" fn scantling_blind_flange_standard(
    material: u32,
    temperature: u32,
    pressure: u32,
    allowance: u32,
    od: u32,
    width: u32,
    rib: u32,
    rib_width: u32,
    m: u32,
    y: u32,
    circle: u32,
    bolt: u32,
    root: u32,
    count: u32,
    sa: u32,
    sb: u32,
    place: u32,
) -> u64
    ensures figure { let s =
        blind_flange_call material temperature pressure allowance od width rib rib_width m y circle bolt root count sa sb in
        result ≡ figure_at (blind_flange_answer s standard_plates) place }
    ensures exact { let s =
        blind_flange_call material temperature pressure allowance od width rib rib_width m y circle bolt root count sa sb in
        BlindFlangeFigureExact s (blind_flange_answer s standard_plates) place result }
{
    capi::scantling_blind_flange_standard(
        material,
        temperature,
        pressure,
        allowance,
        od,
        width,
        rib,
        rib_width,
        m,
        y,
        circle,
        bolt,
        root,
        count,
        sa,
        sb,
        place,
    )
}

// One figure of a blind flange whose bolts are chosen from a list of sizes, in the same way: diameters and root areas are
// bytes, four to a number, lowest first.
#[unsafe(no_mangle)]
pub extern "C" fn scantling_blind_flange_bolts(
    material: u32,
    temperature: u32,
    pressure: u32,
    allowance: u32,
    od: u32,
    width: u32,
    rib: u32,
    rib_width: u32,
    m: u32,
    y: u32,
    circle: u32,
    sa: u32,
    sb: u32,
    diameters: &[u8],
    areas: &[u8],
    plates: &[u8],
    place: u32,
) -> u64
    ensures figure { let s = unbolted_call material temperature pressure allowance od width rib rib_width m y circle sa sb in
        let ds = numbers_in diameters.now in
        let rs = numbers_in areas.now in
        result ≡ bolted_figure_at (bolted_answer s ds rs (plates_in (numbers_in plates.now))) place }
    ensures exact { let s = unbolted_call material temperature pressure allowance od width rib rib_width m y circle sa sb in
        let ds = numbers_in diameters.now in
        let rs = numbers_in areas.now in
        BoltedFigureExact s (bolted_answer s ds rs (plates_in (numbers_in plates.now))) place result }
{
    capi::scantling_blind_flange_bolts(
        material,
        temperature,
        pressure,
        allowance,
        od,
        width,
        rib,
        rib_width,
        m,
        y,
        circle,
        sa,
        sb,
        diameters,
        areas,
        plates,
        place,
    )
}

// One figure of a baffle or support plate, by its place: 2 the longest span of the tubes, 3 the least thickness.
#[unsafe(no_mangle)]
pub extern "C" fn scantling_support_plate(
    tube: u32,
    group: u32,
    span: u32,
    plate: u32,
    place: u32,
) -> u64
    ensures { result ≡ get_or (support_numbers_for tube group span plate) place 0 }
{
    capi::scantling_support_plate(tube, group, span, plate, place)
}

// Answers the sheet in `text`: the length of the report that results. It stands at the front of `out` if that is long
// enough; otherwise `out` is as it was.
#[unsafe(no_mangle)]
pub extern "C" fn scantling_sheet(text: &[u8], out: &mut [u8]) -> usize
    ensures value { result ≡ length_for text.now }
    ensures content { out.new ≡ space_of text.now out.old }
    ensures exact { SheetExact text.now }
    ensures short { result ≤ longest }
{
    capi::scantling_sheet(text, out)
}

// Answers the book of sheets in `text` and writes its reports to the front of `out`, whichever number is asked: by its place
// the cause, the cause's figure, the count of the pieces worked, or the length written.
#[unsafe(no_mangle)]
pub extern "C" fn scantling_batch(text: &[u8], limit: u32, out: &mut [u8], place: u32) -> u64
    ensures number { result ≡ get_or (numbers_for text.now limit out.old) place 0 }
    ensures content { out.new ≡ book_space text.now limit out.old }
    ensures exact { BookExact text.now limit }
    ensures short { length (reports_for text.now limit) ≤ longest_batch }
{
    capi::scantling_batch(text, limit, out, place)
}

// Summarises the first pieces of the book in `text`: the length of the summary. It stands at the front of `out` if that is
// long enough; otherwise `out` is as it was.
#[unsafe(no_mangle)]
pub extern "C" fn scantling_summary(text: &[u8], out: &mut [u8]) -> usize
    ensures value { result ≡ length (summary_for text.now) }
    ensures content { out.new ≡ summary_space text.now out.old }
    ensures short { result ≤ longest_summary }
{
    capi::scantling_summary(text, out)
}

// The least root by itself, for measuring.
#[unsafe(no_mangle)]
pub extern "C" fn scantling_least_root(n: u64) -> u64
    ensures { result ≡ least_root n }
{
    capi::scantling_least_root(n)
}
