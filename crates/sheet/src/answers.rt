// The answer to a sheet: cause 1 with the line at fault, or what the rules say of its numbers.
ghost use Rattle.std.specs.Prelude.{◌≡◌, true, false};
ghost use Rattle.limits.specs.declared.cause.Cause.TheVariants.{Malformed as Cause-as-Malformed};
ghost use Rattle.rules.specs.Answer.{cause_of, figure_of, report_of, in_numbers};
ghost use Rattle.sheet.specs.Sheet.{named_part, read, sheet_of};
ghost use Rattle.sheet.specs.Sheet.{answer_of, sheet_cause, sheet_figure, sheet_report};
ghost use Rattle.sheet.specs.Exact.{AnswerExact, Answered};
ghost use Rattle.lines.specs.Fields.{fields_of};
ghost use Rattle.lines.specs.Lines.{lines_of};

use lines::{Malformed, blind_flange, endplate, read_lines};
use rules::{Answer, BlindFlangeSheet, Cause, EndplateSheet, Refusal};
use text::{line_value, next_line};

// Cause 1, with the number of the line at fault. No `From`: both types are other crates'.
fn refused(malformed: Malformed) -> Refusal
    ensures { result ≡ record { cause = Cause-as-Malformed; figure = malformed.line } }
{
    Refusal {
        cause: Cause::Malformed,
        figure: malformed.line as u64,
    }
}

// The answer to the lines of an endplate after the first.
fn endplate_answer(lines: &[u8]) -> Answer
    ensures { Answered (read false (lines_of 2 (fields_of false) lines.now)) (in_numbers result) }
{
    let read = read_lines(lines, &endplate::FIELDS).map_err(refused)?;
    rules::endplate(EndplateSheet::from(read.values), read.plates.as_slice())
}

// The same of a blind flange, whose fields, numbers and calculation are others.
fn blind_flange_answer(lines: &[u8]) -> Answer
    ensures { Answered (read true (lines_of 2 (fields_of true) lines.now)) (in_numbers result) }
{
    let read = read_lines(lines, &blind_flange::FIELDS).map_err(refused)?;
    rules::blind_flange(BlindFlangeSheet::from(read.values), read.plates.as_slice())
}

// The part that a sheet is of.
#[derive(Clone, Copy)]
enum Part {
    Endplate,
    BlindFlange,
}

// The part that the first line names.
fn named_part(text: &[u8]) -> Option<Part>
    ensures { result ≡ named_part text.now }
{
    match line_value(text, b"part")? {
        b"end" => Some(Part::Endplate),
        b"blind" => Some(Part::BlindFlange),
        _ => None,
    }
}

// The answer to the sheet in `text`, before it is text itself. Inlined: handing an answer over takes 6 % of an endplate's sheet.
#[inline(always)]
pub fn answer_to(text: &[u8]) -> Answer
    ensures value { in_numbers result ≡ answer_of text.now }
    ensures numbers { let s = sheet_of text.now in
        let answer = in_numbers result in
        (cause_of answer ≡ sheet_cause s) × (figure_of answer ≡ sheet_figure s) × (report_of answer ≡ sheet_report s) }
    ensures exact { AnswerExact (sheet_of text.now) (in_numbers result) }
{
    match named_part(text) {
        Some(Part::Endplate) => endplate_answer(next_line(text)),
        Some(Part::BlindFlange) => blind_flange_answer(next_line(text)),
        None => Err(refused(Malformed { line: 1 })),
    }
}
