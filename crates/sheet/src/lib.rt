// A sheet of key=value lines from its bytes to its report.
#![tactic(auto)]

mod answers;

ghost use Rattle.std.specs.Prelude.{◌≤◌, ◌≡◌};
ghost use Rattle.rules.specs.Answer.{report_of};
ghost use Rattle.report.specs.Report.{longest};
ghost use Rattle.sheet.specs.Sheet.{sheet_of, answer_of, sheet_report};
ghost use Rattle.sheet.specs.Outcome.{in_numbers, outcome_of, space_of, cause_of, figure_of, length_of};
ghost use Rattle.sheet.specs.Outcome.{cause_for, figure_for, length_for};
ghost use Rattle.sheet.specs.Exact.{SheetExact};

pub use answers::answer_to;
use rules::Refusal;

// What became of a sheet; `length` is that of its report. Three cases and no Result: a refused sheet has its report written,
// which would be Ok, and an accepted one may have none, which would be Err.
#[derive(Clone, Copy)]
pub enum Outcome {
    // The report of an accepted sheet is written.
    Report { length: usize },
    // Causes 1 to 14 and 17: the report of two lines is written.
    Refused { refusal: Refusal, length: usize },
    // Cause 15: the space is shorter than the report, and as it was. The figure is the length needed.
    ShortSpace { length: usize },
}

impl Outcome {
    // The length of the report that results, whether it was written or not.
    pub fn length(self) -> usize
        ensures { result ≡ length_of (in_numbers self) }
    {
        match self {
            Outcome::Report { length } => length,
            Outcome::Refused { refusal: _, length } => length,
            Outcome::ShortSpace { length } => length,
        }
    }
}

// Answers the sheet in `text`, and writes its report to the front of `out`. Its promises stand again at `write_report` and at
// C's call, each of which is called by itself.
pub fn answer(text: &[u8], out: &mut [u8]) -> Outcome
    ensures value { in_numbers result ≡ outcome_of text.now out.old }
    ensures numbers { let t = text.now in
        let d = out.old in
        let outcome = in_numbers result in
        (cause_of outcome ≡ cause_for t d)
        × (figure_of outcome ≡ figure_for t d)
        × (length_of outcome ≡ length_for t)
        × (report_of (answer_of t) ≡ sheet_report (sheet_of t)) }
    ensures content { out.new ≡ space_of text.now out.old }
    ensures exact { SheetExact text.now }
    ensures short { length_of (in_numbers result) ≤ longest }
{
    let answer = answer_to(text);
    let length = report::write(answer, out, 0);
    if out.len() < length {
        return Outcome::ShortSpace { length };
    }
    match answer {
        Ok(_) => Outcome::Report { length },
        Err(refusal) => Outcome::Refused { refusal, length },
    }
}

// Answers the sheet for callers who want its report alone: the length of the one that results. It stands at the front
// of `out` if that is long enough; otherwise `out` is as it was.
pub fn write_report(text: &[u8], out: &mut [u8]) -> usize
    ensures value { result ≡ length_for text.now }
    ensures content { out.new ≡ space_of text.now out.old }
    ensures exact { SheetExact text.now }
    ensures short { result ≤ longest }
{
    answer(text, out).length()
}
