// The report of an answer, laid into lent space, and a line of key and number for other texts.
#![tactic(auto)]

mod lines;

ghost use Rattle.std.specs.Prelude.{◌≤◌, ◌≡◌, length};
ghost use Rattle.report.specs.Report.{report_text, longest};
ghost use Rattle.report.specs.Space.{laid};

pub use lines::{Refused, Text, Told, add_line};

// No report is longer.
pub const LONGEST: usize = 319;

// The length of the answer's report. Where it fits, the report stands in `out` from index `at` on; where it does not,
// `out` is as it was. The length is answered all the same, for a caller who asks again with more space.
pub fn write<A: Told>(answer: A, out: &mut [u8], at: usize) -> usize
    ensures value { result ≡ length (report_text (A.told answer)) }
    ensures content { out.new ≡ laid at (report_text (A.told answer)) out.old }
    ensures short { result ≤ longest }
{
    let text = answer.text();
    let length = text.len();
    // Not `get_mut`: its contract is silent on what `out` holds after a write.
    if at <= out.len() && length <= out.len() - at {
        out[at..at + length].copy_from_slice(&text);
    }
    length
}
