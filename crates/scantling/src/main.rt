// Reads one sheet on standard input, at most 4,096 bytes of it, and prints its report.
#![tactic(auto)]

ghost use Rattle.std.specs.Prelude.{◌≤◌, ◌≡◌, length, take};
ghost use Rattle.report.specs.Report.{longest};
ghost use Rattle.sheet.specs.Outcome.{report_for};

use sheet::write_report;

// Writes the sheet's report to the front of `out`, and answers its length.
fn report_of(text: &[u8], out: &mut [u8]) -> usize
    requires { longest ≤ length out.old }
    ensures out_after { take result out.new ≡ report_for text.now }
    ensures short { result ≤ longest }
{
    write_report(text, out)
}

// By the kit's `io`: it fills the array in one call. std's readers would take a loop of ours for that, and assume one more
// of C's functions (errno) than read and write.
fn main() {
    let mut input = [0u8; 4096];
    let size = io::read_full(0, &mut input);
    let mut space = [0u8; report::LONGEST];
    let length = report_of(&input[..size], &mut space);
    io::write_all(1, &space[..length]);
}
