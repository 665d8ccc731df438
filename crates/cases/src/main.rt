// Runs the sheet reader, books of sheets and their summaries, the calculations, the choice of a plate, the look-up of support
// plates, Table 1 and the root arithmetic on the vectors on standard input. Each line written is a vector and its answer; the
// file stdout has what must be written. The separate program makes both files: host/vectors.c.
#![tactic(auto)]

mod answers;
mod arithmetic;
mod blind_flange;
mod bolts;
mod books;
mod choice;
mod endplate;
mod line;
mod output;
mod sheets;
mod signs;
mod spaces;
mod support_plates;
mod vectors;
mod words;

// A read that fails counts as the end of the input, and a write that fails is passed over: neither is told, and the status is 0.
fn main() {
    vectors::run();
}
