// Replays a recorded list of the oracle's answers, read from standard input. A line is a call's name, its arguments, `=`
// and the answer, all numbers hexadecimal; the call is computed again by this repository's code. Prints for each group of
// lines with one name how many agreed, and the sums at the end. A line that differs, or that cannot be read, is shown with
// its number. A line that starts with # is a comment.
#![tactic(auto)]

mod calls;
mod function;
mod kept;
mod numbers;
mod record;
mod report;

use kept::Kept;
use report::{KEPT, Report};
use std::io;
use std::io::Read;

fn main(rt: HostRuntime) -> io::Result<()> {
    let mut report = Report::new();
    let mut line = Kept::<KEPT>::new();
    let mut input = rt.reader();
    // Kept: an array and no `BufReader`, which needs a heap. A proved loop has to end, and nothing says that the input does, so the
    // loop has a bound that no list reaches.
    for _turn in 0..u64::MAX {
        let mut bytes = [0; 4096];
        let n = input.read(&mut bytes)?;
        if n == 0 {
            break;
        }
        for byte in &bytes[..n] {
            if *byte == b'\n' {
                report.add(&rt, line.as_slice())?;
                line.clear();
            } else {
                line.push(*byte);
            }
        }
    }
    if !line.as_slice().is_empty() {
        report.add(&rt, line.as_slice())?;
    }
    report.finish(&rt)
}
