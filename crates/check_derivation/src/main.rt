// Checks the derivation in the file `steps.bin` against the problem in the file `problem.bin`, both in the working folder:
// prints the listing before, the listing after, and the verdict.
#![tactic(auto)]

use files::read_file;
use report::check_files;
use std::io;

// Prints the whole report, which is made in the lent area. The check did not end where this stood in `main`, which knows the area's zeros.
fn print_report<P: Print>(to: &P, bytes: &[u8], steps: &[u8], out: &mut [u8]) -> io::Result<()> {
    let end = check_files(bytes, steps, out);
    to.write_all(&out[..end])
}

// One byte more than a file may have is read, so that a longer one is told.
fn main(rt: HostRuntime) -> io::Result<()> {
    let mut bytes = [0u8; 8193];
    let mut steps = [0u8; 8193];
    let size = read_file(&rt, b"problem.bin", &mut bytes);
    let count = read_file(&rt, b"steps.bin", &mut steps);
    let mut out = [0u8; 2449984];
    print_report(&rt, &bytes[..size], &steps[..count], &mut out)
}
