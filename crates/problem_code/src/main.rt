// Prints the code of the problem that the file `problem.bin` in the working folder files.
#![tactic(auto)]

use files::read_file;
use report::code_file;
use std::io;

// One byte more than a problem may have is read, so that a longer one is told.
fn main(rt: HostRuntime) -> io::Result<()> {
    let mut bytes = [0u8; 8193];
    let size = read_file(&rt, b"problem.bin", &mut bytes);
    let line = code_file(&bytes[..size]);
    rt.write_all(line.as_slice())
}
