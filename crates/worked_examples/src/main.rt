// Works examples through the four open operations: the desk table's rows on filings, and every refusal that the programs
// cannot meet. The examples are in the file `examples` of the working folder, which tools/examples makes of examples.txt. Each
// has the text that must come out by document 01, which is compared with the one that does.
#![tactic(auto)]

mod examples;
mod outcome;
mod tally;

use files::read_file;
use std::io;

// All examples. A file that is longer is cut, which is told.
fn main(rt: HostRuntime) -> io::Result<()> {
    let mut data = [0u8; 196608];
    let size = read_file(&rt, b"examples", &mut data);
    examples::work(&rt, &data[..size])
}
