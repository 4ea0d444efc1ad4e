// Runs the shipped cases: for each what the checking program prints, and then what the program that tells codes prints. The
// files of case 7 are `p007` and `s007`; what they hold is written in cases.txt.
#![tactic(auto)]

ghost use Rattle.std.specs.Prelude.{◌<◌};

use files::read_file;
use report::{check_files, code_file};
use std::fs::Files;
use std::io;

// How many cases there are.
const CASES: usize = 383;

// A letter and three digits. It asks for no memory, so a run under a small limit prints all.
fn name_of(letter: u8, number: usize) -> [u8; 4]
    requires { number < 1000 }
{
    let hundreds = 48 + (number / 100) as u8;
    let tens = 48 + (number / 10 % 10) as u8;
    let ones = 48 + (number % 10) as u8;
    [letter, hundreds, tens, ones]
}

// One case.
fn run<R: Files + Print>(rt: &R, number: usize, out: &mut [u8]) -> io::Result<()>
    requires { number < 1000 }
{
    let mut bytes = [0u8; 8193];
    let mut steps = [0u8; 8193];
    let problem = name_of(b'p', number);
    let derivation = name_of(b's', number);
    let size = read_file(rt, &problem, &mut bytes);
    let count = read_file(rt, &derivation, &mut steps);
    println!(rt; "case {number:03}")?;
    let end = check_files(&bytes[..size], &steps[..count], out);
    rt.write_all(&out[..end])?;
    let line = code_file(&bytes[..size]);
    rt.write_all(line.as_slice())
}

fn main(rt: HostRuntime) -> io::Result<()> {
    let mut out = [0u8; 2449984];
    for number in 0..CASES {
        run(&rt, number, &mut out)?;
    }
    Ok(())
}
