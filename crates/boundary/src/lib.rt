// The functions that programs in other languages call, on numbers and slices of bytes alone: the static library defines each under
// its plain name. A slice passes as a pointer and then a length.
#![tactic(auto)]

ghost use Rattle.std.specs.Prelude.{◌≡◌};
ghost use Rattle.report.specs.Report.{check_into, code_into};

use report::{check_files, code_file};

// All that the program `check_derivation` prints of these files, at the front of the area, and its length; 0 where the area is
// shorter than 2,449,984 bytes, which hold every report.
#[unsafe(no_mangle)]
pub extern "C" fn ittavluna_check(problem: &[u8], steps: &[u8], out: &mut [u8]) -> usize
    ensures { record { area = out.new; size = result } ≡ check_into problem.now steps.now out.old }
{
    check_files(problem, steps, out)
}

// The line that the program `problem_code` prints of this file, at the front of the area, and its length; 0 where the area is shorter
// than 64 bytes, which hold every such line.
#[unsafe(no_mangle)]
pub extern "C" fn ittavluna_code(problem: &[u8], out: &mut [u8]) -> usize
    ensures { record { area = out.new; size = result } ≡ code_into problem.now out.old }
{
    if out.len() < 64 {
        return 0;
    }
    let line = code_file(problem);
    let text = line.as_slice();
    let size = text.len();
    out[..size].copy_from_slice(text);
    size
}
