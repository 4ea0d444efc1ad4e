// Reading the programs' files. How a file is read is the toolchain's affair.
#![tactic(auto)]

ghost use Rattle.io.specs.Counts.{IsPrefixLen};

use std::fs::{File, Files};
use std::io::Read;

// Reads until the bytes are full, the file ends or a read fails, and answers how many bytes stand at the front. The library's own loops
// do not serve: after a fault `read_exact` does not tell how many bytes it has read, and `read_to_end` reads to the heap.
fn read_full<F: Read>(file: &mut F, out: &mut [u8]) -> usize
    ensures { IsPrefixLen result out.new }
{
    let mut done = 0;
    while done < out.len() {
        match file.read(&mut out[done..]) {
            Ok(0) => return done,
            Ok(n) => done += n,
            Err(_) => return done,
        }
    }
    done
}

// Reads a file into the bytes and answers how many there are: none where it won't open or can't be read, and none where the
// path is not UTF-8, which the paths of the library are. What the bytes are is the file's affair, and nothing is promised of
// them.
pub fn read_file<R: Files>(files: &R, path: &[u8], out: &mut [u8]) -> usize
    ensures { IsPrefixLen result out.new }
{
    let Ok(name) = std::str::from_utf8(path) else {
        return 0;
    };
    match File::open(files, name) {
        Ok(mut file) => read_full(&mut file, out),
        Err(_) => 0,
    }
}
