// What is printed: a line for each example, and the count of all.
use std::io;

// How many examples were worked, and how many of them came out otherwise than they should.
#[derive(Clone, Copy)]
pub struct Tally {
    worked: u64,
    differ: u64,
}

impl Tally {
    pub const NONE: Self = Tally {
        worked: 0,
        differ: 0,
    };

    // Prints the name of an example and whether its outcome is the one that is due, and counts it.
    pub fn judge<P: Print>(
        &mut self,
        to: &P,
        name: &[u8],
        outcome: &[u8],
        due: &[u8],
    ) -> io::Result<()> {
        self.worked = self.worked.wrapping_add(1);
        to.write_all(name)?;
        if outcome == due {
            return println!(to; "as it should be");
        }
        self.differ = self.differ.wrapping_add(1);
        to.write_all(outcome)?;
        print!(to; ", should be ")?;
        to.write_all(due)?;
        println!(to; "")
    }

    // Prints how many examples there were.
    pub fn finish<P: Print>(&self, to: &P) -> io::Result<()> {
        let Tally { worked, differ } = *self;
        if differ == 0 {
            return println!(to; "{worked} examples, all as they should be");
        }
        println!(to; "{worked} examples, {differ} differ")
    }
}
