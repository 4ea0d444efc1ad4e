// Goes through the items of the data: some say what is lent, and the others are examples.
use crate::outcome::outcome;
use crate::tally::Tally;
use example::item::{Item, split_item};
use example::state::State;
use std::io;

// All items up to the end.
pub fn work<P: Print>(to: &P, data: &[u8]) -> io::Result<()> {
    let mut tally = Tally::NONE;
    let mut state = State::NONE;
    let mut rest = data;
    while let Some((item, behind)) = split_item(rest) {
        match item {
            Item::Change(change) => state.change(change),
            Item::Example(example) => {
                let text = outcome(example, &mut state)?;
                if !example.name.is_empty() {
                    tally.judge(to, example.name, text.as_slice(), example.due)?;
                }
            }
            Item::End => return tally.finish(to),
        }
        rest = behind;
    }
    println!(to; "the examples are not whole")
}
