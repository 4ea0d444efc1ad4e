// The text of an outcome: the answer and, unless all that was lent is as it was, what is left. So an answer alone says that
// nothing was changed.
ghost use Rattle.std.specs.Prelude.{◌≤◌};

use example::answer::Said;
use example::item::{Example, Operation, terms_of};
use example::state::State;
use listing::text::Text;
use std::io;
use std::io::{Cursor, Write};

// How long a text with a listing may be. Its room is fixed, since no memory is asked for.
const LONGEST: usize = 4096;

// How much of the room is written.
fn written(text: &Cursor<[u8; LONGEST]>) -> usize
    ensures { result ≤ 4096 }
{
    LONGEST.min(text.position() as usize)
}

// Puts a line of the listing behind a text, or nothing where it is refused or there is no room for it, and answers whether it did.
fn put_line(text: &mut Cursor<[u8; LONGEST]>, state: &State, number: usize) -> bool {
    let end = written(text);
    let size = match state.write_line(&mut text.get_mut()[end..], number) {
        Said::Written(size) => size,
        _ => 0,
    };
    text.set_position(end.saturating_add(size) as u64);
    0 < size
}

// Puts the listing behind a text: the header, all hard polynomials, the first line and the last nine, which are all where there are
// at most ten. The header is refused where what is left is not well formed, so that a listing says also that unused places are zero.
fn put_listing(text: &mut Cursor<[u8; LONGEST]>, state: &State) {
    let hard = state.head.hard as usize;
    let lines = state.head.lines as usize;
    let end = hard + lines + 1;
    let middle = end.min(hard + 2);
    for number in (0..middle).chain(middle.max(end.saturating_sub(9))..end) {
        if !put_line(text, state, number) {
            break;
        }
    }
}

// Makes the call that an example is, and answers the text of its outcome.
pub fn outcome(example: Example<'_>, state: &mut State) -> io::Result<Text<LONGEST>> {
    let mut text = Cursor::new([0; LONGEST]);
    state.lend(example.terms, example.entries);
    let before = *state;
    let said = match example.operation {
        Operation::File(bytes) => state.file(bytes),
        Operation::Check(bytes) => state.check(bytes),
        Operation::Step { asked, f, g } => {
            let first = (f.len() / 4).min(128);
            let second = (g.len() / 4).min(128);
            state.step(asked, &terms_of(f)[..first], &terms_of(g)[..second])
        }
        // A line is written at the front of 32 dots, of which so many are lent, and all of them stand below the answer.
        Operation::Line { number, size } => {
            let mut area = [b'.'; 32];
            let said = state.write_line(&mut area[..size.min(32)], number);
            writeln!(text, "{said}")?;
            text.write_all(&area)?;
            let size = written(&text);
            return Ok(Text::new(text.into_inner(), size));
        }
    };
    write!(text, "{said}")?;
    if before != *state {
        writeln!(text)?;
        put_listing(&mut text, &state.as_due());
    }
    let size = written(&text);
    Ok(Text::new(text.into_inner(), size))
}
