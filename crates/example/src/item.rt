// The items of the data. Each is a byte for its kind, three numbers of four bytes and one of eight, and four texts, of which
// each is its length in four bytes and then so many bytes: a name, the text that is due, and two operands. An operand is bytes,
// or terms of four bytes each.
ghost use Rattle.std.specs.Prelude.{◌<◌, length, IfSome};

use crate::state::Change;
use calculus::{Mode, Rule};
use memory::{Entry, Head};
use record::{read_amount, read_mask};
use step::Move;

// What the byte of an item says of its numbers and operands.
#[derive(Clone, Copy)]
enum Kind {
    // What is lent anew: how many variables, lines and hard polynomials, and what every number of the areas is.
    Areas,
    // A term of the term area: its place, the term.
    Term,
    // A record of the table: its place, its count, its weight.
    Entry,
    // A count of the hard list: its place, the count.
    HardCount,
    // A term of the hard list: its place, the term.
    HardTerm,
    // How many counts and how many places of the hard list are lent from now on: 16 and 1,024 after `Areas`.
    HardLent,
    // The operations, for each how many places of the term area and how many records are lent. A filing, a check.
    File,
    Check,
    // Writing a line: its number, and an operand as long as the area.
    Line,
    // The steps: their amount, f and g, and for `Hard` the number of the hard polynomial.
    Sum(Mode),
    Prod(Mode),
    Hard(Mode),
    // The end of the data, which is this byte alone.
    End,
}

// A byte that is no kind.
#[derive(Clone, Copy)]
struct NoKind;

impl TryFrom<u8> for Kind {
    type Error = NoKind;

    fn try_from(byte: u8) -> Result<Kind, NoKind> {
        match byte {
            0 => Ok(Kind::Areas),
            1 => Ok(Kind::Term),
            2 => Ok(Kind::Entry),
            3 => Ok(Kind::HardCount),
            4 => Ok(Kind::HardTerm),
            5 => Ok(Kind::HardLent),
            6 => Ok(Kind::File),
            7 => Ok(Kind::Check),
            8 => Ok(Kind::Line),
            9 => Ok(Kind::Sum(Mode::Plain)),
            10 => Ok(Kind::Prod(Mode::Plain)),
            11 => Ok(Kind::Hard(Mode::Plain)),
            12 => Ok(Kind::Sum(Mode::Signed)),
            13 => Ok(Kind::Prod(Mode::Signed)),
            14 => Ok(Kind::Hard(Mode::Signed)),
            15 => Ok(Kind::End),
            _ => Err(NoKind),
        }
    }
}

// What stands in the data: what is lent from now on, an example, or that it ends.
#[derive(Clone, Copy)]
pub enum Item<'a> {
    Change(Change),
    Example(Example<'a>),
    End,
}

// An operation on so many places of the term area and so many records, with its name and the text that is due. One without a name
// is there for what it leaves.
#[derive(Clone, Copy)]
pub struct Example<'a> {
    pub name: &'a [u8],
    pub due: &'a [u8],
    pub terms: usize,
    pub entries: usize,
    pub operation: Operation<'a>,
}

// An operation, and what it is given.
#[derive(Clone, Copy)]
pub enum Operation<'a> {
    File(&'a [u8]),
    Check(&'a [u8]),
    Step {
        asked: Move,
        f: &'a [u8],
        g: &'a [u8],
    },
    // The line of a number, in an area of a size.
    Line {
        number: usize,
        size: usize,
    },
}

// The number of four bytes, or 0 where they are not there.
pub fn short_at(data: &[u8], at: usize) -> u32 {
    read_mask(data, at).unwrap_or(0)
}

// The signed number of eight bytes, or 0 where they are not there.
pub fn signed_at(data: &[u8], at: usize) -> i64 {
    read_amount(data, at).unwrap_or(0)
}

// The first 128 terms of an operand, and zeros where it has fewer.
pub fn terms_of(operand: &[u8]) -> [u32; 128] {
    let mut terms = [0; 128];
    for (term, bytes) in terms.iter_mut().zip(operand.chunks_exact(4)) {
        *term = short_at(bytes, 0);
    }
    terms
}

// The text at the front of the data, and what is behind it; nothing where the text is cut.
fn split_text(data: &[u8]) -> Option<(&[u8], &[u8])>
    ensures { IfSome result (λ x. length x.1.now < length «data».now) }
{
    let size = read_mask(data, 0)? as usize;
    data.get(4..)?.split_at_checked(size)
}

// The change that a kind and its numbers are, if they are one.
fn change_of(kind: Kind, numbers: &[u8]) -> Option<Change> {
    let first = short_at(numbers, 0);
    let second = short_at(numbers, 4);
    let place = first as usize;
    match kind {
        Kind::Areas => Some(Change::Areas {
            head: Head {
                variables: first,
                lines: second,
                hard: short_at(numbers, 8),
            },
            number: short_at(numbers, 12),
        }),
        Kind::Term => Some(Change::Term {
            place,
            term: second,
        }),
        Kind::Entry => Some(Change::Entry {
            place,
            entry: Entry {
                weight: signed_at(numbers, 12),
                count: second,
            },
        }),
        Kind::HardCount => Some(Change::HardCount {
            place,
            count: second,
        }),
        Kind::HardTerm => Some(Change::HardTerm {
            place,
            term: second,
        }),
        Kind::HardLent => Some(Change::HardLent {
            counts: place,
            places: second as usize,
        }),
        _ => None,
    }
}

// The operation that a kind with its numbers and operands is, if it is one.
fn operation_of<'a>(kind: Kind, numbers: &[u8], f: &'a [u8], g: &'a [u8]) -> Option<Operation<'a>> {
    let amount = signed_at(numbers, 12);
    let (rule, mode) = match kind {
        Kind::File => return Some(Operation::File(f)),
        Kind::Check => return Some(Operation::Check(f)),
        Kind::Line => {
            return Some(Operation::Line {
                number: usize::try_from(amount).unwrap_or(usize::MAX),
                size: f.len(),
            });
        }
        Kind::Sum(mode) => (Rule::Sum, mode),
        Kind::Prod(mode) => (Rule::Prod, mode),
        Kind::Hard(mode) => (Rule::Hard(short_at(numbers, 8)), mode),
        _ => return None,
    };
    let asked = Move { rule, mode, amount };
    Some(Operation::Step { asked, f, g })
}

// The item at the front of the data, and what is behind it; nothing where it is of no kind or cut.
pub fn split_item(data: &[u8]) -> Option<(Item<'_>, &[u8])>
    ensures { IfSome result (λ x. length x.1.now < length «data».now) }
{
    let (&byte, numbers) = data.split_first()?;
    let kind = Kind::try_from(byte).ok()?;
    if let Kind::End = kind {
        return Some((Item::End, numbers));
    }
    let texts = numbers.get(20..)?;
    let (name, rest) = split_text(texts)?;
    let (due, rest) = split_text(rest)?;
    let (f, rest) = split_text(rest)?;
    let (g, rest) = split_text(rest)?;
    if let Some(change) = change_of(kind, numbers) {
        return Some((Item::Change(change), rest));
    }
    let operation = operation_of(kind, numbers, f, g)?;
    let example = Example {
        name,
        due,
        terms: short_at(numbers, 0) as usize,
        entries: short_at(numbers, 4) as usize,
        operation,
    };
    Some((Item::Example(example), rest))
}
