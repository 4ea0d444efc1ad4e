// Writing one line.
ghost use Rattle.std.specs.Prelude.{◌≡◌};
ghost use Rattle.checker.specs.Checker.{lent_of, write_in, told_of_line};

use crate::admission::{admit, refused};
use listing::put_text;
use listing::text::Writer;
use memory::open::open;
use memory::{Entry, Head};
use refusal::{Reason, Refused};
use table::Lines;

// Writes the line of a number at the front of a lent area, from lent areas of any lengths and contents, and answers its length.
#[tactic(auto, unfolding(crate::specs::Checker::write_under))]
pub fn write_line(
    area: &mut [u8],
    head: &Head,
    terms: &[u32],
    table: &[Entry],
    counts: &[u32],
    places: &[u32],
    number: usize,
) -> Result<usize, Refused>
    ensures { record { area = area.new; told = told_of_line result }
        ≡ write_in number (lent_of head.now terms.now table.now counts.now places.now) area.old }
{
    let entries = table.as_array::<128>().ok_or(refused(Reason::WrongLength))?;
    let hard = admit(head, terms, entries, counts, places)?;
    if (head.hard as usize) + (head.lines as usize) < number {
        return Err(refused(Reason::NoSuchLine));
    }
    let mut lines = Lines::new();
    open(*head, terms, entries, &mut lines);
    let mut text = [0u8; 8448];
    let mut writer = Writer {
        out: &mut text,
        at: 0,
    };
    put_text(&mut writer, head.variables, &hard, &lines, number);
    let size = writer.at;
    if area.len() < size {
        return Err(refused(Reason::TextTooLong));
    }
    area[..size].copy_from_slice(&writer.out[..size]);
    Ok(size)
}
