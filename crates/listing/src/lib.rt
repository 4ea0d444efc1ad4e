// The listing of a configuration and its hard polynomials, one text at a time.
#![tactic(auto)]

pub mod code;
pub mod text;

ghost use Rattle.std.specs.Prelude.{◌+◌, ◌≤◌, length};
ghost use Rattle.configuration.specs.Configuration.{line};
ghost use Rattle.listing.specs.Listing.{hard_line, header_text, hard_text, line_text, text_of, listing_of};
ghost use Rattle.listing.specs.Writer.{HasRoom, Wrote};

use hard::HardList;
use table::Lines;
use text::Writer;

// The header's line of the hard polynomials, which is not there if there are none.
#[tactic(auto, using(crate::proofs::Chains::wrote_none, crate::proofs::Names::line_of_none, crate::proofs::Names::line_of_some_length))]
fn put_hard_line(writer: &mut Writer, hard_count: usize)
    requires { HasRoom writer.old (hard_line hard_count) }
    ensures { Wrote writer.old writer.new (hard_line hard_count) }
{
    if hard_count == 0 {
        return;
    }
    writer.put_bytes(b"hard ");
    writer.put_decimal(hard_count as u64);
    writer.put_byte(b'\n');
}

// The lines of the header.
#[tactic(auto, using(crate::proofs::Names::header_length))]
fn put_header(writer: &mut Writer, variables: u32, lines: usize, hard_count: usize)
    requires { HasRoom writer.old (header_text variables lines hard_count) }
    ensures { Wrote writer.old writer.new (header_text variables lines hard_count) }
{
    writer.put_bytes(b"variables ");
    writer.put_decimal(variables as u64);
    writer.put_bytes(b"\nlines ");
    writer.put_decimal(lines as u64);
    writer.put_byte(b'\n');
    put_hard_line(writer, hard_count);
}

// A hard polynomial: its terms alone, or the digit 0.
#[tactic(auto, using(crate::proofs::Chains::wrote_as, crate::proofs::Names::text_of_zero, crate::proofs::Names::text_of_terms_length))]
fn put_hard(writer: &mut Writer, f: &[u32])
    requires { HasRoom writer.old (hard_text f.now) }
    ensures { Wrote writer.old writer.new (hard_text f.now) }
{
    if f.is_empty() {
        return writer.put_bytes(b"0\n");
    }
    writer.put_terms(f);
    writer.put_byte(b'\n');
}

// A line.
#[tactic(auto, using(crate::proofs::Names::line_length))]
fn put_line(writer: &mut Writer, f: &[u32], weight: i64)
    requires { HasRoom writer.old (line_text (line f.now weight)) }
    ensures { Wrote writer.old writer.new (line_text (line f.now weight)) }
{
    writer.put_weight(weight);
    writer.put_bytes(b": ");
    writer.put_terms(f);
    writer.put_byte(b'\n');
}

// The text of a number: 0 is the header, then come the hard polynomials, numbered from 1, and behind them the lines. It is for this
// crate and for `checker`, who test the number.
pub fn put_text(writer: &mut Writer, variables: u32, hard: &HardList, lines: &Lines, number: usize)
    requires number { number ≤ length hard.now + length lines.now }
    requires room { writer.old.at + 8448 ≤ length writer.old.out.now }
    ensures text { Wrote writer.old writer.new (text_of number variables hard.now lines.now) }
    ensures room { writer.new.at ≤ writer.old.at + 8448 }
{
    let hard_count = hard.len();
    let line_count = lines.len();
    if number == 0 {
        return put_header(writer, variables, line_count, hard_count);
    }
    if number <= hard_count {
        return put_hard(writer, hard.polynomial(number - 1));
    }
    let line = number - hard_count;
    let at = line - 1;
    put_line(writer, lines.terms(at), lines.weight(at));
}

// The whole listing, text by text. It is for the crate `report`.
pub fn put_listing(writer: &mut Writer, variables: u32, hard: &HardList, lines: &Lines)
    requires { writer.old.at + 1224960 ≤ length writer.old.out.now }
    ensures text { Wrote writer.old writer.new (listing_of variables hard.now lines.now) }
    ensures room { writer.new.at ≤ writer.old.at + 1224960 }
{
    let last = hard.len() + lines.len();
    for number in 0..=last {
        put_text(writer, variables, hard, lines, number);
    }
}
