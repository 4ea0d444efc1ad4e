// What the programs print of their files' bytes: the lines besides the listings, and all of it as one text. The lines of a problem stand in
// a table of this crate's own, and its hard list beside it, from the filing to the last listing: nothing is lent.
#![tactic(auto)]

ghost use Rattle.std.specs.Prelude.{◌≡◌, ◌+◌, ◌≤◌, T, length};
ghost use Rattle.refusal.specs.Refusal.{refusal_of};
ghost use Rattle.configuration.specs.Configuration.{is_configuration};
ghost use Rattle.hard.specs.Hard.{is_hard_list};
ghost use Rattle.problem.specs.Problem.{told_of_filing};
ghost use Rattle.derivation.specs.Derivation.{told_of_check};
ghost use Rattle.listing.specs.Writer.{HasRoom, Wrote};
ghost use Rattle.report.specs.Report.{refusal_text, confirmed_text, filing_text, verdict_text, code_text, report_text, code_output, check_output, code_of_file, check_of_files, check_into};

use derivation::{Confirmed, check_derivation};
use hard::HardList;
use listing::code::code_of;
use listing::put_listing;
pub use listing::text::Text;
use listing::text::Writer;
use problem::file_problem;
use refusal::{Refused, number};
use table::Lines;

// What was refused and where.
#[tactic(auto, using(crate::proofs::Texts::refusal_length))]
fn put_refusal(writer: &mut Writer, refused: Refused)
    requires { HasRoom writer.old (refusal_text (refusal_of refused.reason) refused.record) }
    ensures { Wrote writer.old writer.new (refusal_text (refusal_of refused.reason) refused.record) }
{
    let kind = number(refused.reason) as u64;
    let place = refused.record;
    writer.put_bytes(b"refused ");
    writer.put_decimal(kind);
    writer.put_bytes(b" at record ");
    writer.put_decimal(place);
    writer.put_byte(b'\n');
}

// A confirmed claim and the degree.
#[tactic(auto, using(crate::proofs::Texts::confirmed_length))]
fn put_confirmation(writer: &mut Writer, confirmed: Confirmed)
    requires { HasRoom writer.old (confirmed_text confirmed.claim confirmed.degree) }
    ensures { Wrote writer.old writer.new (confirmed_text confirmed.claim confirmed.degree) }
{
    writer.put_bytes(b"confirmed ");
    writer.put_weight(confirmed.claim);
    writer.put_bytes(b" degree ");
    writer.put_decimal(confirmed.degree as u64);
    writer.put_byte(b'\n');
}

// The line of a filing: nothing where it is accepted.
fn put_filing(writer: &mut Writer, answer: Result<(), Refused>)
    requires { HasRoom writer.old (filing_text (told_of_filing answer)) }
    ensures { Wrote writer.old writer.new (filing_text (told_of_filing answer)) }
{
    if let Err(refused) = answer {
        writer.put_bytes(b"problem ");
        put_refusal(writer, refused);
    }
}

// The same as a text of its own. Each line makes its writer itself: a function over closures would have to say what each writes.
#[tactic(auto, using(crate::proofs::Texts::filing_short))]
fn filing_line(answer: Result<(), Refused>) -> Text<64>
    ensures { result ≡ filing_text (told_of_filing answer) }
{
    let mut bytes = [0u8; 64];
    let mut writer = Writer {
        out: &mut bytes,
        at: 0,
    };
    put_filing(&mut writer, answer);
    let size = writer.at;
    Text::new(bytes, size)
}

// The verdict on a derivation.
fn put_verdict(writer: &mut Writer, answer: Result<Confirmed, Refused>)
    requires { HasRoom writer.old (verdict_text (told_of_check answer)) }
    ensures { Wrote writer.old writer.new (verdict_text (told_of_check answer)) }
{
    match answer {
        Ok(confirmed) => put_confirmation(writer, confirmed),
        Err(refused) => put_refusal(writer, refused),
    }
}

// The same as a text of its own.
#[tactic(auto, using(crate::proofs::Texts::verdict_short))]
pub fn verdict_line(answer: Result<Confirmed, Refused>) -> Text<64>
    ensures { result ≡ verdict_text (told_of_check answer) }
{
    let mut bytes = [0u8; 64];
    let mut writer = Writer {
        out: &mut bytes,
        at: 0,
    };
    put_verdict(&mut writer, answer);
    let size = writer.at;
    Text::new(bytes, size)
}

// A code as sixteen lower-case digits.
fn code_line(code: u64) -> Text<64>
    ensures { result ≡ code_text code }
{
    let mut digits = [0u8; 16];
    let count = io::hex(code, 16, &mut digits);
    let mut bytes = [0u8; 64];
    let mut writer = Writer {
        out: &mut bytes,
        at: 0,
    };
    writer.put_bytes(&digits[..count]);
    writer.put_byte(b'\n');
    let size = writer.at;
    Text::new(bytes, size)
}

// What there is to tell of a problem's bytes: the line of its code, or of what was refused.
#[tactic(auto, unfolding(crate::specs::Report::code_output))]
fn problem_line(bytes: &[u8]) -> Text<64>
    ensures { result ≡ code_output bytes.now }
{
    let mut hard = HardList::new();
    let mut lines = Lines::new();
    let filed = file_problem(bytes, &mut hard, &mut lines);
    match filed.answer {
        Ok(()) => code_line(code_of(filed.variables, &hard, &lines)),
        Err(_) => filing_line(filed.answer),
    }
}

// The listing before, the listing after and the verdict on a derivation's bytes: the lines before stand in a table, and those after
// it are left there; the hard list stays. It is for `check_report`, which has filed them.
#[tactic(auto, using(crate::proofs::Texts::verdict_short))]
fn put_report(writer: &mut Writer, steps: &[u8], variables: u32, hard: &HardList, lines: &mut Lines)
    requires hard { T (is_hard_list variables hard.now) }
    requires lines { T (is_configuration variables lines.old) }
    requires room { writer.old.at + 2449984 ≤ length writer.old.out.now }
    ensures { Wrote writer.old writer.new (report_text steps.now variables hard.now lines.old) }
{
    put_listing(writer, variables, hard, lines);
    let answer = check_derivation(steps, variables, hard, lines);
    put_listing(writer, variables, hard, lines);
    put_verdict(writer, answer);
}

// What there is to tell of a problem's and a derivation's bytes: the listing before, the listing after, and the verdict; or what was
// refused of the problem.
#[tactic(auto, using(crate::proofs::Texts::filing_short), unfolding(crate::specs::Report::check_output))]
fn check_report(writer: &mut Writer, bytes: &[u8], steps: &[u8])
    requires { writer.old.at + 2449984 ≤ length writer.old.out.now }
    ensures { Wrote writer.old writer.new (check_output bytes.now steps.now) }
{
    let mut hard = HardList::new();
    let mut lines = Lines::new();
    let filed = file_problem(bytes, &mut hard, &mut lines);
    match filed.answer {
        Ok(()) => put_report(writer, steps, filed.variables, &hard, &mut lines),
        Err(_) => put_filing(writer, filed.answer),
    }
}

// What the program `problem_code` prints of its file.
pub fn code_file(bytes: &[u8]) -> Text<64>
    ensures { result ≡ code_of_file bytes.now }
{
    if 8192 < bytes.len() {
        return Text::copy_of(b"problem too long\n");
    }
    problem_line(bytes)
}

// What the program `check_derivation` prints of its files. It is for `check_files`, which has tested the room.
fn put_files(writer: &mut Writer, bytes: &[u8], steps: &[u8])
    requires { writer.old.at + 2449984 ≤ length writer.old.out.now }
    ensures { Wrote writer.old writer.new (check_of_files bytes.now steps.now) }
{
    if 8192 < bytes.len() {
        return writer.put_bytes(b"problem too long\n");
    }
    if 8192 < steps.len() {
        return writer.put_bytes(b"steps too long\n");
    }
    check_report(writer, bytes, steps);
}

// What the program `check_derivation` prints of its files, at the front of a lent area, and its length; 0 where the area is shorter
// than 2,449,984 bytes, which hold every report: an answer as the function for C of the crate `boundary` gives it.
pub fn check_files(bytes: &[u8], steps: &[u8], out: &mut [u8]) -> usize
    ensures { record { area = out.new; size = result } ≡ check_into bytes.now steps.now out.old }
{
    if out.len() < 2449984 {
        return 0;
    }
    let mut writer = Writer { out, at: 0 };
    put_files(&mut writer, bytes, steps);
    writer.at
}
