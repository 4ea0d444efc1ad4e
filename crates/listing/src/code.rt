// The code of a listing.
ghost use Rattle.std.specs.Prelude.{◌≡◌};
ghost use Rattle.listing.specs.Code.{code_of};

use crate::put_text;
use crate::text::Writer;
use fnv::{add_bytes, start};
use hard::HardList;
use table::Lines;

// The code of the whole listing, newlines included: each text is written and added in turn. It is for the crate `report`.
pub fn code_of(variables: u32, hard: &HardList, lines: &Lines) -> u64
    ensures { result ≡ code_of variables hard.now lines.now }
{
    let last = hard.len() + lines.len();
    let mut text = [0u8; 8448];
    let mut code = start();
    for number in 0..=last {
        let mut writer = Writer {
            out: &mut text,
            at: 0,
        };
        put_text(&mut writer, variables, hard, lines, number);
        let size = writer.at;
        code = add_bytes(code, &writer.out[..size]);
    }
    code
}
