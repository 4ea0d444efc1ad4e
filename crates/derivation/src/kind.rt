// The kinds of records.
ghost use Rattle.std.specs.Prelude.{◌≡◌};
ghost use Rattle.derivation.specs.Held.{kind_of};

use calculus::{Mode, Rule};

// What a record's letter says: a mode, a term, the choice of f, a step, a hard step, or the claim.
#[derive(Clone, Copy)]
pub enum Kind {
    Start(Mode),
    Term,
    Choice,
    Step(Rule),
    Hard,
    Claim,
}

// The kind of a letter, if it is one: an `Option` and no `TryFrom`, since another byte has no error of its own.
pub fn kind_of(letter: u8) -> Option<Kind>
    ensures { result ≡ kind_of letter }
{
    match letter {
        b'M' => Some(Kind::Term),
        b'K' => Some(Kind::Choice),
        b'S' => Some(Kind::Step(Rule::Sum)),
        b'P' => Some(Kind::Step(Rule::Prod)),
        b'E' => Some(Kind::Hard),
        b'B' => Some(Kind::Claim),
        b'N' => Some(Kind::Start(Mode::Plain)),
        b'Z' => Some(Kind::Start(Mode::Signed)),
        _ => None,
    }
}
