// Records one after the other, as far as both files have them in common: the record M.
#![tactic(auto)]

ghost use Rattle.std.specs.Prelude.{◌≡◌};
ghost use Rattle.refusal.specs.Outcome.{after, stop_of};
ghost use Rattle.polynomial.specs.Polynomial.{terms_of};
ghost use Rattle.walk.specs.Held.{IsWork};
ghost use Rattle.walk.specs.Work.{term_added};

use configuration::form::is_term;
use polynomial::Polynomial;
use polynomial::toggle::toggle;
use record::read_mask;
use refusal::Reason;

// M: adds the term whose mask stands at a place in the bytes to the work polynomial. A term that is there vanishes. It is for
// `problem` and `derivation`, whose work polynomial is always in order.
pub fn add_term(
    variables: u32,
    bytes: &[u8],
    at: usize,
    work: &mut Polynomial,
) -> Result<(), Reason>
    requires { IsWork work.old }
    ensures sum { let f = terms_of work.old in record { reached = terms_of work.new; stop = stop_of result } ≡ after f (term_added variables bytes.now at f) }
    ensures held { IsWork work.new }
{
    let Some(mask) = read_mask(bytes, at) else {
        return Err(Reason::CutShort);
    };
    if !is_term(variables, mask) {
        return Err(Reason::UnknownVariable);
    }
    let sum = toggle(&mut work.terms, work.count, mask);
    // The test has a name of its own, so that what a proof says of it stands whatever the number is.
    let fits = sum <= 64;
    if !fits {
        return Err(Reason::TooManyTerms(sum as u64));
    }
    work.count = sum;
    Ok(())
}
