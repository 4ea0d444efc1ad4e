// The largest degree met on the way of a check.
ghost use Rattle.std.specs.Prelude.{◌≡◌};
ghost use Rattle.polynomial.specs.Polynomial.{RunBelow};
ghost use Rattle.configuration.specs.Configuration.{Every};
ghost use Rattle.derivation.specs.Derivation.{degree_in};

use table::Lines;

// The largest degree in the lines of a table: they and their terms stand in order, so that the first term of the first line has it.
#[tactic(auto, using(crate::proofs::Degrees::first_degree_lem))]
pub fn largest_degree(lines: &Lines) -> u32
    requires { Every (RunBelow 32) lines.now }
    ensures { result ≡ degree_in lines.now }
{
    // The call says that the lines are in order.
    let _lines = lines.len();
    lines.degree()
}
