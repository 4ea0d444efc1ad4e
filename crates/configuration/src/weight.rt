// Tests of one weight.
ghost use Rattle.std.specs.Prelude.{◌≡◌};
ghost use Rattle.configuration.specs.Weight.{in_range, is_negative};

// Whether a weight is negative.
#[tactic(auto, using(crate::proofs::Uses::uses_weight_is_negative))]
pub fn is_negative(weight: i64) -> bool
    ensures { result ≡ is_negative weight }
{
    weight < 0
}

// Whether a weight is from -10^12 to 10^12.
pub fn within_limit(weight: i64) -> bool
    ensures { result ≡ in_range weight }
{
    weight.unsigned_abs() <= 1000000000000
}
