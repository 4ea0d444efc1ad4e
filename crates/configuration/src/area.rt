// Areas of numbers that hold nothing.
ghost use Rattle.std.specs.Prelude.{◌≡◌};
ghost use Rattle.configuration.specs.Area.{zeros};

// Whether every number of an area is zero: their bits are joined, without a branch, so that several are looked at at once.
#[tactic(auto, unfolding(crate::specs::Area::zeros))]
pub fn is_zero(area: &[u32]) -> bool
    ensures { result ≡ zeros area.now }
{
    let mut bits: u32 = 0;
    for x in area {
        bits |= *x;
    }
    bits == 0
}
