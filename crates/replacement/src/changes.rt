// The changes that are to be folded into a table, and what is known there of the polynomial of each before any is.
ghost use Rattle.std.specs.Prelude.{◌≡◌, T, length, take};
ghost use Rattle.configuration.specs.Weight.{in_range, is_zero};
ghost use Rattle.configuration.specs.Configuration.{IsInOrder, weights_fit};
ghost use Rattle.replacement.specs.Passes.{IsSmall};
ghost use Rattle.replacement.specs.Replacing.{weighed_in};

use configuration::weight::within_limit;
use table::{Changes, Lines};

// Where the polynomial of a change stands, or would stand, and its weight there before and after the change.
#[derive(Clone, Copy)]
pub struct Weighed {
    pub at: usize,
    pub before: i64,
    pub after: i64,
}

impl Weighed {
    // Whether it has no line before.
    pub fn is_new(&self) -> bool
        ensures { result ≡ is_zero self.now.before }
    {
        self.before == 0
    }

    // Whether the weight afterwards is within the limit.
    pub fn fits(&self) -> bool
        ensures { result ≡ in_range self.now.after }
    {
        within_limit(self.after)
    }

    // Whether its line is gone afterwards.
    pub fn vanishes(&self) -> bool
        ensures { result ≡ is_zero self.now.after }
    {
        self.after == 0
    }
}

// Looks up each change in a table. It is for this crate.
#[tactic(auto, using(crate::proofs::Uses::uses_weigh))]
pub fn weigh(table: &Lines, changes: &Changes) -> [Weighed; 4]
    requires { IsInOrder table.now × T (weights_fit table.now) × IsSmall 45 changes.now }
    ensures { take (length changes.now) result ≡ weighed_in changes.now table.now }
{
    let unknown = Weighed {
        at: 0,
        before: 0,
        after: 0,
    };
    let mut weighed = [unknown; 4];
    for i in 0..changes.len() {
        let known = table.look_up(changes.terms(i), changes.key(i));
        weighed[i] = Weighed {
            at: known.at,
            before: known.weight,
            after: known.weight + changes.weight(i),
        };
    }
    weighed
}
