// The hard list: whether what is lent of it is well formed, the type that holds it while an operation runs, and the list as one run.
#![tactic(auto)]

pub mod form;

ghost use Rattle.std.specs.Prelude.{◌≡◌, [], ◌++◌, ◌∷◌, ◌≤◌, ◌<◌, T, is_some, IfSome, length, get_or};
ghost use Rattle.hard.specs.Hard.{is_hard_list, hard_of, hard_image, hard_formed};
ghost use Rattle.hard.specs.HardLaws.{AllShort};
ghost use Rattle.hard.specs.Working.{flat, area_in, hard_in, run_of};

use form::hard_formed;
use polynomial::area::write;
use polynomial::front;
use std::marker::Model;

/// At most 16 hard polynomials, each of at most 64 terms, in the order in which they came. They lie as they are lent, each in 64 places
/// of its own: no memory is asked for.
#[derive(Drop)]
pub struct HardList {
    number: usize,
    counts: [u32; 16],
    places: [u32; 1024],
}

impl Model for HardList {
    ghost use Rattle.std.specs.Prelude.{List, ℕ};
    ghost use Rattle.hard.specs.Hard.{hard_of};
    ghost use Rattle.hard.specs.Held.{IsHeld};

    ghost Value = { List (List ℕ) };

    ghost view = { λ h. hard_of (record { number = h.number; counts = h.counts; places = h.places }) };

    ghost invariant = { λ h. IsHeld (record { number = h.number; counts = h.counts; places = h.places }) };
}

impl HardList {
    /// No polynomials.
    #[tactic(auto, unfolding(crate::specs::Hard::laid_hard, crate::specs::Hard::read_hard))]
    pub fn new() -> HardList
        ensures { result ≡ [] }
    {
        HardList {
            number: 0,
            counts: [0; 16],
            places: [0; 1024],
        }
    }

    /// The list of what is lent, if that is well formed.
    pub fn open(variables: u32, number: u32, counts: &[u32], places: &[u32]) -> Option<HardList>
        ensures formed { is_some result ≡ hard_formed variables (record { number = number; counts = counts.now; places = places.now }) }
        ensures list { IfSome result (λ H. H ≡ hard_of (record { number = number; counts = counts.now; places = places.now })) }
        ensures polynomials { IfSome result (λ H. T (is_hard_list variables H)) }
        ensures run { IfSome result (λ H. H ≡ hard_in (flat (record { number = number; counts = counts.now; places = places.now }))) }
    {
        let counts = <&[u32; 16]>::try_from(counts).ok()?;
        let places = <&[u32; 1024]>::try_from(places).ok()?;
        if !hard_formed(variables, number, counts, places) {
            return None;
        }
        Some(HardList {
            number: number as usize,
            counts: *counts,
            places: *places,
        })
    }

    /// How many polynomials there are.
    #[tactic(auto, using(crate::specs::HardLaws::all_read))]
    pub fn len(&self) -> usize
        ensures number { result ≡ length self.now }
        ensures few { result ≤ 16 }
        ensures short { AllShort self.now }
    {
        self.number
    }

    /// The polynomial at a place, from 0. It is for this crate and for `step` and `listing`, which have tested the place.
    pub fn polynomial(&self, i: usize) -> &[u32]
        requires { i < length self.now }
        ensures terms { result.now ≡ get_or self.now i [] }
        ensures short { length result.now ≤ 64 }
    {
        let HardList { counts, places, .. } = self;
        let start = 64 * i;
        front(&places[start..start + 64], counts[i] as usize)
    }

    /// Puts a polynomial behind the others. It is for `problem`, which has tested that there is room.
    pub fn push(&mut self, f: &[u32])
        requires { (length self.old < 16) × (length f.now ≤ 64) }
        ensures { self.new ≡ self.old ++ f.now ∷ [] }
    {
        let start = 64 * self.number;
        self.places[start..start + f.len()].copy_from_slice(f);
        self.counts[self.number] = f.len() as u32;
        self.number += 1;
    }

    /// Writes the list back to what is lent, zeros in all unused places, but for the number, which is `len`. It is for `checker`, which has
    /// tested the lengths.
    pub fn close(&self, counts: &mut [u32], places: &mut [u32])
        requires { (length counts.old ≡ 16) × (length places.old ≡ 1024) }
        ensures counts { counts.new ≡ (hard_image self.now).counts }
        ensures places { places.new ≡ (hard_image self.now).places }
        ensures run { flat (record { number = length self.now; counts = counts.new; places = places.new }) ≡ run_of self.now }
    {
        counts.fill(0);
        places.fill(0);
        for i in 0..self.len() {
            let f = self.polynomial(i);
            counts[i] = f.len() as u32;
            write(places, 64 * i, f);
        }
    }
}

/// From what is lent to the list as one run of 1,041 numbers. No crate here calls it: it is for one that keeps that run in place of a
/// `HardList`, and has tested the lengths. What is lent may hold anything.
pub fn gather(number: u32, counts: &[u32], places: &[u32], hard: &mut [u32])
    requires { (length counts.now ≡ 16) × (length places.now ≡ 1024) × (length hard.old ≡ 1041) }
    ensures { hard.new ≡ flat (record { number = number; counts = counts.now; places = places.now }) }
{
    hard[0] = number;
    hard[1..17].copy_from_slice(counts);
    hard[17..].copy_from_slice(places);
}

/// From that run to what is lent, but for the number. It is for the same crate.
pub fn scatter(hard: &[u32], counts: &mut [u32], places: &mut [u32])
    requires { (length hard.now ≡ 1041) × (length counts.old ≡ 16) × (length places.old ≡ 1024) }
    ensures { let a = area_in hard.now in (counts.new ≡ a.counts) × (places.new ≡ a.places) }
{
    counts.copy_from_slice(&hard[1..17]);
    places.copy_from_slice(&hard[17..]);
}
