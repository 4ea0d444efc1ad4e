// What is lent from one item to the next, and the open operations on it.
ghost use Rattle.std.specs.Prelude.{◌≤◌};

use crate::answer::Said;
use memory::{Entry, Head};
use step::Move;

// How many places of each area are lent. No more can be than there are, of the table and the hard list one more than should be.
#[derive(Clone, Copy, PartialEq, Eq)]
struct Lengths {
    terms: usize,
    entries: usize,
    counts: usize,
    places: usize,
    ghost terms_there: { terms ≤ 8192 },
    ghost entries_there: { entries ≤ 129 },
    ghost counts_there: { counts ≤ 17 },
    ghost places_there: { places ≤ 1025 },
}

impl Lengths {
    // Those that the operations ask for.
    const DUE: Self = Lengths {
        terms: 8192,
        entries: 128,
        counts: 16,
        places: 1024,
    };
}

// The head, the term area, the table, the counts and the places of the hard list, and how much of them is lent.
#[derive(Clone, Copy, PartialEq, Eq)]
pub struct State {
    pub head: Head,
    terms: [u32; 8192],
    entries: [Entry; 129],
    counts: [u32; 17],
    places: [u32; 1025],
    lent: Lengths,
}

// A change of what is lent. Where there is no such place, it changes nothing.
#[derive(Clone, Copy)]
pub enum Change {
    // Another head, the same number at each place of all areas, and the lengths that are due.
    Areas { head: Head, number: u32 },
    Term { place: usize, term: u32 },
    Entry { place: usize, entry: Entry },
    HardCount { place: usize, count: u32 },
    HardTerm { place: usize, term: u32 },
    // How many counts and how many places of the hard list are lent.
    HardLent { counts: usize, places: usize },
}

// Writes to a place of an area, if there is such a place.
fn put<T: Copy>(area: &mut [T], place: usize, value: T) {
    if place < area.len() {
        area[place] = value;
    }
}

impl State {
    pub const NONE: Self = State {
        head: Head {
            variables: 0,
            lines: 0,
            hard: 0,
        },
        terms: [0; 8192],
        entries: [Entry::UNUSED; 129],
        counts: [0; 17],
        places: [0; 1025],
        lent: Lengths::DUE,
    };

    // Changes what the next calls are lent; a place beyond an area changes nothing.
    pub fn change(&mut self, change: Change) {
        match change {
            Change::Areas { head, number } => {
                let entry = Entry {
                    weight: number as i64,
                    count: number,
                };
                *self = State {
                    head,
                    terms: [number; 8192],
                    entries: [entry; 129],
                    counts: [number; 17],
                    places: [number; 1025],
                    lent: Lengths::DUE,
                };
            }
            Change::Term { place, term } => put(&mut self.terms, place, term),
            Change::Entry { place, entry } => put(&mut self.entries, place, entry),
            Change::HardCount { place, count } => put(&mut self.counts, place, count),
            Change::HardTerm { place, term } => put(&mut self.places, place, term),
            Change::HardLent { counts, places } => {
                self.lent.counts = counts.min(17);
                self.lent.places = places.min(1025);
            }
        }
    }

    // Lends so many places of the term area and so many records.
    pub fn lend(&mut self, terms: usize, entries: usize) {
        self.lent.terms = terms.min(8192);
        self.lent.entries = entries.min(129);
    }

    // The same with the lengths that are due.
    pub fn as_due(&self) -> State {
        State {
            lent: Lengths::DUE,
            ..*self
        }
    }

    // Files the problem that the bytes are. It alone may write to the hard list.
    pub fn file(&mut self, bytes: &[u8]) -> Said {
        let lent = self.lent;
        let (terms, _) = self.terms.split_at_mut(lent.terms);
        let (entries, _) = self.entries.split_at_mut(lent.entries);
        let (counts, _) = self.counts.split_at_mut(lent.counts);
        let (places, _) = self.places.split_at_mut(lent.places);
        let filed = checker::file_problem(bytes, terms, entries, counts, places);
        self.head = filed.head;
        filed.answer.into()
    }

    // Checks the derivation that the bytes are.
    pub fn check(&mut self, bytes: &[u8]) -> Said {
        let lent = self.lent;
        let (terms, _) = self.terms.split_at_mut(lent.terms);
        let (entries, _) = self.entries.split_at_mut(lent.entries);
        let counts = &self.counts[..lent.counts];
        let places = &self.places[..lent.places];
        checker::check_derivation(bytes, &mut self.head, terms, entries, counts, places).into()
    }

    // Takes one step.
    pub fn step(&mut self, asked: Move, f: &[u32], g: &[u32]) -> Said {
        let lent = self.lent;
        let (terms, _) = self.terms.split_at_mut(lent.terms);
        let (entries, _) = self.entries.split_at_mut(lent.entries);
        let counts = &self.counts[..lent.counts];
        let places = &self.places[..lent.places];
        checker::take_step(&mut self.head, terms, entries, counts, places, f, g, asked).into()
    }

    // Writes the line of a number at the front of a lent area.
    pub fn write_line(&self, area: &mut [u8], number: usize) -> Said {
        let lent = self.lent;
        checker::write_line(
            area,
            &self.head,
            &self.terms[..lent.terms],
            &self.entries[..lent.entries],
            &self.counts[..lent.counts],
            &self.places[..lent.places],
            number,
        )
        .into()
    }
}
