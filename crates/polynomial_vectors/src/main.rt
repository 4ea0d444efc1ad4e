// Prints how many terms exact results have, up to the most that there can be: a sum 128, a product 4,096, f + q h 4,160, a
// clause 2^32.
#![tactic(auto)]

use polynomial::Polynomial;
use std::io;

// Prints what is worked out, and how many terms it has.
fn print_length<P: Print>(to: &P, what: &str, length: usize) -> io::Result<()> {
    println!(to; "{what}: {length}")
}

// A sum's.
fn print_sum<P: Print>(to: &P, what: &str, f: &[u32], g: &[u32]) -> io::Result<()> {
    let mut out = [0u32; 64];
    print_length(to, what, Polynomial::sum(f, g, &mut out))
}

// A product's.
fn print_product<P: Print>(to: &P, what: &str, f: &[u32], g: &[u32]) -> io::Result<()> {
    let mut out = [0u32; 64];
    print_length(to, what, Polynomial::product(f, g, &mut out))
}

// That of f + q h. Answers the area that it is written into.
fn print_plus_product<P: Print>(
    to: &P,
    what: &str,
    f: &[u32],
    q: &[u32],
    h: &[u32],
) -> io::Result<[u32; 64]> {
    let mut out = [0u32; 64];
    print_length(to, what, Polynomial::plus_product(f, q, h, &mut out))?;
    Ok(out)
}

// A clause's.
fn print_clause<P: Print>(to: &P, what: &str, plain: u32) -> io::Result<()> {
    let clause = Polynomial::clause(plain, 0);
    print_length(to, what, clause.length)
}

// The terms of a clause: with six plain literals all terms in their variables, each joined to the negated literals.
fn terms_of(plain: u32, negated: u32) -> [u32; 64] {
    let clause = Polynomial::clause(plain, negated);
    let polynomial = clause.polynomial;
    polynomial.terms
}

// f has all terms in x1 to x6, g those in x7 to x12, h the terms of f with x13.
fn print_largest<P: Print>(to: &P, f: &[u32], g: &[u32], h: &[u32]) -> io::Result<()> {
    print_sum(to, "f + h", f, h)?;
    print_sum(to, "f + f", f, f)?;
    print_product(to, "f g", f, g)?;
    print_product(to, "f f", f, f)?;
    print_plus_product(to, "h + f g", h, f, g)?;
    print_plus_product(to, "f + f g", f, f, g)?;
    Ok(())
}

// A product of 128 terms, of which f takes 64 away: h is left.
fn print_cancelled<P: Print>(to: &P, f: &[u32], h: &[u32], factor: &[u32]) -> io::Result<()> {
    print_product(to, "f (x13 + 1)", f, factor)?;
    let left = print_plus_product(to, "f + f (x13 + 1)", f, f, factor)?;
    print_sum(to, "that + h", &left, h)
}

fn main(rt: HostRuntime) -> io::Result<()> {
    let f = terms_of(63, 0);
    let g = terms_of(4032, 0);
    let h = terms_of(63, 4096);
    print_largest(&rt, &f, &g, &h)?;
    print_cancelled(&rt, &f, &h, &[4096, 0])?;
    // A run of 65 terms stands for itself.
    print_plus_product(&rt, "f + g by a run of 65", &f, &g, &[0; 65])?;
    print_clause(&rt, "7 plain literals", 127)?;
    print_clause(&rt, "32 plain literals", 4294967295)
}
