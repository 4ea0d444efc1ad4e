// Which terms a polynomial of so many variables may have, and which runs of terms are one.
ghost use Rattle.std.specs.Prelude.{◌≡◌, ◌^◌, ltb};
ghost use Rattle.configuration.specs.Configuration.{below, is_polynomial};

use polynomial::order::in_order;

// Whether a term has its variables among the first ones.
#[tactic(auto, using(crate::proofs::Uses::uses_form_is_term))]
pub fn is_term(variables: u32, term: u32) -> bool
    ensures { result ≡ ltb term (2 ^ variables) }
{
    32 <= variables || term < 1u32 << variables
}

// Whether every term has its variables among the first ones.
pub fn is_below(variables: u32, terms: &[u32]) -> bool
    ensures { result ≡ below variables terms.now }
{
    terms.iter().all(|term| is_term(variables, *term))
}

// Whether a run of terms is a polynomial of so many variables.
#[tactic(auto, using(crate::proofs::Uses::uses_form_is_polynomial))]
pub fn is_polynomial(variables: u32, terms: &[u32]) -> bool
    ensures { result ≡ is_polynomial variables terms.now }
{
    terms.len() <= 64 && is_below(variables, terms) && in_order(terms)
}
