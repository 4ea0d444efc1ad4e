// What a rule takes away and gives, folded among themselves before the configuration is touched. It is for `step` of this crate
// alone, which lends an empty table once the rule, the amount and the operands are tested. SUM and PROD read no hard list: the plans of
// both are promised for the empty one. A table by value in the `Result`, three calls deep, took 105 to 131 ns in place of 33.
ghost use Rattle.std.specs.Prelude.{◌≡◌, [], ◌∷◌, ◌≤◌, T, length};
ghost use Rattle.configuration.specs.Weight.{in_range};
ghost use Rattle.calculus.specs.Calculus.{rule_named};
ghost use Rattle.calculus.specs.declared.Rule.TheVariants.{Sum, Prod, Hard};
ghost use Rattle.step.specs.Stepping.{IsOperand, HasPlan};

use calculus::Rule;
use hard::HardList;
use polynomial::Polynomial;
use refusal::Reason;
use table::Changes;

// SUM: f and g lose the amount each, f g gains it twice, f + g gains it.
#[tactic(auto, using(crate::proofs::Uses::uses_plans), unfolding(configuration::specs::Configuration::negated))]
fn plan_sum(f: &[u32], g: &[u32], amount: i64, changes: &mut Changes) -> Result<(), Reason>
    requires { IsOperand f.now × IsOperand g.now × T (in_range amount) × (changes.old ≡ []) }
    ensures { HasPlan [] Sum f.now g.now amount result changes.new }
{
    let mut product = [0u32; 64];
    let product_length = Polynomial::product(f, g, &mut product);
    if 64 < product_length {
        return Err(Reason::TooManyTerms(product_length as u64));
    }
    let mut sum = [0u32; 64];
    let sum_length = Polynomial::sum(f, g, &mut sum);
    if 64 < sum_length {
        return Err(Reason::TooManyTerms(sum_length as u64));
    }
    changes.add(f, -amount);
    changes.add(g, -amount);
    changes.add(&product[..product_length], amount + amount);
    changes.add(&sum[..sum_length], amount);
    Ok(())
}

// PROD: f loses the amount, f g gains it, f (g + 1) gains it. The last is f g + f, since g + 1 may have 65 terms; the terms of f g
// mostly stand before those of f.
#[tactic(auto, using(crate::proofs::Uses::uses_plans), unfolding(configuration::specs::Configuration::negated))]
fn plan_prod(f: &[u32], g: &[u32], amount: i64, changes: &mut Changes) -> Result<(), Reason>
    requires { IsOperand f.now × IsOperand g.now × T (in_range amount) × (changes.old ≡ []) }
    ensures { HasPlan [] Prod f.now g.now amount result changes.new }
{
    let mut product = [0u32; 64];
    let n = Polynomial::product(f, g, &mut product);
    if 64 < n {
        return Err(Reason::TooManyTerms(n as u64));
    }
    // Where f g or f (g + 1) is 0 the other is f, which gets back what it loses: nothing changes.
    if n == Polynomial::ZERO.count {
        return Ok(());
    }
    let p = &product[..n];
    let mut rest = [0u32; 64];
    let m = Polynomial::sum(p, f, &mut rest);
    if 64 < m {
        return Err(Reason::TooManyTerms(m as u64));
    }
    if m == Polynomial::ZERO.count {
        return Ok(());
    }
    changes.add(f, -amount);
    changes.add(p, amount);
    changes.add(&rest[..m], amount);
    Ok(())
}

// The hard step of h: f loses the amount, f + q h gains it. Its plan is that of h as the only hard polynomial.
#[tactic(auto, using(crate::proofs::Uses::uses_plans), unfolding(configuration::specs::Configuration::negated))]
fn plan_hard(
    f: &[u32],
    q: &[u32],
    h: &[u32],
    amount: i64,
    changes: &mut Changes,
) -> Result<(), Reason>
    requires { IsOperand f.now × IsOperand q.now × (length h.now ≤ 64) × T (in_range amount) × (changes.old ≡ []) }
    ensures { HasPlan (h.now ∷ []) (Hard 1) f.now q.now amount result changes.new }
{
    let mut result = [0u32; 64];
    let n = Polynomial::plus_product(f, q, h, &mut result);
    if 64 < n {
        return Err(Reason::TooManyTerms(n as u64));
    }
    changes.add(f, -amount);
    changes.add(&result[..n], amount);
    Ok(())
}

// The plan of a rule. It is for `step` of this crate.
#[tactic(auto, using(crate::proofs::Plans::named_plan, crate::proofs::Plans::place_of))]
pub fn plan_of(
    rule: Rule,
    f: &[u32],
    g: &[u32],
    hard: &HardList,
    amount: i64,
    changes: &mut Changes,
) -> Result<(), Reason>
    requires { T (rule_named hard.now rule) × IsOperand f.now × IsOperand g.now × T (in_range amount) × (changes.old ≡ []) }
    ensures { HasPlan hard.now rule f.now g.now amount result changes.new }
{
    match rule {
        Rule::Sum => plan_sum(f, g, amount, changes),
        Rule::Prod => plan_prod(f, g, amount, changes),
        Rule::Hard(number) => plan_hard(
            f,
            g,
            hard.polynomial(number as usize - 1),
            amount,
            changes,
        ),
    }
}
