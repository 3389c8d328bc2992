// The checker: the refusals of a pair, in the order of document 01 with 6 and 7 of request S-3, and the answer.
ghost use Rattle.std.specs.Prelude.{not, ◌≡◌};
ghost use Rattle.refusal.specs.Number.{number_of};
ghost use Rattle.pair.specs.Pair.{congruences_hold, refuse_pair, check_number, check_number_or};
ghost use Rattle.refusal.specs.Models.{Given};

use crate::congruence::congruent;
use array::Word;
use array::copy::load;
use irreducible::call::is_field;
use refusal::Refusal;
use refusal::sent::sent_with;
use residue::modulus::Modulus;

// Whether the four congruences hold, for lists to which 1 to 4 do not apply.
pub fn congruences_hold(p: u32, n: u32, t1: &[Word], t2: &[Word], s: &[Word], r: &[Word]) -> bool
    requires { Given p n t1.now t2.now s.now r.now }
    ensures { result ≡ congruences_hold p t1.now t2.now s.now r.now }
{
    let t = Modulus::load(p, n, t2);
    congruent(&load(t1), &t, &load(s), &load(r))
}

// Whether the moduli and the pair are accepted, for lists to which 1 to 4 do not apply. Where the congruences hold, T2 has a proper divisor only if T1 has
// one: T2 is tested only to tell 7 from 8.
fn check_pair(
    p: u32,
    n: u32,
    t1: &[Word],
    t2: &[Word],
    s: &[Word],
    r: &[Word],
) -> Result<(), Refusal>
    requires { Given p n t1.now t2.now s.now r.now }
    ensures { number_of result ≡ refuse_pair p t1.now t2.now s.now r.now }
{
    if !is_field(p, n, t1) {
        return Err(Refusal::FirstModulus);
    }
    if congruences_hold(p, n, t1, t2, s, r) {
        return Ok(());
    }
    if is_field(p, n, t2) {
        Err(Refusal::Congruence)
    } else {
        Err(Refusal::SecondModulus)
    }
}

// The checker for a call that also writes lists; `exact` says whether these have their exact lengths: 3 also where they have not.
pub fn check_with_output(
    p: u32,
    n: u32,
    t1: &[Word],
    t2: &[Word],
    s: &[Word],
    r: &[Word],
    exact: bool,
) -> Result<(), Refusal>
    ensures { number_of result ≡ check_number_or (not exact) p n t1.now t2.now s.now r.now }
{
    sent_with(p, n, exact, &[t1, t2, s, r], &[t1, t2, s, r])?;
    check_pair(p, n, t1, t2, s, r)
}

// Succeeds where neither modulus has a monic divisor of degree 1 to n − 1 and the four congruences hold, and then the two maps are inverse isomorphisms of
// fields; else the first refusal that applies.
pub fn check(
    p: u32,
    n: u32,
    t1: &[Word],
    t2: &[Word],
    s: &[Word],
    r: &[Word],
) -> Result<(), Refusal>
    ensures { number_of result ≡ check_number p n t1.now t2.now s.now r.now }
{
    check_with_output(p, n, t1, t2, s, r, true)
}
