// The public calls on residues: lists of words are lent, nothing is required, and each refusal has its number. On a refusal the list lent
// for the output is as found.
// The three lists that `product` and `substitute` read have one lifetime: with three of their own the lists of the
// call, one of them lent for writing, have no proof in one array.
// `product` and `substitute` differ in one name: a helper that took the operation as a closure
// would state that closure's contract beside its own, and neither call would be shorter.
ghost use Rattle.std.specs.Prelude.{◌≡◌};
ghost use Rattle.refusal.specs.Number.{number_of};
ghost use Rattle.arithmetic.specs.Calls.{substitute_number, substitute_output, product_number, product_output, power_number, power_output};

use array::Word;
use array::copy::{load, store};
use refusal::Refusal;
use refusal::sent::sent;
use residue::modulus::Modulus;
use residue::ring;

// u·v modulo T, into out.
pub fn product<'a>(
    p: u32,
    n: u32,
    t: &'a [Word],
    u: &'a [Word],
    v: &'a [Word],
    out: &mut [Word],
) -> Result<(), Refusal>
    ensures value { number_of result ≡ product_number p n t.now u.now v.now out.old }
    ensures out_after { out.new ≡ product_output p n t.now u.now v.now out.old }
{
    let read = [t, u, v];
    let lists = [out, t, u, v];
    sent(p, n, &lists, &read)?;
    let modulus = Modulus::load(p, n, t);
    store(&ring::multiply(&modulus, &load(u), &load(v)), out);
    Ok(())
}

// u^k modulo T, into out.
pub fn power(
    p: u32,
    n: u32,
    t: &[Word],
    u: &[Word],
    k: u64,
    out: &mut [Word],
) -> Result<(), Refusal>
    ensures value { number_of result ≡ power_number p n t.now u.now out.old }
    ensures out_after { out.new ≡ power_output p n t.now u.now k out.old }
{
    let read = [t, u];
    let lists = [out, t, u];
    sent(p, n, &lists, &read)?;
    let modulus = Modulus::load(p, n, t);
    store(&ring::power(&modulus, &load(u), k), out);
    Ok(())
}

// u(S) modulo T, into out.
pub fn substitute<'a>(
    p: u32,
    n: u32,
    t: &'a [Word],
    s: &'a [Word],
    u: &'a [Word],
    out: &mut [Word],
) -> Result<(), Refusal>
    ensures value { number_of result ≡ substitute_number p n t.now s.now u.now out.old }
    ensures out_after { out.new ≡ substitute_output p n t.now s.now u.now out.old }
{
    let read = [t, s, u];
    let lists = [out, t, s, u];
    sent(p, n, &lists, &read)?;
    let modulus = Modulus::load(p, n, t);
    store(&ring::substitute(&modulus, &load(s), &load(u)), out);
    Ok(())
}
