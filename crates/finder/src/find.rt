// The public call: lists are lent, nothing is required, and each refusal has its number. On a refusal the two lists lent for S and R are as found.
ghost use Rattle.std.specs.Prelude.{◌≡◌, length, IfOk};
ghost use Rattle.refusal.specs.Models.{Models};
ghost use Rattle.refusal.specs.Number.{number_of};
ghost use Rattle.refusal.specs.Refusal.{written};
ghost use Rattle.finder.specs.Construct.{FoundPair};
ghost use Rattle.finder.specs.Finder.{find_s, find_r, refuse_find, find_number, find_output_s, find_output_r};

use crate::construct::{Pair, construct};
use array::Word;
use array::copy::store;
use refusal::Refusal;
use refusal::sent::sent;
use residue::modulus::Modulus;

// The pair, or the first of 5 to 7 that applies, for lists to which none of 1 to 4 applies.
fn answer(p: u32, n: u32, t1: &[Word], t2: &[Word]) -> Result<Pair, Refusal>
    requires { Models p n t1.now t2.now }
    ensures number { number_of result ≡ refuse_find p n t1.now t2.now }
    ensures pair { IfOk result (λ pair. FoundPair p n t1.now t2.now 0 pair.forward pair.backward) }
{
    let t1 = Modulus::load(p, n, t1);
    let t2 = Modulus::load(p, n, t2);
    construct(&t1, &t2)
}

// Writes the pair, if there is one, for lists to which none of the refusals 1 to 4 applies.
fn write_pair(
    p: u32,
    n: u32,
    t1: &[Word],
    t2: &[Word],
    s: &mut [Word],
    r: &mut [Word],
) -> Result<(), Refusal>
    requires models { Models p n t1.now t2.now }
    requires lengths { (length s.old ≡ n) × (length r.old ≡ n) }
    ensures value { number_of result ≡ refuse_find p n t1.now t2.now }
    ensures s_after { s.new ≡ written (number_of result) (find_s p n t1.now t2.now) s.old }
    ensures r_after { r.new ≡ written (number_of result) (find_r p n t1.now t2.now) r.old }
{
    let pair = answer(p, n, t1, t2)?;
    store(&pair.forward, s);
    store(&pair.backward, r);
    Ok(())
}

// The pair of Algorithm 2.1, or of Algorithm 4.1 where n is a power of p, for the models p, n, T1 and p, n, T2, with the choices of the documents: S into s and R into r.
pub fn find(
    p: u32,
    n: u32,
    t1: &[Word],
    t2: &[Word],
    s: &mut [Word],
    r: &mut [Word],
) -> Result<(), Refusal>
    ensures value { number_of result ≡ find_number p n t1.now t2.now s.old r.old }
    ensures s_after { s.new ≡ find_output_s p n t1.now t2.now s.old r.old }
    ensures r_after { r.new ≡ find_output_r p n t1.now t2.now s.old r.old }
{
    // The arrays have names: written in the call, beside lists that are lent for writing, they have no proof.
    let read = [t1, t2];
    let lists = [t1, t2, s, r];
    sent(p, n, &lists, &read)?;
    write_pair(p, n, t1, t2, s, r)
}
