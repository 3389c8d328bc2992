// The public call: lists are lent, nothing is required, and the checker's refusals are its own, with 3 also for a list lent for the maps that has not n·n
// words. On a refusal that list is as found.
ghost use Rattle.std.specs.Prelude.{◌≡◌};
ghost use Rattle.maps.specs.Maps.{maps_number, maps_output};
ghost use Rattle.refusal.specs.Number.{number_of};

use crate::conjugates::write_conjugates;
use array::Word;
use modular::barrett::times;
use pair::checker::check_with_output;
use refusal::Refusal;

// All n polynomials S' with T1(S') = 0 modulo T2, from one accepted pair, n words each: each one time, in ascending order, coefficients compared from the highest
// power down.
pub fn maps(
    p: u32,
    n: u32,
    t1: &[Word],
    t2: &[Word],
    s: &[Word],
    r: &[Word],
    out: &mut [Word],
) -> Result<(), Refusal>
    ensures value { number_of result ≡ maps_number p n t1.now t2.now s.now r.now out.old }
    ensures out_after { out.new ≡ maps_output p n t1.now t2.now s.now r.now out.old }
{
    let exact = out.len() as u64 == times(n as u64, n as u64);
    check_with_output(p, n, t1, t2, s, r, exact)?;
    write_conjugates(p, n, t2, s, out);
    Ok(())
}
