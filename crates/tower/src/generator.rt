// α of a model of degree n = p^k, by the rounds of Algorithm 4.1: a = α = 1 at the start; k times a becomes a·α^(p − 1), and then α the solution of v^p = v + a with constant
// coefficient 0. All k rounds have their solution exactly if T has no monic divisor of degree 1 to n − 1.
ghost use Rattle.std.specs.Prelude.{true, ◌≡◌, ◌^◌, ◌≤◌, take, MatchOption};
ghost use Rattle.algebra.specs.Prime.{Prime};
ghost use Rattle.array.specs.Array.{padded, Holds};
ghost use Rattle.galois.specs.Tower.{raised};
ghost use Rattle.quotient.specs.DivisorTest.{has_divisor};
ghost use Rattle.tower.specs.Generator.{GeneratorFound};

use crate::equation::{artin_schreier, differences};
use residue::modulus::Modulus;
use residue::ring::{multiply, power};

// a·α^(p − 1).
fn raised(t: &Modulus, a: &[u64; 16], alpha: &[u64; 16]) -> [u64; 16]
    requires { Holds t.now.d.p t.now.n a.now × Holds t.now.d.p t.now.n alpha.now }
    ensures value { result ≡ padded (raised t.now.d.p (take t.now.n t.now.words) (take t.now.n a.now) (take t.now.n alpha.now)) }
    ensures holds { Holds t.now.d.p t.now.n result }
{
    multiply(t, a, &power(t, alpha, t.d.p - 1))
}

// α, if T has no monic divisor of degree 1 to n − 1. In the first round a is 1.
pub fn generator(k: u64, t: &Modulus) -> Option<[u64; 16]>
    requires prime { Prime t.now.d.p }
    requires sizes { (1 ≤ k) × (t.now.n ≡ t.now.d.p ^ k) }
    ensures { MatchOption result (has_divisor t.now.d.p (take t.now.n t.now.words) ≡ true) (λ v. GeneratorFound t.now.d.p t.now.n (take t.now.n t.now.words) k v) }
{
    let mut c = [0; 256];
    differences(t, &mut c);
    let mut a = [0; 16];
    a[0] = 1;
    let mut alpha = artin_schreier(t, &c, &a)?;
    for _round in 1..k {
        a = raised(t, &a, &alpha);
        alpha = artin_schreier(t, &c, &a)?;
    }
    Some(alpha)
}
