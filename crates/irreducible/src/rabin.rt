// Rabin's test.
ghost use Rattle.std.specs.List.{All};
ghost use Rattle.std.specs.Prelude.{not, ◌≡◌, ◌<◌, ◌↔◌, IsTrue, take};
ghost use Rattle.algebra.specs.Lists.{equal};
ghost use Rattle.algebra.specs.Prime.{Prime};
ghost use Rattle.matrix.specs.Matrix.{Frobenius};
ghost use Rattle.quotient.specs.DivisorTest.{has_divisor};
ghost use Rattle.quotient.specs.Residue.{residue_of_x};
ghost use Rattle.irreducible.specs.Rabin.{conjugate_of_x, Passes};

use crate::conjugate::{conjugate, difference};
use crate::inverse::has_inverse;
use comparison::equality::is_x;
use matrix::frobenius::frobenius;
use residue::modulus::Modulus;

// The primes up to 16, among which are all that divide a degree.
const PRIMES: [usize; 6] = [2, 3, 5, 7, 11, 13];

// Whether X^(p^n) = X modulo T.
fn is_fixed(t: &Modulus, m: &[u64; 256]) -> bool
    requires prime { Prime t.now.d.p }
    requires holds { Frobenius t.now.d.p t.now.n (take t.now.n t.now.words) m.now }
    ensures { result ≡ equal (conjugate_of_x t.now.d.p (take t.now.n t.now.words) t.now.n) (residue_of_x t.now.d.p (take t.now.n t.now.words)) }
{
    let u = conjugate(t, m, t.n);
    is_x(t, &u)
}

// Whether X^(p^(n/q)) − X has an inverse modulo T, or q does not divide n.
fn passes(t: &Modulus, m: &[u64; 256], q: usize) -> bool
    requires prime { Prime t.now.d.p }
    requires divisor { 0 < q }
    requires holds { Frobenius t.now.d.p t.now.n (take t.now.n t.now.words) m.now }
    ensures { IsTrue result ↔ Passes t.now.d.p t.now.n (take t.now.n t.now.words) q }
{
    let n = t.n;
    if n % q != 0 {
        return true;
    }
    let k = n / q;
    let w = difference(t, m, k);
    has_inverse(t, &w)
}

// The same for each of the numbers.
fn passes_each(t: &Modulus, m: &[u64; 256], numbers: &[usize]) -> bool
    requires prime { Prime t.now.d.p }
    requires all { All (λ q. 0 < q) numbers.now }
    requires frobenius { Frobenius t.now.d.p t.now.n (take t.now.n t.now.words) m.now }
    ensures { IsTrue result ↔ All (Passes t.now.d.p t.now.n (take t.now.n t.now.words)) numbers.now }
{
    numbers.iter().all(|q| passes(t, m, *q))
}

// Whether T satisfies Rabin's conditions, and so has no monic divisor of degree 1 to n − 1.
pub fn is_irreducible(t: &Modulus) -> bool
    requires { Prime t.now.d.p }
    ensures { result ≡ not (has_divisor t.now.d.p (take t.now.n t.now.words)) }
{
    let mut m = [0; 256];
    frobenius(t, &mut m);
    if !is_fixed(t, &m) {
        return false;
    }
    let primes = PRIMES;
    passes_each(t, &m, &primes)
}
