// The congruences of a pair. Two of them, T1(S) = 0 and R(S) = X modulo T2, imply the other two, and one matrix of the powers of S serves both.
ghost use Rattle.std.specs.Prelude.{◌≡◌, take};
ghost use Rattle.algebra.specs.Lists.{equal};
ghost use Rattle.quotient.specs.Residue.{constant, modulus_at};
ghost use Rattle.array.specs.Array.{Holds};
ghost use Rattle.matrix.specs.Matrix.{Powers};
ghost use Rattle.pair.specs.Pair.{congruences_hold};

use comparison::equality::{is_x, opposite};
use matrix::powers::{column, powers};
use matrix::product::apply;
use residue::modulus::Modulus;
use residue::ring::multiply;

// Whether T1(S) = 0 modulo T, by the matrix of the powers of S: S^n is opposite to what the lower words of T1 give.
fn is_root(t: &Modulus, s: &[u64; 16], m: &[u64; 256], t1: &[u64; 16]) -> bool
    requires { Holds t.now.d.p t.now.n s.now × Holds t.now.d.p t.now.n t1.now × Powers t.now.d.p t.now.n (take t.now.n t.now.words) (take t.now.n s.now) m.now }
    ensures { result ≡ equal (modulus_at t.now.d.p (take t.now.n t.now.words) (take t.now.n s.now) (take t.now.n t1.now)) (constant t.now.n 0) }
{
    let n = t.n;
    let last = column(n, m, n - 1);
    let top = multiply(t, s, &last);
    let rest = apply(t.d, n, m, t1);
    opposite(t.d.p, n, &top, &rest)
}

// Whether the four congruences hold.
pub fn congruent(t1: &[u64; 16], t2: &Modulus, s: &[u64; 16], r: &[u64; 16]) -> bool
    requires { Holds t2.now.d.p t2.now.n t1.now × Holds t2.now.d.p t2.now.n s.now × Holds t2.now.d.p t2.now.n r.now }
    ensures { result
        ≡ congruences_hold t2.now.d.p (take t2.now.n t1.now) (take t2.now.n t2.now.words) (take t2.now.n s.now) (take t2.now.n r.now) }
{
    let mut m = [0; 256];
    powers(t2, s, &mut m);
    is_root(t2, s, &m, t1) && is_x(t2, &apply(t2.d, t2.n, &m, r))
}
