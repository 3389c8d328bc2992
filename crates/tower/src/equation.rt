// The equation v^p = v + a modulo T, which is linear in v. The matrix of u ↦ u^p − u has the column 0 for the constants; with a in its place it takes u, not 0, to 0 exactly if
// w^p − w = −u[0]·a for w = (0, u[1], …, u[n − 1]). So −w/u[0] is the solution with constant coefficient 0.
ghost use Rattle.std.specs.Prelude.{◌≡◌, ◌-◌, ◌^◌, ◌≤◌, ◌<◌, length, get_or, take, MatchOption};
ghost use Rattle.algebra.specs.Prime.{Prime};
ghost use Rattle.array.specs.Array.{padded, Holds};
ghost use Rattle.modular.specs.Inverse.{inverse};
ghost use Rattle.quotient.specs.Residue.{scale};
ghost use Rattle.tower.specs.Equation.{without_constant, Differences, Solved, Unsolved};

use linear::system::{Solution, solve};
use matrix::frobenius::frobenius;
use matrix::powers::place;
use modular::word::inverse;
use residue::modulus::Modulus;
use scalar::shift::minus;
use scalar::vector::scale;

// The matrix of u ↦ u^p − u.
pub fn differences(t: &Modulus, m: &mut [u64; 256])
    requires prime { Prime t.now.d.p }
    requires matrix_size { length m.old ≡ 256 }
    ensures { Differences t.now.d.p t.now.n (take t.now.n t.now.words) m.new }
{
    frobenius(t, m);
    minus(t.d.p, t.n, 1, m);
}

// −w/u[0] for w = (0, u[1], …, u[n − 1]).
fn divided(p: u64, n: usize, u: &[u64; 16]) -> [u64; 16]
    requires prime { Prime p }
    requires sizes { (p ≤ 2 ^ 20) × (1 ≤ n) × (n ≤ 16) }
    requires holds { Holds p n u.now × (0 < get_or u.now 0 0) }
    ensures { result ≡ padded (scale p (inverse p (p - get_or u.now 0 0)) (without_constant (take n u.now))) }
{
    let mut w = *u;
    w[0] = 0;
    scale(p, n, inverse(p, p - u[0]), &w)
}

// The solution of v^p = v + a with constant coefficient 0, where c is the matrix of u ↦ u^p − u. Where none is found, there is none, or T has a monic divisor of degree 1 to n − 1.
pub fn artin_schreier(t: &Modulus, c: &[u64; 256], a: &[u64; 16]) -> Option<[u64; 16]>
    requires prime { Prime t.now.d.p }
    requires holds { Holds t.now.d.p t.now.n a.now }
    requires differences { Differences t.now.d.p t.now.n (take t.now.n t.now.words) c.now }
    ensures { MatchOption result (Unsolved t.now.d.p t.now.n (take t.now.n t.now.words) (take t.now.n a.now)) (λ v. Solved t.now.d.p t.now.n (take t.now.n t.now.words) (take t.now.n a.now) v) }
{
    let n = t.n;
    let mut system = *c;
    place(n, 0, a, &mut system);
    match solve(t.d, n, &mut system, [0; 16]) {
        Solution::NullVector(u) if u[0] != 0 => Some(divided(t.d.p, n, &u)),
        _ => None,
    }
}
