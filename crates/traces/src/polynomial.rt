// X as a polynomial P in a residue α modulo T with α^n = a, a constant other than 0, where p does not divide n. The trace of α^j is 0 for 0 < j < n, for
// the conjugates of α are its multiples by the n-th roots of unity, and the trace of 1 is n. So in X = P(α) the trace of X·α^j leaves one coefficient alone:
//   P_0 = Tr(X) / n, and P_i = Tr(X·α^(n−i)) / (n·a) for 1 ≤ i < n.
// The result is a guess, which the caller tests: nothing is promised of it but that it is n words below p.
ghost use Rattle.std.specs.Prelude.{◌+◌, ◌*◌, ◌^◌, ◌≤◌, ◌<◌};
ghost use Rattle.algebra.specs.Prime.{Prime};
ghost use Rattle.array.specs.Array.{Holds, Square};
ghost use Rattle.traces.specs.Sums.{Sums};

use crate::newton::traces;
use modular::barrett::{Barrett, times};
use modular::word::inverse;
use residue::modulus::Modulus;

// Adds c times row i of m to the sums. Row after row, not column after column: the compiler then multiplies several words at once.
fn add_row(p: u64, n: usize, i: usize, c: u64, m: &[u64; 256], w: &mut [u64; 16])
    requires bounds { (p ≤ 2 ^ 20) × (n ≤ 16) × (i < n) × (c ≤ 2 * p) }
    requires square { Square p n m.now × Sums p n i w.old }
    ensures { Sums p n (i + 1) w.new }
{
    for j in 0..n {
        w[j] += times(c, m[16 * i + j]);
    }
}

// The traces of X, X·α, …, X·α^(n−1), not reduced. Row i of m holds the coefficients of X^i in the powers of α, so it counts s[i] times, the trace of X^(i+1).
fn row_sums(p: u64, n: usize, s: &[u64; 16], m: &[u64; 256]) -> [u64; 16]
    requires bounds { (p ≤ 2 ^ 20) × (n ≤ 16) }
    requires holds { Holds (2 * p + 1) n s.now × Square p n m.now }
    ensures { Sums p n n result }
{
    let mut w = [0; 16];
    for i in 0..n {
        add_row(p, n, i, s[i], m, &mut w);
    }
    w
}

// f·x modulo p, where x is a sum that is not reduced.
fn multiple(d: Barrett, f: u64, x: u64) -> u64
    requires { (f < d.p) × (x ≤ 64 * (d.p * d.p)) }
    ensures { result < d.p }
{
    d.reduce(times(f, d.reduce(x)))
}

// The coefficients of P: the first of the sums times g, which is 1/n, and the others from the last one down times f, which is 1/(n·a).
fn coefficients(d: Barrett, n: usize, f: u64, g: u64, w: &[u64; 16]) -> [u64; 16]
    requires sizes { (1 ≤ n) × (n ≤ 16) × (f < d.p) × (g < d.p) }
    requires sums { Sums d.p n n w.now }
    ensures { Holds d.p n result }
{
    let mut r = [0; 16];
    r[0] = multiple(d, g, w[0]);
    for i in 1..n {
        r[i] = multiple(d, f, w[n - i]);
    }
    r
}

// The polynomial P with P(α) = X, where column j of m holds α^j and α^n = a; zeros where n·a is 0 modulo p.
// The caller tests the result.
pub fn expression(a: u64, t: &Modulus, m: &[u64; 256]) -> [u64; 16]
    requires prime { Prime t.now.d.p }
    requires below { a < t.now.d.p }
    requires square { Square t.now.d.p t.now.n m.now }
    ensures { Holds t.now.d.p t.now.n result }
{
    let c = t.d.reduce(times(t.n as u64, a));
    if c == 0 {
        return [0; 16];
    }
    let f = inverse(t.d.p, c);
    let g = t.d.reduce(times(a, f));
    let w = row_sums(t.d.p, t.n, &traces(t), m);
    coefficients(t.d, t.n, f, g, &w)
}
