// Lagrange's resolvent of x = 1 + X + … + X^(n−1): let F be u ↦ u^p on residues modulo T, and z a number of order n modulo p. Then
//     v = x + z^(−1)·F(x) + z^(−2)·F²(x) + … + z^(−(n−1))·F^(n−1)(x)
// satisfies F(v) = z·v if F^n is the identity and F is linear, because z^n = 1: F takes each term to z times the next, and the last to z times the first.
// It is an eigenvector unless it is 0. Where T is X^n less a constant, each X^k is an eigenvector, and x has a part in each; that of X alone would be 0 for most z.
// None of this is proved or promised. The result is a guess: n words below p, whatever the matrix and z are. The caller tests it, and finds an eigenvector by
// elimination where the test fails.
ghost use Rattle.std.specs.Prelude.{◌+◌, ◌^◌, ◌≤◌, ◌<◌};
ghost use Rattle.array.specs.Array.{Holds, Square};
ghost use Rattle.resolvent.specs.Sums.{Sums};

use matrix::product::products;
use modular::barrett::{Barrett, times};
use modular::word::power;

// Adds c·x to sums of k terms. Nothing is reduced: the words of 16 terms fit. Only the contract uses p and k. All 16 words are added, because a loop
// with a known number of turns is faster.
fn add_multiple(p: u64, k: usize, c: u64, x: &[u64; 16], sums: &mut [u64; 16])
    requires bounds { (p ≤ 2 ^ 20) × (k < 16) × (c < p) }
    requires holds { Holds p 16 x.now × Sums p k sums.old }
    ensures { Sums p (k + 1) sums.new }
{
    for i in 0..16 {
        sums[i] += times(c, x[i]);
    }
}

// a·b modulo p, without a division.
fn multiply(d: Barrett, a: u64, b: u64) -> u64
    requires { (a < d.p) × (b < d.p) }
    ensures { result < d.p }
{
    d.reduce(times(a, b))
}

// The list of n ones, and zeros after them.
fn ones(n: usize) -> [u64; 16]
    requires { n ≤ 16 }
    ensures { Holds 2 n result }
{
    let mut w = [0; 16];
    for i in 0..n {
        w[i] = 1;
    }
    w
}

// The sum of the terms y^j·F^j(x) for j < n, where m is the matrix of F: each F^j(x) is its product with the one before.
fn sum_of_terms(d: Barrett, n: usize, y: u64, m: &[u64; 256]) -> [u64; 16]
    requires sizes { (1 ≤ n) × (n ≤ 16) × (y < d.p) }
    requires square { Square d.p n m.now }
    ensures { Sums d.p 16 result }
{
    let mut x = ones(n);
    let mut sums = x;
    let mut c = 1;
    for j in 1..n {
        x = products(d, n, n, m, &x);
        c = multiply(d, c, y);
        add_multiple(d.p, j, c, &x, &mut sums);
    }
    sums
}

// The first n sums modulo p, and zeros after them.
fn reduce(d: Barrett, n: usize, sums: &[u64; 16]) -> [u64; 16]
    requires degree { n ≤ 16 }
    requires sums { Sums d.p 16 sums.now }
    ensures { Holds d.p n result }
{
    let mut w = [0; 16];
    for i in 0..n {
        w[i] = d.reduce(sums[i]);
    }
    w
}

// The resolvent for the matrix m of F. The inverse of z is z^(n−1).
pub fn resolvent(d: Barrett, n: usize, z: u64, m: &[u64; 256]) -> [u64; 16]
    requires sizes { (1 ≤ n) × (n ≤ 16) × (z < d.p) }
    requires square { Square d.p n m.now }
    ensures { Holds d.p n result }
{
    let y = power(d.p, z, n as u64 - 1);
    reduce(d, n, &sum_of_terms(d, n, y, m))
}
