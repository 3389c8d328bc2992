// Residues as vectors: multiples, division by the first word that is not 0, and the test for constants.
ghost use Rattle.std.specs.Prelude.{◌≡◌, ◌^◌, ◌≤◌, ◌<◌, get_or, take};
ghost use Rattle.algebra.specs.Prime.{Prime};
ghost use Rattle.modular.specs.Inverse.{inverse};
ghost use Rattle.quotient.specs.Residue.{scale, constant};
ghost use Rattle.array.specs.Array.{padded, Holds};
ghost use Rattle.galois.specs.Eigenvector.{first_non_zero};
ghost use Rattle.algebra.specs.Search.{Decides};

use modular::word::{inverse, mul};

// c·u modulo p.
pub fn scale(p: u64, n: usize, c: u64, u: &[u64; 16]) -> [u64; 16]
    requires sizes { (p ≤ 2 ^ 20) × (n ≤ 16) × (c < p) }
    requires holds { Holds p n u.now }
    ensures { result ≡ padded (scale p c (take n u.now)) }
{
    let mut w = [0; 16];
    for i in 0..n {
        w[i] = mul(p, c, u[i]);
    }
    w
}

// The first word that is not 0, and 0 where there is none: no other answer is 0.
pub fn first_non_zero(p: u64, n: usize, u: &[u64; 16]) -> u64
    requires size { n ≤ 16 }
    requires holds { Holds p n u.now }
    ensures { result ≡ first_non_zero (take n u.now) }
{
    for x in &u[..n] {
        if *x != 0 {
            return *x;
        }
    }
    0
}

// u times the inverse of its first word that is not 0.
pub fn normalise(p: u64, n: usize, u: &[u64; 16]) -> [u64; 16]
    requires prime { Prime p }
    requires sizes { (p ≤ 2 ^ 20) × (n ≤ 16) }
    requires holds { Holds p n u.now }
    requires not_zero { take n u.now ≡ constant n 0 → ⊥ }
    ensures value { result ≡ padded (scale p (inverse p (first_non_zero (take n u.now))) (take n u.now)) }
    ensures holds { Holds p n result }
{
    scale(p, n, inverse(p, first_non_zero(p, n, u)), u)
}

// Whether u is a constant: every word after the first is 0.
pub fn is_constant(p: u64, n: usize, u: &[u64; 16]) -> bool
    requires size { (1 ≤ n) × (n ≤ 16) }
    requires holds { Holds p n u.now }
    ensures { Decides result (take n u.now ≡ constant n (get_or u.now 0 0)) }
{
    u[1..n].iter().all(|x| *x == 0)
}
