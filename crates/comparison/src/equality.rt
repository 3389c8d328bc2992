// Comparison of residues, on arrays of 16 words.
ghost use Rattle.std.specs.Prelude.{◌≡◌, ◌^◌, ◌≤◌, length, take};
ghost use Rattle.algebra.specs.Lists.{equal};
ghost use Rattle.quotient.specs.Residue.{constant, sum, residue_of_x};
ghost use Rattle.array.specs.Array.{Holds};

use modular::word::add;
use residue::modulus::Modulus;
use residue::ring::residue_of_x;

// Whether u = v.
pub fn same(n: usize, u: &[u64; 16], v: &[u64; 16]) -> bool
    requires { (n ≤ 16) × (length u.now ≡ 16) × (length v.now ≡ 16) }
    ensures { result ≡ equal (take n u.now) (take n v.now) }
{
    u[..n] == v[..n]
}

// Whether u + v = 0.
pub fn opposite(p: u64, n: usize, u: &[u64; 16], v: &[u64; 16]) -> bool
    requires { (p ≤ 2 ^ 20) × (n ≤ 16) × Holds p n u.now × Holds p n v.now }
    ensures { result ≡ equal (sum p (take n u.now) (take n v.now)) (constant n 0) }
{
    for i in 0..n {
        if add(p, u[i], v[i]) != 0 {
            return false;
        }
    }
    true
}

// Whether u = X modulo T.
pub fn is_x(t: &Modulus, u: &[u64; 16]) -> bool
    requires { length u.now ≡ 16 }
    ensures { result ≡ equal (take t.now.n u.now) (residue_of_x t.now.d.p (take t.now.n t.now.words)) }
{
    let x = residue_of_x(t);
    same(t.n, u, &x)
}
