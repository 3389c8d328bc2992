// The difference of residues, on arrays of 16 words.
ghost use Rattle.std.specs.Prelude.{◌≡◌, ◌-◌, ◌^◌, ◌≤◌, take};
ghost use Rattle.quotient.specs.Residue.{sum, scale};
ghost use Rattle.array.specs.Array.{padded, Holds};

use modular::word::sub;

// u − v modulo p.
pub fn subtract(p: u64, n: usize, u: &[u64; 16], v: &[u64; 16]) -> [u64; 16]
    requires sizes { (2 ≤ p) × (p ≤ 2 ^ 20) × (n ≤ 16) }
    requires holds { Holds p n u.now × Holds p n v.now }
    ensures { result ≡ padded (sum p (take n u.now) (scale p (p - 1) (take n v.now))) }
{
    let mut w = [0; 16];
    for i in 0..n {
        w[i] = sub(p, u[i], v[i]);
    }
    w
}
