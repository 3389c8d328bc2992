// The matrix of u ↦ u·S: its columns are S, X·S, X²·S, …, so that u·S is its product with u. It costs two to three products, and then each
// product with S a third of one.
ghost use Rattle.std.specs.Prelude.{◌≡◌, take, replicate};
ghost use Rattle.array.specs.Array.{Holds};
ghost use Rattle.matrix.specs.Matrix.{Multiples};

use crate::powers::place;
use residue::modulus::Modulus;
use residue::ring::times_x;

// The multiples S, X·S, …, X^(n−1)·S modulo T, into a matrix that is 0.
pub fn multiples(t: &Modulus, s: &[u64; 16], m: &mut [u64; 256])
    requires holds { Holds t.now.d.p t.now.n s.now }
    requires zeros { m.old ≡ replicate 256 0 }
    ensures { Multiples t.now.d.p t.now.n (take t.now.n t.now.words) (take t.now.n s.now) m.new }
{
    let mut w = *s;
    place(t.n, 0, &w, m);
    for k in 1..t.n {
        times_x(t, &mut w);
        place(t.n, k, &w, m);
    }
}
