// The conjugates X^(p^k) of X modulo T, by the matrix of u ↦ u^p; one matrix serves all.
ghost use Rattle.std.specs.Prelude.{◌≡◌, take};
ghost use Rattle.algebra.specs.Prime.{Prime};
ghost use Rattle.array.specs.Array.{padded};
ghost use Rattle.matrix.specs.Matrix.{Frobenius};
ghost use Rattle.irreducible.specs.Rabin.{conjugate_of_x, difference as difference_of};

use matrix::product::products;
use residue::difference::subtract;
use residue::modulus::Modulus;
use residue::ring::residue_of_x;

// X^(p^k) modulo T, from X by k products with the matrix.
pub fn conjugate(t: &Modulus, m: &[u64; 256], k: usize) -> [u64; 16]
    requires prime { Prime t.now.d.p }
    requires holds { Frobenius t.now.d.p t.now.n (take t.now.n t.now.words) m.now }
    ensures { result ≡ padded (conjugate_of_x t.now.d.p (take t.now.n t.now.words) k) }
{
    let mut u = residue_of_x(t);
    // The turns are counted by name, since the loop's invariant says that u is X^(p^i).
    for _i in 0..k {
        u = products(t.d, t.n, t.n, m, &u);
    }
    u
}

// X^(p^k) − X modulo T.
pub fn difference(t: &Modulus, m: &[u64; 256], k: usize) -> [u64; 16]
    requires prime { Prime t.now.d.p }
    requires holds { Frobenius t.now.d.p t.now.n (take t.now.n t.now.words) m.now }
    ensures { result ≡ padded (difference_of t.now.d.p (take t.now.n t.now.words) k) }
{
    let u = conjugate(t, m, k);
    let x = residue_of_x(t);
    subtract(t.d.p, t.n, &u, &x)
}
