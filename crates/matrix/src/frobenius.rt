// The matrix of u ↦ u^p for a prime p: its columns are the powers of X^p, since u^p = u(X^p).
ghost use Rattle.std.specs.Prelude.{◌≡◌, length, take};
ghost use Rattle.matrix.specs.Matrix.{Frobenius};

use crate::powers::powers;
use residue::modulus::Modulus;
use residue::ring::frobenius_of_x;

// The powers of X^p modulo T.
pub fn frobenius(t: &Modulus, m: &mut [u64; 256])
    requires { length m.old ≡ 256 }
    ensures { Frobenius t.now.d.p t.now.n (take t.now.n t.now.words) m.new }
{
    let x = frobenius_of_x(t);
    powers(t, &x, m);
}
