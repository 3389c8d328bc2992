// Whether a residue w has an inverse modulo T, by one elimination. The columns w, X·w, …, X^(n−1)·w are the matrix of v ↦ v·w: a regular system has a v with v·w = 1, and a
// singular one a v other than 0 with v·w = 0, which no w with an inverse has.
ghost use Rattle.std.specs.Prelude.{take};
ghost use Rattle.algebra.specs.Prime.{Prime};
ghost use Rattle.algebra.specs.Search.{Decides};
ghost use Rattle.array.specs.Array.{Holds};
ghost use Rattle.quotient.specs.Residue.{HasInverse};

use linear::system::{Solution, solve};
use matrix::multiples::multiples;
use residue::modulus::Modulus;

// Whether w has an inverse modulo T.
pub fn has_inverse(t: &Modulus, w: &[u64; 16]) -> bool
    requires prime { Prime t.now.d.p }
    requires holds { Holds t.now.d.p t.now.n w.now }
    ensures { Decides result (HasInverse t.now.d.p (take t.now.n t.now.words) (take t.now.n w.now)) }
{
    let mut m = [0; 256];
    multiples(t, w, &mut m);
    let mut one = [0; 16];
    one[0] = 1;
    matches!(solve(t.d, t.n, &mut m, one), Solution::Unique(_))
}
