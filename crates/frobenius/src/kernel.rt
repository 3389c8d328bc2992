// The kernel of the linear map u ↦ u^p − z·u on residues modulo T: Lagrange's resolvent, if it passes the test, or else by elimination.
ghost use Rattle.std.specs.Prelude.{true, ◌≡◌, ◌≤◌, ◌<◌, length, take, MatchOption};
ghost use Rattle.algebra.specs.Prime.{Prime};
ghost use Rattle.array.specs.Array.{Square, Holds};
ghost use Rattle.matrix.specs.Matrix.{Frobenius};
ghost use Rattle.frobenius.specs.Kernel.{Stretched, Kernel, TrivialKernel};

use comparison::equality::same;
use linear::system::{Solution, solve};
use matrix::frobenius::frobenius;
use matrix::product::apply;
use modular::barrett::Barrett;
use residue::modulus::Modulus;
use resolvent::lagrange::resolvent;
use scalar::shift::minus;
use scalar::vector::{first_non_zero, scale};

// Whether v is not 0 and the matrix m takes it to z·v.
fn is_eigenvector(d: Barrett, n: usize, z: u64, m: &[u64; 256], v: &[u64; 16]) -> bool
    requires sizes { (n ≤ 16) × (z < d.p) }
    requires square { Square d.p n m.now × Holds d.p n v.now }
    ensures { result ≡ true → Stretched d.p n z m.now (take n v.now) }
{
    if first_non_zero(d.p, n, v) == 0 {
        return false;
    }
    let image = apply(d, n, m, v);
    let multiple = scale(d.p, n, z, v);
    same(n, &image, &multiple)
}

// A vector other than 0 in the kernel of u ↦ u^p − z·u, if there is one, by elimination from the
// matrix m of u ↦ u^p. The system is written into m.
fn by_elimination(z: u64, t: &Modulus, m: &mut [u64; 256]) -> Option<[u64; 16]>
    requires prime { Prime t.now.d.p }
    requires below { z < t.now.d.p }
    requires frobenius { Frobenius t.now.d.p t.now.n (take t.now.n t.now.words) m.old }
    ensures kernel { MatchOption result (TrivialKernel t.now.d.p t.now.n (take t.now.n t.now.words) z) (λ v. Kernel t.now.d.p t.now.n (take t.now.n t.now.words) z v) }
    ensures matrix_size { length m.new ≡ 256 }
{
    minus(t.d.p, t.n, z, m);
    match solve(t.d, t.n, m, [0; 16]) {
        Solution::Unique(_) => None,
        Solution::NullVector(v) => Some(v),
    }
}

// A vector other than 0 in the kernel of u ↦ u^p − z·u, if there is one: the resolvent, if it
// passes the test, else by elimination. For n < 4 elimination is as fast. The array m is worked on.
pub fn kernel(z: u64, t: &Modulus, m: &mut [u64; 256]) -> Option<[u64; 16]>
    requires prime { Prime t.now.d.p }
    requires below { z < t.now.d.p }
    requires matrix_size { length m.old ≡ 256 }
    ensures kernel { MatchOption result (TrivialKernel t.now.d.p t.now.n (take t.now.n t.now.words) z) (λ v. Kernel t.now.d.p t.now.n (take t.now.n t.now.words) z v) }
    ensures matrix_size { length m.new ≡ 256 }
{
    let n = t.n;
    frobenius(t, m);
    if n < 4 {
        return by_elimination(z, t, m);
    }
    let v = resolvent(t.d, n, z, m);
    if is_eigenvector(t.d, n, z, m, &v) {
        return Some(v);
    }
    by_elimination(z, t, m)
}
