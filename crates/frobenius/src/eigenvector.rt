// An eigenvector of the p-th power, v^p = ζ·v modulo T, from the kernel of u ↦ u^p − ζ·u or, for n = 2, by completing the square. It also decides whether T has a
// monic divisor of degree 1 to n − 1.
ghost use Rattle.std.specs.Prelude.{true, ◌≡◌, ◌<◌, length, take, MatchOption, IfSome};
ghost use Rattle.algebra.specs.Prime.{Prime};
ghost use Rattle.array.specs.Array.{Holds};
ghost use Rattle.quotient.specs.DivisorTest.{has_divisor};
ghost use Rattle.quotient.specs.Residue.{constant};
ghost use Rattle.frobenius.specs.Kernel.{Divided, NoConstant, EigenvectorFound};
ghost use Rattle.roots.specs.Roots.{Admissible, OrderModulo};

use crate::kernel::kernel;
use residue::modulus::Modulus;
use residue::ring::power;
use roots::radicand::is_radicand;
use scalar::vector::{is_constant, normalise};

// A vector v whose first word that is not 0 is 1, and the constant v^n.
#[derive(Clone, Copy)]
pub struct Normalised {
    pub vector: [u64; 16],
    pub constant: u64,
}

// A vector v ≠ 0 divided by its first word that is not 0, and its n-th power, if it is a constant.
fn divided(t: &Modulus, v: &[u64; 16]) -> Option<Normalised>
    requires prime { Prime t.now.d.p }
    requires not_zero { Holds t.now.d.p t.now.n v.now × (take t.now.n v.now ≡ constant t.now.n 0 → ⊥) }
    ensures { MatchOption result (NoConstant t.now.d.p t.now.n (take t.now.n t.now.words) (take t.now.n v.now)) (λ u. Divided t.now.d.p t.now.n (take t.now.n t.now.words) (take t.now.n v.now) u.vector u.constant) }
{
    let n = t.n;
    let vector = normalise(t.d.p, n, v);
    let power = power(t, &vector, n as u64);
    if !is_constant(t.d.p, n, &power) {
        return None;
    }
    Some(Normalised {
        vector,
        constant: power[0],
    })
}

// An eigenvector from the kernel: T has no proper divisor exactly if its n-th power is a constant. The array m is worked on.
fn by_kernel(z: u64, t: &Modulus, m: &mut [u64; 256]) -> Option<Normalised>
    requires admissible { Admissible t.now.d.p t.now.n }
    requires order { (z < t.now.d.p) × OrderModulo t.now.d.p t.now.n z }
    requires matrix_size { length m.old ≡ 256 }
    ensures eigenvector { MatchOption result (has_divisor t.now.d.p (take t.now.n t.now.words) ≡ true) (λ v. EigenvectorFound t.now.d.p t.now.n (take t.now.n t.now.words) z v.vector v.constant) }
    ensures matrix_size { length m.new ≡ 256 }
{
    let v = kernel(z, t, m)?;
    divided(t, &v)
}

// An eigenvector from any vector v ≠ 0: if its n-th power, after division by its first word that is not 0, is a constant b and b^((p − 1)/n) = ζ, then it is one, and no
// p-th power is needed. Where that test fails, nothing is said.
fn by_power(z: u64, t: &Modulus, v: &[u64; 16]) -> Option<Normalised>
    requires admissible { Admissible t.now.d.p t.now.n }
    requires order { (z < t.now.d.p) × OrderModulo t.now.d.p t.now.n z }
    requires not_zero { Holds t.now.d.p t.now.n v.now × (take t.now.n v.now ≡ constant t.now.n 0 → ⊥) }
    ensures { IfSome result (λ u. EigenvectorFound t.now.d.p t.now.n (take t.now.n t.now.words) z u.vector u.constant) }
{
    let n = t.n;
    let root = divided(t, v)?;
    if is_radicand(t.d.p, n as u64, z, root.constant) {
        Some(root)
    } else {
        None
    }
}

// 2X + t1, whose square modulo X² + t1·X + t0 is the constant t1² − 4·t0.
fn completed_square(t: &Modulus) -> [u64; 16]
    requires { (2 < t.now.d.p) × (t.now.n ≡ 2) }
    ensures { Holds t.now.d.p t.now.n result × (take t.now.n result ≡ constant t.now.n 0 → ⊥) }
{
    let mut v = [0; 16];
    v[0] = t.words[1];
    v[1] = 2;
    v
}

// An eigenvector, if T has no monic divisor of degree 1 to n − 1: for n = 2 by completing the
// square. The array m is worked on.
pub fn eigenvector(z: u64, t: &Modulus, m: &mut [u64; 256]) -> Option<Normalised>
    requires admissible { Admissible t.now.d.p t.now.n }
    requires order { (z < t.now.d.p) × OrderModulo t.now.d.p t.now.n z }
    requires matrix_size { length m.old ≡ 256 }
    ensures eigenvector { MatchOption result (has_divisor t.now.d.p (take t.now.n t.now.words) ≡ true) (λ v. EigenvectorFound t.now.d.p t.now.n (take t.now.n t.now.words) z v.vector v.constant) }
    ensures matrix_size { length m.new ≡ 256 }
{
    let n = t.n;
    if n == 2 {
        if let Some(root) = by_power(z, t, &completed_square(t)) {
            return Some(root);
        }
    }
    by_kernel(z, t, m)
}
