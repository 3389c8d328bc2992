// The finder on two moduli of one prime and one degree: Algorithm 2.1 with the choices of document
// 01, normalised as document 02, S-6, says, where n divides p − 1; where n is a power of p,
// Algorithm 4.1 with the choice of S-7.
ghost use Rattle.std.specs.Prelude.{◌≡◌, ◌^◌, ◌≤◌, ◌<◌, length, take, IfOk};
ghost use Rattle.algebra.specs.Prime.{Prime};
ghost use Rattle.refusal.specs.Number.{number_of};
ghost use Rattle.finder.specs.Construct.{Size, Choices, FoundPair};
ghost use Rattle.finder.specs.Finder.{refuse_find};
ghost use Rattle.roots.specs.Roots.{zeta, Admissible};
ghost use Rattle.frobenius.specs.Kernel.{EigenvectorFound};

use frobenius::eigenvector::{Normalised, eigenvector};
use frobenius::image::image;
use frobenius::scaling::scaling;
use matrix::powers::powers;
use refusal::Refusal;
use residue::modulus::Modulus;
use roots::radicand::radicand;
use roots::root::prepare;
use roots::unity::zeta;
use tower::exponent::exponent;
use tower::generator::generator;

// S and R.
#[derive(Clone, Copy)]
pub struct Pair {
    pub forward: [u64; 16],
    pub backward: [u64; 16],
}

// The pair from α1 and α2, by whatever method they were found: S = P1(α2) and R = P2(α1), where Pi(αi) = X modulo Ti. Only for speed is a the constant α1^n = α2^n, or 0 where these are none.
// The powers of α1 are written into the array m.
fn between(
    a: u64,
    t1: &Modulus,
    t2: &Modulus,
    alpha1: &[u64; 16],
    alpha2: &[u64; 16],
    m: &mut [u64; 256],
) -> Pair
    requires size { Size t1.now.d.p t1.now.n }
    requires same { (t2.now.d.p ≡ t1.now.d.p) × (t2.now.n ≡ t1.now.n) }
    requires matrix_size { length m.old ≡ 256 }
    requires constant_below { a < t1.now.d.p }
    requires choices { Choices t1.now.d.p t1.now.n (take t1.now.n t1.now.words) (take t1.now.n t2.now.words) alpha1.now alpha2.now }
    ensures { FoundPair t1.now.d.p t1.now.n (take t1.now.n t1.now.words) (take t1.now.n t2.now.words) 0 result.forward result.backward }
{
    let mut w = [0; 256];
    powers(t1, alpha1, m);
    powers(t2, alpha2, &mut w);
    Pair {
        forward: image(a, t1, m, &w),
        backward: image(a, t2, &w, m),
    }
}

// The pair from an eigenvector of each model: α1 and α2 are their scalings whose n-th power is a, which both models have in common.
fn from_scalings(
    z: u64,
    t1: &Modulus,
    t2: &Modulus,
    first: Normalised,
    second: Normalised,
    m: &mut [u64; 256],
) -> Pair
    requires admissible { Admissible t1.now.d.p t1.now.n }
    requires same { (t2.now.d.p ≡ t1.now.d.p) × (t2.now.n ≡ t1.now.n) }
    requires zeta { (z < t1.now.d.p) × (z ≡ zeta t1.now.d.p t1.now.n) }
    requires matrix_size { length m.old ≡ 256 }
    requires first_found { EigenvectorFound t1.now.d.p t1.now.n (take t1.now.n t1.now.words) z first.vector first.constant }
    requires second_found { EigenvectorFound t1.now.d.p t1.now.n (take t1.now.n t2.now.words) z second.vector second.constant }
    ensures { FoundPair t1.now.d.p t1.now.n (take t1.now.n t1.now.words) (take t1.now.n t2.now.words) 0 result.forward result.backward }
{
    let p = t1.d.p;
    let n = t1.n;
    let a = radicand(p, n as u64, z);
    let by = prepare(p, n as u64, a);
    let alpha1 = scaling(p, n, z, by, a, first);
    let alpha2 = scaling(p, n, z, by, a, second);
    between(a, t1, t2, &alpha1, &alpha2, m)
}

// S and R for the two models, or the refusal of a modulus with a monic divisor of degree 1 to n − 1. One array serves both kernels and a matrix of powers.
fn from_eigenvectors(t1: &Modulus, t2: &Modulus) -> Result<Pair, Refusal>
    requires admissible { Admissible t1.now.d.p t1.now.n }
    requires same { (t2.now.d.p ≡ t1.now.d.p) × (t2.now.n ≡ t1.now.n) }
    ensures number { number_of result ≡ refuse_find t1.now.d.p t1.now.n (take t1.now.n t1.now.words) (take t1.now.n t2.now.words) }
    ensures pair { IfOk result (λ pair. FoundPair t1.now.d.p t1.now.n (take t1.now.n t1.now.words) (take t1.now.n t2.now.words) 0 pair.forward pair.backward) }
{
    let mut m = [0; 256];
    let z = zeta(t1.d.p, t1.n as u64);
    let first = eigenvector(z, t1, &mut m).ok_or(Refusal::FirstModulus)?;
    let second = eigenvector(z, t2, &mut m).ok_or(Refusal::SecondModulus)?;
    Ok(from_scalings(z, t1, t2, first, second, &mut m))
}

// The same from the rounds of Algorithm 4.1, where n = p^k.
fn from_rounds(k: u64, t1: &Modulus, t2: &Modulus) -> Result<Pair, Refusal>
    requires size { Size t1.now.d.p t1.now.n }
    requires same { (t2.now.d.p ≡ t1.now.d.p) × (t2.now.n ≡ t1.now.n) }
    requires exponent { (1 ≤ k) × (t1.now.n ≡ t1.now.d.p ^ k) }
    ensures number { number_of result ≡ refuse_find t1.now.d.p t1.now.n (take t1.now.n t1.now.words) (take t1.now.n t2.now.words) }
    ensures pair { IfOk result (λ pair. FoundPair t1.now.d.p t1.now.n (take t1.now.n t1.now.words) (take t1.now.n t2.now.words) 0 pair.forward pair.backward) }
{
    let alpha1 = generator(k, t1).ok_or(Refusal::FirstModulus)?;
    let alpha2 = generator(k, t2).ok_or(Refusal::SecondModulus)?;
    let mut m = [0; 256];
    Ok(between(0, t1, t2, &alpha1, &alpha2, &mut m))
}

// The same by the method for p and n, or the refusal of an n that neither divides p − 1 nor is a power of p.
pub fn construct(t1: &Modulus, t2: &Modulus) -> Result<Pair, Refusal>
    requires prime { Prime t1.now.d.p }
    requires same { (t2.now.d.p ≡ t1.now.d.p) × (t2.now.n ≡ t1.now.n) }
    ensures number { number_of result ≡ refuse_find t1.now.d.p t1.now.n (take t1.now.n t1.now.words) (take t1.now.n t2.now.words) }
    ensures pair { IfOk result (λ pair. FoundPair t1.now.d.p t1.now.n (take t1.now.n t1.now.words) (take t1.now.n t2.now.words) 0 pair.forward pair.backward) }
{
    let p = t1.d.p;
    let n = t1.n;
    if (p - 1) % (n as u64) == 0 {
        return from_eigenvectors(t1, t2);
    }
    let k = exponent(p, n as u64).ok_or(Refusal::Method)?;
    from_rounds(k, t1, t2)
}
