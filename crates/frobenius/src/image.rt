// A polynomial in one residue taken to the same polynomial in another, by the matrices of their powers.
ghost use Rattle.std.specs.Prelude.{true, ◌≡◌, ◌<◌, take};
ghost use Rattle.algebra.specs.Prime.{Prime};
ghost use Rattle.array.specs.Array.{Square, Holds};
ghost use Rattle.frobenius.specs.Image.{Expression, Image};

use comparison::equality::is_x;
use linear::system::{Solution, solve};
use matrix::product::apply;
use residue::modulus::Modulus;
use residue::ring::residue_of_x;
use traces::polynomial::expression;

// The polynomial P with P(a1) = X modulo T, where the columns of m are the powers of a1 modulo T,
// by elimination on a copy of m. Where the system is singular, the powers are dependent, and
// nothing is said of P.
fn by_elimination(t: &Modulus, m: &[u64; 256]) -> [u64; 16]
    requires prime { Prime t.now.d.p }
    requires holds { Square t.now.d.p t.now.n m.now }
    ensures { Expression t.now.d.p t.now.n (take t.now.n t.now.words) m.now result }
{
    let mut system = *m;
    let x = residue_of_x(t);
    match solve(t.d, t.n, &mut system, x) {
        Solution::Unique(vector) | Solution::NullVector(vector) => vector,
    }
}

// Whether a polynomial has the value X modulo T at a1.
fn is_expression(t: &Modulus, m: &[u64; 256], polynomial: &[u64; 16]) -> bool
    requires prime { Prime t.now.d.p }
    requires holds { Square t.now.d.p t.now.n m.now × Holds t.now.d.p t.now.n polynomial.now }
    ensures { result ≡ true → Expression t.now.d.p t.now.n (take t.now.n t.now.words) m.now polynomial.now }
{
    let value = apply(t.d, t.n, m, polynomial);
    is_x(t, &value)
}

// The polynomial P by traces, as it is where a1^n is the constant a; if that fails the test, or a is 0, by elimination.
fn polynomial(a: u64, t: &Modulus, m: &[u64; 256]) -> [u64; 16]
    requires prime { Prime t.now.d.p }
    requires below { a < t.now.d.p }
    requires holds { Square t.now.d.p t.now.n m.now }
    ensures { Expression t.now.d.p t.now.n (take t.now.n t.now.words) m.now result }
{
    if a == 0 {
        return by_elimination(t, m);
    }
    let guess = expression(a, t, m);
    if is_expression(t, m, &guess) {
        return guess;
    }
    by_elimination(t, m)
}

// P(a2), where P(a1) = X modulo T: the columns of m1 are the powers of a1 modulo T, those of m2 the powers of a2. Only for speed is a the constant a1^n, or 0
// where a1^n is none.
pub fn image(a: u64, t: &Modulus, m1: &[u64; 256], m2: &[u64; 256]) -> [u64; 16]
    requires prime { Prime t.now.d.p }
    requires below { a < t.now.d.p }
    requires square { Square t.now.d.p t.now.n m1.now × Square t.now.d.p t.now.n m2.now }
    ensures { Image t.now.d.p t.now.n (take t.now.n t.now.words) m1.now m2.now result }
{
    let polynomial = polynomial(a, t, m1);
    apply(t.d, t.n, m2, &polynomial)
}
