// The matrix of u ↦ u(S): its columns are the powers of S, so that u(S) is its product with u. One matrix serves any number of substitutions.
// It is one flat array of 256 words, 16 rows of 16 words, as document 01 has it; the caller lends it.
ghost use Rattle.std.specs.Prelude.{◌≡◌, ◌≤◌, ◌<◌, length, take};
ghost use Rattle.array.specs.Array.{padded, Holds};
ghost use Rattle.matrix.specs.Matrix.{Powers, Placed, Kept, column as column_of};

use crate::multiples::multiples;
use crate::product::products;
use residue::modulus::Modulus;
use residue::ring::multiply;

// Writes the first n words of u into column j.
pub fn place(n: usize, j: usize, u: &[u64; 16], m: &mut [u64; 256])
    requires { (n ≤ 16) × (j < 16) × (length u.now ≡ 16) × (length m.old ≡ 256) }
    ensures { Placed n j u.now m.old m.new }
{
    for i in 0..n {
        m[16 * i + j] = u[i];
    }
}

// The powers S, …, S^(n−1), by n − 2 products, into a matrix whose column 0 is 1.
fn few_powers(t: &Modulus, s: &[u64; 16], m: &mut [u64; 256])
    requires degree { 2 ≤ t.now.n }
    requires holds { Holds t.now.d.p t.now.n s.now }
    requires first { Powers t.now.d.p 1 (take t.now.n t.now.words) (take t.now.n s.now) m.old }
    ensures powers { Powers t.now.d.p t.now.n (take t.now.n t.now.words) (take t.now.n s.now) m.new }
    ensures kept { Kept t.now.n m.old m.new }
{
    let mut u = *s;
    place(t.n, 1, &u, m);
    for j in 2..t.n {
        u = multiply(t, s, &u);
        place(t.n, j, &u, m);
    }
}

// The same by the matrix of u ↦ u·S. All its 16 columns are taken, because a sum of a known number of products is faster.
fn many_powers(t: &Modulus, s: &[u64; 16], m: &mut [u64; 256])
    requires degree { 2 ≤ t.now.n }
    requires holds { Holds t.now.d.p t.now.n s.now }
    requires first { Powers t.now.d.p 1 (take t.now.n t.now.words) (take t.now.n s.now) m.old }
    ensures powers { Powers t.now.d.p t.now.n (take t.now.n t.now.words) (take t.now.n s.now) m.new }
    ensures kept { Kept t.now.n m.old m.new }
{
    let n = t.n;
    let mut by_s = [0; 256];
    multiples(t, s, &mut by_s);
    let mut u = *s;
    place(n, 1, &u, m);
    for j in 2..n {
        u = products(t.d, n, 16, &by_s, &u);
        place(n, j, &u, m);
    }
}

// The same by the way that is faster: the matrix of u ↦ u·S is worth its cost from degree 7 on.
fn higher_powers(t: &Modulus, s: &[u64; 16], m: &mut [u64; 256])
    requires degree { 2 ≤ t.now.n }
    requires holds { Holds t.now.d.p t.now.n s.now }
    requires first { Powers t.now.d.p 1 (take t.now.n t.now.words) (take t.now.n s.now) m.old }
    ensures powers { Powers t.now.d.p t.now.n (take t.now.n t.now.words) (take t.now.n s.now) m.new }
    ensures kept { Kept t.now.n m.old m.new }
{
    let n = t.n;
    if n < 7 {
        few_powers(t, s, m);
    } else {
        many_powers(t, s, m);
    }
}

// The powers 1, S, …, S^(n−1) modulo T. The further columns stay as they are.
pub fn powers(t: &Modulus, s: &[u64; 16], m: &mut [u64; 256])
    requires holds { Holds t.now.d.p t.now.n s.now }
    requires size { length m.old ≡ 256 }
    ensures powers { Powers t.now.d.p t.now.n (take t.now.n t.now.words) (take t.now.n s.now) m.new }
    ensures kept { Kept t.now.n m.old m.new }
{
    let n = t.n;
    let mut one = [0; 16];
    one[0] = 1;
    place(n, 0, &one, m);
    if n > 1 {
        higher_powers(t, s, m);
    }
}

// Column j of a matrix.
pub fn column(n: usize, m: &[u64; 256], j: usize) -> [u64; 16]
    requires { (n ≤ 16) × (j < 16) × (length m.now ≡ 256) }
    ensures { result ≡ padded (column_of n m.now j) }
{
    let mut w = [0; 16];
    for i in 0..n {
        w[i] = m[16 * i + j];
    }
    w
}
