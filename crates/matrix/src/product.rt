// The product of a matrix with a residue, modulo p.
ghost use Rattle.std.specs.Prelude.{◌≡◌, ◌*◌, ◌%◌, ◌^◌, ◌≤◌, ◌<◌, take};
ghost use Rattle.array.specs.Array.{padded, Holds, Square, row_product};
ghost use Rattle.matrix.specs.Matrix.{matrix_product, Factors};

use modular::barrett::Barrett;

// The low 32 bits of a word of a row times a word of u. Past the words that count one of the two is 0, and what the other holds there is left out.
fn term(a: u64, b: u64) -> u64
    requires { b < 2 ^ 32 }
    ensures { result ≡ a % 2 ^ 32 * b }
{
    (a % 4294967296) * (b % 4294967296)
}

// The product of row i with u, modulo p: the sum of sixteen products is reduced once. With that number in place of n the loop is unrolled.
pub fn dot(d: Barrett, n: usize, m: &[u64; 256], u: &[u64; 16], i: usize) -> u64
    requires sizes { (n ≤ 16) × (i < n) }
    requires factors { Factors d.p n i m.now u.now }
    ensures { result ≡ row_product m.now i 0 (take n u.now) % d.p }
{
    let mut sum = 0;
    for j in 0..16 {
        sum += term(m[16 * i + j], u[j]);
    }
    d.reduce(sum)
}

// The products of the first n rows with u, modulo p, in k columns.
pub fn products(d: Barrett, n: usize, k: usize, m: &[u64; 256], u: &[u64; 16]) -> [u64; 16]
    requires sizes { (n ≤ k) × (k ≤ 16) }
    requires square { Square d.p k m.now × Holds d.p k u.now }
    ensures { result ≡ padded (matrix_product d.p n m.now (take k u.now)) }
{
    let mut w = [0; 16];
    for i in 0..n {
        w[i] = dot(d, k, m, u, i);
    }
    w
}

// The product of a matrix with u, modulo p.
pub fn apply(d: Barrett, n: usize, m: &[u64; 256], u: &[u64; 16]) -> [u64; 16]
    requires size { n ≤ 16 }
    requires square { Square d.p n m.now × Holds d.p n u.now }
    ensures { result ≡ padded (matrix_product d.p n m.now (take n u.now)) }
{
    products(d, n, n, m, u)
}
