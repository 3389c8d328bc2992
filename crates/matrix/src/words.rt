// The product of a matrix with words of a list, modulo p, into another list: for tables, where the divisor is worked out once for many products.
ghost use Rattle.std.specs.Prelude.{◌≡◌, ◌%◌, ◌≤◌, ◌<◌, length, take};
ghost use Rattle.array.specs.Words.{Words, word_bound};
ghost use Rattle.array.specs.Array.{Square, row_product};
ghost use Rattle.matrix.specs.Matrix.{matrix_product, Rows, Begins};

use crate::product::dot;
use array::Word;
use array::copy::load;
use modular::barrett::{Barrett, times};

// The product of row i with a list of N words, modulo p.
fn dot_list<const N: usize>(d: Barrett, m: &[u64; 256], u: &[Word], i: usize) -> u64
    requires sizes { (N ≤ 16) × (i < N) }
    requires square { Square d.p N m.now × Words d.p N u.now }
    ensures { result ≡ row_product m.now i 0 u.now % d.p }
{
    let mut sum = 0;
    for j in 0..N {
        sum += times(m[16 * i + j], u[j] as u64);
    }
    d.reduce(sum)
}

// The product with few words, read from the list for each row. Their number is a constant, so that the compiler unrolls both loops.
fn multiply_few<const N: usize>(d: Barrett, m: &[u64; 256], u: &[Word], out: &mut [Word])
    requires sizes { (N ≤ 16) × (length out.old ≡ N) }
    requires square { Square d.p N m.now × Words d.p N u.now }
    ensures { out.new ≡ matrix_product d.p N m.now u.now }
{
    for i in 0..N {
        out[i] = dot_list::<N>(d, m, u, i) as Word;
    }
}

// The first n words of u in an array, with what follows them where there are 16: the compiler knows their number then, and loads them without a loop.
fn load_words(n: usize, u: &[Word]) -> [u64; 16]
    requires { (n ≤ 16) × (n ≤ length u.now) × Words word_bound (length u.now) u.now }
    ensures { Begins n u.now result }
{
    if u.len() < 16 {
        return load(&u[..n]);
    }
    load(&u[..16])
}

// The product with many words, which are loaded once for all rows. What follows them in the array meets the zeros of the matrix.
fn multiply_many(d: Barrett, n: usize, m: &[u64; 256], u: &[Word], out: &mut [Word])
    requires sizes { (n ≤ 16) × (length out.old ≡ n) × (n ≤ length u.now) }
    requires rows { Rows d.p n m.now × Words d.p (length u.now) u.now }
    ensures { out.new ≡ matrix_product d.p n m.now (take n u.now) }
{
    let loaded = load_words(n, u);
    for (i, word) in out.iter_mut().enumerate() {
        *word = dot(d, n, m, &loaded, i) as Word;
    }
}

// The product of a matrix with the first n words of u.
pub fn multiply(d: Barrett, n: usize, m: &[u64; 256], u: &[Word], out: &mut [Word])
    requires sizes { (n ≤ 16) × (length out.old ≡ n) × (n ≤ length u.now) }
    requires rows { Rows d.p n m.now × Words d.p (length u.now) u.now }
    ensures { out.new ≡ matrix_product d.p n m.now (take n u.now) }
{
    let few = &u[..n];
    match n {
        1 => multiply_few::<1>(d, m, few, out),
        2 => multiply_few::<2>(d, m, few, out),
        3 => multiply_few::<3>(d, m, few, out),
        4 => multiply_few::<4>(d, m, few, out),
        5 => multiply_few::<5>(d, m, few, out),
        _ => multiply_many(d, n, m, u, out),
    }
}
