// A matrix of n rows: in a list, row after row, and in an array, whose rows have 16 words.
ghost use Rattle.std.specs.Prelude.{eqb, ◌≡◌, ◌*◌, ◌≤◌, length, replicate};
ghost use Rattle.array.specs.Array.{entry, Square};
ghost use Rattle.array.specs.Words.{word_bound};
ghost use Rattle.bymatrix.specs.ByMatrix.{square};
ghost use Rattle.bymatrix.specs.Clauses.{Loaded};

use array::Word;
use modular::barrett::times;

// Whether a list has the words of a matrix of n rows and n columns.
pub fn is_square(n: u32, matrix: &[Word]) -> bool
    ensures { result ≡ eqb (length matrix.now) (n * n) }
{
    matrix.len() as u64 == times(n as u64, n as u64)
}

// The first n rows and columns of m into a list.
pub fn store_rows(n: usize, m: &[u64; 256], out: &mut [Word])
    requires sizes { (1 ≤ n) × (n ≤ 16) × (length out.old ≡ n * n) }
    requires square { Square word_bound n m.now }
    ensures { out.new ≡ square n (entry m.now) }
{
    for i in 0..n {
        for j in 0..n {
            out[i * n + j] = m[16 * i + j] as Word;
        }
    }
}

// A list of n rows into the first n rows and columns of m, which is 0.
pub fn load_rows(n: usize, matrix: &[Word], m: &mut [u64; 256])
    requires { (1 ≤ n) × (n ≤ 16) × (length matrix.now ≡ n * n) × (m.old ≡ replicate 256 0) }
    ensures { Loaded n matrix.now m.new }
{
    for i in 0..n {
        for j in 0..n {
            m[16 * i + j] = matrix[i * n + j] as u64;
        }
    }
}
