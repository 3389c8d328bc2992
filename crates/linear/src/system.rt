// Systems of n linear equations in n unknowns modulo p, by elimination column by column. The matrix is lent: elimination works on it in place.
ghost use Rattle.std.specs.Prelude.{◌≡◌, ◌≤◌, ◌<◌, length, take};
ghost use Rattle.algebra.specs.Prime.{Prime};
ghost use Rattle.array.specs.Array.{Square, Holds};
ghost use Rattle.linear.specs.System.{Singular, SolutionOf};
ghost use Rattle.linear.specs.Elimination.{Identity, Pivot};

use crate::column::{eliminate, find_pivot};
use modular::barrett::Barrett;
use modular::word::sub;

// Of a regular system its one solution, of a singular one a vector other than 0 that the matrix
// takes to 0. The array has zeros after n words.
#[derive(Clone, Copy)]
pub enum Solution {
    Unique([u64; 16]),
    NullVector([u64; 16]),
}

// The vector (−m[0][c], …, −m[c−1][c], 1, 0, …), where column c is 0 from row c on.
fn kernel_vector(p: u64, n: usize, c: usize, m: &[u64; 256]) -> [u64; 16]
    requires bounds { (2 ≤ p) × (p ≤ 1048576) × (n ≤ 16) × (c < n) }
    requires identity { Identity p n c m.now }
    requires pivot { Pivot n c m.now n }
    ensures holds { Holds p n result }
    ensures singular { Singular p n m.now (take n result) }
{
    let mut v: [u64; 16] = [0; 16];
    v[c] = 1;
    for j in 0..c {
        v[j] = sub(p, 0, m[16 * j + c]);
    }
    v
}

// Solves M·v = b: walks the columns, and stops at the first without a pivot. Of the matrix at the end only the length is promised.
pub fn solve(d: Barrett, n: usize, m: &mut [u64; 256], b: [u64; 16]) -> Solution
    requires prime { Prime d.p }
    requires degree { n ≤ 16 }
    requires square { Square d.p n m.old }
    requires holds { Holds d.p n b }
    ensures solution { SolutionOf d.p n m.old b result }
    ensures size { length m.new ≡ 256 }
{
    let mut v = b;
    for c in 0..n {
        match find_pivot(n, c, m) {
            Some(r) => eliminate(d, n, c, r, m, &mut v),
            None => return Solution::NullVector(kernel_vector(d.p, n, c, m)),
        }
    }
    Solution::Unique(v)
}
