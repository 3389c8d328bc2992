// The work on column c of a system whose first c columns are those of the identity: find a pivot, and make column c that of the identity too.
ghost use Rattle.std.specs.Prelude.{◌≡◌, ◌+◌, ◌≤◌, ◌<◌, MatchOption};
ghost use Rattle.algebra.specs.Prime.{Prime};
ghost use Rattle.array.specs.Array.{entry};
ghost use Rattle.linear.specs.Elimination.{Reduced, Advanced, Prepared, Pivot};

use crate::row::{add_multiple, scale};
use modular::barrett::Barrett;
use modular::word::inverse;

// The first row from row c on whose word in column c is not 0.
pub fn find_pivot(n: usize, c: usize, m: &[u64; 256]) -> Option<usize>
    requires { (n ≤ 16) × (c < n) }
    ensures { MatchOption result (Pivot n c m.now n) (λ r. (r < n) × Pivot n c m.now r) }
{
    for i in c..n {
        if m[16 * i + c] != 0 {
            return Some(i);
        }
    }
    None
}

// Adds row r, which has the pivot, to row c, unless it is row c. Before that the word of row c is 0 in column c, so it is not 0 afterwards.
fn bring(d: Barrett, n: usize, c: usize, r: usize, m: &mut [u64; 256], b: &mut [u64; 16])
    requires indices { (n ≤ 16) × (c < n) × (r < n) }
    requires reduced { Reduced d.p n c m.old b.old }
    requires pivot { Pivot n c m.old r }
    ensures { Prepared d.p n c m.old b.old m.new b.new }
{
    if r != c {
        add_multiple(d, n, c, c, 1, r, m, b);
    }
}

// Subtracts multiples of row c, which has 1 in column c, from all other rows, so that column c becomes that of the identity.
fn clear(d: Barrett, n: usize, c: usize, m: &mut [u64; 256], b: &mut [u64; 16])
    requires indices { (n ≤ 16) × (c < n) × (entry m.old c c ≡ 1) }
    requires reduced { Reduced d.p n c m.old b.old }
    ensures { Advanced d.p n (c + 1) m.old b.old m.new b.new }
{
    for i in 0..n {
        if i != c {
            let f = d.p - m[16 * i + c];
            add_multiple(d, n, c, i, f, c, m, b);
        }
    }
}

// Makes column c that of the identity, given the pivot's row r. The pivot's inverse is worked out once, before the columns.
pub fn eliminate(d: Barrett, n: usize, c: usize, r: usize, m: &mut [u64; 256], b: &mut [u64; 16])
    requires prime { Prime d.p }
    requires indices { (n ≤ 16) × (c < n) × (r < n) }
    requires reduced { Reduced d.p n c m.old b.old }
    requires pivot { Pivot n c m.old r }
    ensures { Advanced d.p n (c + 1) m.old b.old m.new b.new }
{
    bring(d, n, c, r, m, b);
    let pivot = m[16 * c + c];
    let a = inverse(d.p, pivot);
    scale(d, n, c, a, m, b);
    clear(d, n, c, m, b);
}
