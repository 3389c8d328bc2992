// Residues in ascending order: coefficients compared from the highest power down.
ghost use Rattle.std.specs.Prelude.{◌≡◌, ◌≤◌, length, take};
ghost use Rattle.array.specs.Array.{padded, Holds};
ghost use Rattle.array.specs.Ascending.{lower};
ghost use Rattle.array.specs.Words.{word_bound};
ghost use Rattle.sorting.specs.Sorting.{earlier, later};

use array::Word;
use array::copy::{load, store};

// Whether u comes before v: at the highest power where they differ, u has the smaller coefficient.
pub fn lower(n: usize, u: &[u64; 16], v: &[u64; 16]) -> bool
    requires { (n ≤ 16) × (length u.now ≡ 16) × (length v.now ≡ 16) }
    ensures { result ≡ lower (take n u.now) (take n v.now) }
{
    for j in (0..n).rev() {
        if u[j] != v[j] {
            return u[j] < v[j];
        }
    }
    false
}

// The lower of u and the row into the row, the other into u.
pub fn exchange(n: usize, u: &mut [u64; 16], row: &mut [Word])
    requires { (n ≤ 16) × Holds word_bound n u.old × (length row.old ≡ n) }
    ensures row_after { row.new ≡ earlier (take n u.old) row.old }
    ensures u_after { u.new ≡ padded (later (take n u.old) row.old) }
{
    let v = load(row);
    if lower(n, u, &v) {
        store(u, row);
        *u = v;
    }
}
