// Insertion into rows in ascending order: n words each, one after the other in a lent list.
ghost use mathlib.Core.List.{flatten};
ghost use Rattle.std.specs.Prelude.{◌≡◌, suc, ◌*◌, ◌≤◌, ◌<◌, length, take};
ghost use Rattle.array.specs.Array.{Holds};
ghost use Rattle.array.specs.Words.{Words, word_bound};
ghost use Rattle.sorting.specs.Sorting.{rows, insert};

use crate::order::exchange;
use array::Word;
use array::copy::store;

// Inserts u into the first k rows of out, which become k + 1: each row keeps the lower of itself and what is carried to it, and the highest is the last row.
pub fn insert(n: usize, k: usize, u: &[u64; 16], out: &mut [Word])
    requires room { (k < n) × (n ≤ 16) × (length out.old ≡ n * n) }
    requires holds { Holds word_bound n u.now × Words word_bound (k * n) (take (k * n) out.old) }
    ensures { take (suc k * n) out.new ≡ flatten (insert (take n u.now) (rows n k out.old)) }
{
    let mut carried = *u;
    for j in 0..k {
        let start = j * n;
        exchange(n, &mut carried, &mut out[start..start + n]);
    }
    let start = k * n;
    store(&carried, &mut out[start..start + n]);
}
