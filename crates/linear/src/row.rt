// Row operations on a system whose first c columns are those of the identity. They leave those columns alone, for the row that is multiplied is 0 there.
ghost use Rattle.std.specs.Prelude.{◌≡◌, ◌+◌, ◌*◌, ◌%◌, ◌≤◌, ◌<◌};
ghost use Rattle.array.specs.Array.{entry};
ghost use Rattle.linear.specs.Elimination.{Reduced, RowStep};

use modular::barrett::{Barrett, times};
use modular::word::remainder;

// e + f·g modulo p.
fn plus_product(d: Barrett, e: u64, f: u64, g: u64) -> u64
    requires factors { (e < d.p) × (f ≤ d.p) × (g < d.p) }
    ensures { (result ≡ (e + f * g) % d.p) × (result < d.p) }
{
    d.reduce(e + times(f, g))
}

// Row x plus f times row y, with y another row from row c on.
pub fn add_multiple(
    d: Barrett,
    n: usize,
    c: usize,
    x: usize,
    f: u64,
    y: usize,
    m: &mut [u64; 256],
    b: &mut [u64; 16],
)
    requires rows { (n ≤ 16) × (c < n) × (x < n) × (y < n) × (c ≤ y) × (f ≤ d.p) × (x ≡ y → ⊥) }
    requires reduced { Reduced d.p n c m.old b.old }
    ensures { RowStep d.p n c x ((entry m.old x c + f * entry m.old y c) % d.p) m.old b.old m.new b.new }
{
    for j in c..n {
        let k = 16 * x + j;
        m[k] = plus_product(d, m[k], f, m[16 * y + j]);
    }
    b[x] = plus_product(d, b[x], f, b[y]);
}

// Row c times a number whose product with the pivot, its word in column c, is 1 modulo p. Nothing else is known of that number, so it is reduced before the
// columns.
pub fn scale(d: Barrett, n: usize, c: usize, inverse: u64, m: &mut [u64; 256], b: &mut [u64; 16])
    requires inverse_of_pivot { (n ≤ 16) × (c < n) × ((inverse * entry m.old c c) % d.p ≡ 1) }
    requires reduced { Reduced d.p n c m.old b.old }
    ensures { RowStep d.p n c c 1 m.old b.old m.new b.new }
{
    let a = remainder(d.p, inverse);
    for j in c..n {
        let k = 16 * c + j;
        m[k] = plus_product(d, 0, a, m[k]);
    }
    b[c] = plus_product(d, 0, a, b[c]);
}
